ghost use Rattle.std.specs.Prelude.{◌≡◌, ◌<◌, length, slice_index};
ghost use Rattle.kn_route.specs.LinkLists.{numbers_of};
ghost use Rattle.kn_route.specs.Choice as spec;
ghost use Rattle.kn_route.specs.Addresses.{address_in};

use crate::address::Address;
use crate::link::Link;
use crate::strategy::Strategy;

fn is_of(strategy: &Strategy, host: &str, address: &Option<Address>, link: &Link) -> bool
    requires { address.now ≡ address_in host.now }
    ensures { result ≡ spec.is_of strategy.now host.now link.now }
{
    match strategy {
        Strategy::DestHost => link.identifiers.fit(host, address),
        Strategy::DefaultRoute => link.identifiers.take_every_dial(),
        Strategy::Default => true,
    }
}

fn is_same_flag(flag: bool, other: bool) -> bool
    ensures { result ≡ spec.is_same_flag flag other }
{
    if flag { other } else { !other }
}

fn is_candidate(
    strategy: &Strategy,
    host: &str,
    address: &Option<Address>,
    draining: bool,
    link: &Link,
) -> bool
    requires { address.now ≡ address_in host.now }
    ensures { result ≡ spec.is_candidate strategy.now host.now draining link.now }
{
    is_same_flag(link.draining, draining) && is_of(strategy, host, address, link)
}

fn count(
    strategy: &Strategy,
    host: &str,
    address: &Option<Address>,
    draining: bool,
    links: &[Link],
) -> usize
    requires { address.now ≡ address_in host.now }
    ensures { result ≡ length (spec.links_of strategy.now host.now draining links.now) }
{
    let mut count = 0;
    for link in links {
        if is_candidate(strategy, host, address, draining, link) {
            count += 1;
        }
    }
    count
}

// The number of the candidate at a place, counted from 0.
fn number_at(
    strategy: &Strategy,
    host: &str,
    address: &Option<Address>,
    draining: bool,
    links: &[Link],
    place: u64,
) -> u64
    requires read { address.now ≡ address_in host.now }
    requires within { place < length (spec.links_of strategy.now host.now draining links.now) }
    ensures { result
        ≡ slice_index (numbers_of (spec.links_of strategy.now host.now draining links.now)) place }
{
    let mut left = place;
    for link in links {
        if is_candidate(strategy, host, address, draining, link) {
            if left == 0 {
                return link.number;
            }
            left -= 1;
        }
    }
    0
}

fn choose_among(
    strategy: &Strategy,
    host: &str,
    address: &Option<Address>,
    draining: bool,
    links: &[Link],
    dial: u64,
) -> Option<u64>
    requires { address.now ≡ address_in host.now }
    ensures { result ≡ spec.chosen (spec.links_of strategy.now host.now draining links.now) dial }
{
    let count = count(strategy, host, address, draining, links) as u64;
    if count == 0 {
        None
    } else {
        Some(number_at(strategy, host, address, draining, links, dial % count))
    }
}

fn choose(
    strategy: &Strategy,
    host: &str,
    address: &Option<Address>,
    links: &[Link],
    dial: u64,
) -> Option<u64>
    requires { address.now ≡ address_in host.now }
    ensures { result ≡ spec.chosen (spec.candidates strategy.now host.now links.now) dial }
{
    match choose_among(strategy, host, address, false, links, dial) {
        Some(link) => Some(link),
        None => choose_among(strategy, host, address, true, links, dial),
    }
}

/// The first strategy with a candidate, and the link that it gives to this dial.
#[tactic(auto, unfolding(crate::specs::Choice::pick))]
pub(crate) fn pick(
    strategies: &[Strategy],
    host: &str,
    address: &Option<Address>,
    links: &[Link],
    dial: u64,
) -> Option<(Strategy, u64)>
    requires { address.now ≡ address_in host.now }
    ensures { result ≡ spec.pick strategies.now links.now host.now dial }
{
    for strategy in strategies {
        if let Some(link) = choose(strategy, host, address, links, dial) {
            return Some((*strategy, link));
        }
    }
    None
}
