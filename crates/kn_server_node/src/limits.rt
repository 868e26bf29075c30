//! How many links and fronts there may be.

ghost use Rattle.std.specs.Prelude.{◌≡◌, ◌≤◌, nat_le, length, filter, IfOk};
ghost use Rattle.kn_rising.specs.Members.{at};
ghost use Rattle.kn_server_node.specs.Callers as spec;

use crate::connections::Connections;
use crate::node::Node;
use crate::one;
use crate::place::Place;
use crate::places::Places;
use kn_io::NoMemory;
use std::alloc::Global;

/// The most links.
const LINK_LIMIT: usize = 100;

/// The most fronts.
const FRONT_LIMIT: usize = 600;

/// The number before the last one that a link or a front may have.
const LAST_NUMBER: u64 = 9_223_372_036_854_775_806;

fn counts(ends: &Connections, place: Place) -> bool
    ensures { result ≡ spec.counts ends.now place }
{
    match ends.get(place.conn) {
        Some(end) => one::counts(end, place.stream),
        None => false,
    }
}

fn count_of(ends: &Connections, places: &[Place]) -> usize
    ensures count { result ≡ spec.count_of ends.now places.now }
    ensures bound { result ≤ length places.now }
{
    let mut count = 0;
    for place in places {
        if counts(ends, *place) {
            count += 1;
        }
    }
    count
}

/// So many are the most.
fn has_most(count: usize, most: usize) -> bool
    ensures { result ≡ nat_le most count }
{
    most <= count
}

fn is_full(ends: &Connections, places: &[Place], past: &[Place], top: u64, most: usize) -> bool
    ensures { result ≡ spec.is_full ends.now places.now past.now top most }
{
    has_most(count_of(ends, places) + count_of(ends, past), most) || LAST_NUMBER <= top
}

/// No link is accepted.
pub fn has_no_link(node: &Node) -> bool
    ensures { result ≡ spec.has_no_link node.now }
{
    let top = node.core.links().top();
    is_full(
        &node.ends,
        node.links.items(),
        node.past_links.as_slice(),
        top,
        LINK_LIMIT,
    )
}

/// No front is accepted.
pub fn has_no_front(node: &Node) -> bool
    ensures { result ≡ spec.has_no_front node.now }
{
    let top = node.core.top_front();
    is_full(
        &node.ends,
        node.fronts.items(),
        node.past_fronts.as_slice(),
        top,
        FRONT_LIMIT,
    )
}

/// Those of the places that still count.
pub fn counting(alloc: Global, ends: &Connections, places: &Places) -> Result<Places, NoMemory>
    ensures { IfOk result (λ kept. kept ≡ filter (spec.counts ends.now) places.now) }
{
    let mut kept = Places::new(alloc);
    for place in places.as_slice() {
        if counts(ends, *place) {
            kept.push(*place)?;
        }
    }
    Ok(kept)
}
