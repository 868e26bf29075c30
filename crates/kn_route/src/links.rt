ghost use Rattle.std.specs.Prelude.{◌≡◌, ◌<◌, not, map, filter, length, IfOk, OnOk, OnErr};
ghost use Rattle.kn_route.specs.LinkLists as spec;
ghost use Rattle.kn_route.specs.Choice as choice;
ghost use Rattle.kn_route.specs.Places.{IsOnlyPlace};
ghost use Rattle.std.specs.List.{list_any};
ghost use Rattle.std.specs.List.Sorted.{IsStrictlyIncreasing};

use crate::address::address_of;
use crate::choice::pick;
use crate::identifiers::Identifiers;
use crate::link::Link;
use crate::marks::Marks;
use crate::strategies::Strategies;
use crate::strategy::Strategy;
use kn_io::NoMemory;
use std::alloc::Global;
use std::marker::Model;

fn drain_link(link: &mut Link, number: u64)
    ensures { link.new ≡ spec.drained number link.old }
{
    if link.number == number {
        link.draining = true;
    }
}

// Where the link of a number stands among links by rising number, or where it would stand.
fn place_of(links: &[Link], number: u64) -> usize
    requires { IsStrictlyIncreasing (spec.numbers_of links.now) }
    ensures { IsOnlyPlace number links.now result }
{
    links.partition_point(|link| link.number < number)
}

fn drain_all(links: &mut Vec<Link>, number: u64)
    requires { IsStrictlyIncreasing (spec.numbers_of links.old.items) }
    ensures { links.new.items ≡ map (spec.drained number) links.old.items }
{
    let place = place_of(links, number);
    if place < links.len() {
        drain_link(&mut links[place], number);
    }
}

fn holds(links: &[Link], number: u64) -> bool
    requires { IsStrictlyIncreasing (spec.numbers_of links.now) }
    ensures { result ≡ list_any (spec.is_link number) links.now }
{
    let place = place_of(links, number);
    if place < links.len() {
        links[place].number == number
    } else {
        false
    }
}

fn remove_link(links: &mut Vec<Link>, number: u64)
    ensures { links.new.items ≡ filter (λ l. not (spec.is_link number l)) links.old.items }
{
    links.retain(|link| link.number != number);
}

/// The links of the agents that are up, by rising number. Contracts see the list, and the greatest number
/// that a link ever had.
#[derive(Drop)]
pub struct Links {
    links: Vec<Link>,
    top: u64,
}

impl Model for Links {
    ghost use Rattle.kn_route.specs.LinkLists.{LinkList, IsRising};

    ghost Value = { LinkList };

    ghost view = { λ l. record { links = l.links.items; top = l.top } };

    ghost invariant = { λ l. IsRising (record { links = l.links.items; top = l.top }) };
}

impl Links {
    /// No links. Takes no memory.
    pub fn new(alloc: Global) -> Links
        ensures { result ≡ spec.no_links }
    {
        Links {
            links: Vec::new(alloc),
            top: 0,
        }
    }

    /// A link comes up with a number above all earlier ones, also of links that are gone.
    pub fn up(&mut self, link: u64, identifiers: Identifiers) -> Result<(), NoMemory>
        requires { self.old.top < link }
        ensures ok { OnOk result (self.new ≡ spec.with_link self.old link identifiers) }
        ensures err { OnErr result (self.new ≡ self.old) }
    {
        self.links.push(Link {
            number: link,
            draining: false,
            identifiers,
        })?;
        self.top = link;
        Ok(())
    }

    /// The link drains from now on. It takes no memory, and an unknown link changes nothing.
    pub fn drain(&mut self, link: u64)
        ensures { self.new ≡ spec.with_drained self.old link }
    {
        drain_all(&mut self.links, link);
    }

    /// The link is gone. It takes no memory, and an unknown link changes nothing.
    pub fn down(&mut self, link: u64)
        ensures { self.new ≡ spec.without_link self.old link }
    {
        remove_link(&mut self.links, link);
    }

    /// How many links are up.
    pub fn len(&self) -> usize
        ensures { result ≡ length self.now.links }
    {
        self.links.len()
    }

    /// Whether a link of this number is up.
    pub fn has(&self, link: u64) -> bool
        ensures { result ≡ spec.has_link link self.now }
    {
        holds(&self.links, link)
    }

    /// The greatest number that a link ever had, or 0.
    pub fn top(&self) -> u64
        ensures { result ≡ self.now.top }
    {
        self.top
    }

    /// Each link by rising number, with whether it drains.
    pub fn marks(&self, alloc: Global) -> Result<Marks, NoMemory>
        ensures ok { IfOk result (λ marks. marks ≡ map spec.mark_of self.now.links) }
        ensures rising { spec.IsRising self.now }
    {
        let mut marks = Marks::new(alloc);
        for link in &self.links {
            marks.push(link.number, link.draining)?;
        }
        Ok(marks)
    }

    /// The first strategy with a candidate for the host, and the link that it gives to this dial. It takes
    /// no memory.
    pub fn pick(&self, strategies: &Strategies, host: &str, dial: u64) -> Option<(Strategy, u64)>
        ensures picked { result ≡ choice.pick strategies.now self.now.links host.now dial }
        ensures rising { spec.IsRising self.now }
    {
        let address = address_of(host);
        pick(strategies.as_slice(), host, &address, &self.links, dial)
    }
}
