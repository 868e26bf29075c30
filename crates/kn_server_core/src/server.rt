ghost use Rattle.std.specs.Prelude.{◌≡◌, ◌++◌, [], OnOk, IfOk};
ghost use Rattle.kn_route.specs.LinkLists.{no_links};
ghost use Rattle.kn_server_core.specs.FrontLists.{no_fronts};
ghost use Rattle.kn_server_core.specs.Choices.{choice_at as choice_of_event};
ghost use Rattle.kn_server_core.specs.Server as spec;
ghost use Rattle.kn_server_core.specs.Sound.{IsSound, IsNext};

use crate::choice::{Choice, choice_at};
use crate::event::{ServerEvent, ServerOut};
use crate::front_packets::from_front;
use crate::fronts::Fronts;
use crate::link_packets::from_link;
use crate::losses::{front_lost, link_lost};
use crate::state::State;
use kn_io::NoMemory;
use kn_packet::Packet;
use kn_route::{Links, Strategies};
use kn_tables::{Awaited, Held};
use std::alloc::Global;
use std::marker::Model;

/// The proxy server as a machine without sockets: each event of a link or a front gives outputs in order.
/// Contracts see its state. After an `Err` it is safe to use and keeps its limits, and nothing else is said.
#[derive(Drop)]
pub struct ServerCore {
    state: State,
}

impl Model for ServerCore {
    ghost use Rattle.kn_server_core.specs.declared.state.State.{State};
    ghost use Rattle.kn_server_core.specs.Sound.{IsSound};

    ghost Value = { State };

    ghost view = { λ c. c.state };

    ghost invariant = { λ c. IsSound c.state };
}

fn link_packet(
    alloc: Global,
    state: &mut State,
    link: u64,
    packet: Packet,
    outs: &mut Vec<ServerOut>,
) -> Result<(), NoMemory>
    requires { IsSound state.old }
    ensures sound { IsSound state.new }
    ensures state { OnOk result (state.new ≡ (spec.link_packet state.old link packet).state) }
    ensures outs { OnOk result (outs.new.items ≡ outs.old.items ++ (spec.link_packet state.old link packet).outs) }
{
    if state.links.has(link) {
        from_link(alloc, state, link, packet, outs)
    } else {
        Ok(())
    }
}

fn link_gone(
    alloc: Global,
    state: &mut State,
    link: u64,
    outs: &mut Vec<ServerOut>,
) -> Result<(), NoMemory>
    requires { IsSound state.old }
    ensures sound { IsSound state.new }
    ensures state { OnOk result (state.new ≡ (spec.link_gone state.old link).state) }
    ensures outs { OnOk result (outs.new.items ≡ outs.old.items ++ (spec.link_gone state.old link).outs) }
{
    if state.links.has(link) {
        link_lost(alloc, state, link, outs)
    } else {
        Ok(())
    }
}

fn front_packet(
    alloc: Global,
    state: &mut State,
    front: u64,
    packet: Packet,
    outs: &mut Vec<ServerOut>,
) -> Result<(), NoMemory>
    requires { IsSound state.old }
    ensures sound { IsSound state.new }
    ensures state { OnOk result (state.new ≡ (spec.front_packet state.old front packet).state) }
    ensures outs { OnOk result (outs.new.items ≡ outs.old.items ++ (spec.front_packet state.old front packet).outs) }
{
    if state.fronts.has(front) {
        from_front(alloc, state, front, packet, outs)
    } else {
        Ok(())
    }
}

fn front_gone(state: &mut State, front: u64, outs: &mut Vec<ServerOut>) -> Result<(), NoMemory>
    requires { IsSound state.old }
    ensures sound { IsSound state.new }
    ensures state { OnOk result (state.new ≡ (spec.front_gone state.old front).state) }
    ensures outs { OnOk result (outs.new.items ≡ outs.old.items ++ (spec.front_gone state.old front).outs) }
{
    if state.fronts.has(front) {
        front_lost(state, front, outs)
    } else {
        Ok(())
    }
}

// An event, over the state itself.
fn handle(
    alloc: Global,
    state: &mut State,
    event: ServerEvent,
    outs: &mut Vec<ServerOut>,
) -> Result<(), NoMemory>
    requires sound { IsSound state.old }
    requires next { IsNext state.old event }
    ensures sound { IsSound state.new }
    ensures state { OnOk result (state.new ≡ (spec.step state.old event).state) }
    ensures outs { OnOk result (outs.new.items ≡ outs.old.items ++ (spec.step state.old event).outs) }
{
    match event {
        ServerEvent::LinkUp { link, identifiers } => state.links.up(link, identifiers),
        ServerEvent::LinkPacket { link, packet } => link_packet(alloc, state, link, packet, outs),
        ServerEvent::LinkLost { link } => link_gone(alloc, state, link, outs),
        ServerEvent::FrontUp { front } => state.fronts.up(front),
        ServerEvent::FrontPacket { front, packet } => {
            front_packet(alloc, state, front, packet, outs)
        }
        ServerEvent::FrontLost { front } => front_gone(state, front, outs),
    }
}

impl ServerCore {
    /// A server with no link, no front and no dial. The first dial draws the number 1. Takes no memory.
    pub fn new(alloc: Global, strategies: Strategies) -> ServerCore
        ensures { result ≡ spec.start strategies }
    {
        ServerCore {
            state: State {
                strategies,
                links: Links::new(alloc),
                fronts: Fronts::new(alloc),
                awaited: Awaited::new(alloc),
                held: Held::new(alloc),
                next_dial: 1,
            },
        }
    }

    /// Handles an event, and adds its outputs in order. `LinkUp` and `FrontUp` need numbers above
    /// `links().top()` and `top_front()`. An event of an unknown link or front changes nothing.
    pub fn step(
        &mut self,
        alloc: Global,
        event: ServerEvent,
        outs: &mut Vec<ServerOut>,
    ) -> Result<(), NoMemory>
        requires { IsNext self.old event }
        ensures state { OnOk result (self.new ≡ (spec.step self.old event).state) }
        ensures outs { OnOk result (outs.new.items ≡ outs.old.items ++ (spec.step self.old event).outs) }
    {
        handle(alloc, &mut self.state, event, outs)
    }

    /// The choice of a link that an event comes to, if it comes to one: what `step` does with the same event then sends the dial to its answer,
    /// or refuses it. It makes one choice for a request, and does nothing for another event.
    pub fn choice(&self, alloc: Global, event: &ServerEvent) -> Result<Option<Choice>, NoMemory>
        ensures { IfOk result (λ found. found ≡ choice_of_event self.now event.now) }
    {
        choice_at(alloc, &self.state, event)
    }

    /// The dials that no agent has answered yet.
    pub fn awaited(&self) -> &Awaited
        ensures { result.now ≡ self.now.awaited }
    {
        &self.state.awaited
    }

    /// The tunnels that are open or closing.
    pub fn held(&self) -> &Held
        ensures { result.now ≡ self.now.held }
    {
        &self.state.held
    }

    /// The links that are up.
    pub fn links(&self) -> &Links
        ensures { result.now ≡ self.now.links }
    {
        &self.state.links
    }

    /// The greatest number that a front ever had, or 0.
    pub fn top_front(&self) -> u64
        ensures { result ≡ self.now.fronts.top }
    {
        self.state.fronts.top()
    }

    /// The number that the next dial draws, from 1 on and at most 2^63 − 1, which no dial draws.
    pub fn next_dial(&self) -> u64
        ensures value { result ≡ self.now.next_dial }
        ensures sound { IsSound self.now }
    {
        self.state.next_dial
    }
}
