ghost use Rattle.std.specs.Prelude.{◌≡◌, Option, Some, IfOk};
ghost use Rattle.kn_route.specs.declared.strategy.Strategy.{Strategy};
ghost use Rattle.kn_server_core.specs.Choices as spec;

use crate::choose::{is_full, is_tcp};
use crate::event::ServerEvent;
use crate::state::State;
use kn_io::{NoMemory, Text};
use kn_packet::Packet;
use kn_route::{Marks, Strategy, host_of};
use std::alloc::Global;

/// A choice of a link for a dial.
#[derive(Drop)]
pub struct Choice {
    /// The host that the dial is for.
    pub host: Text,
    /// The number that the dial draws if a link is picked.
    pub dial: u64,
    /// The links that are up, by rising number, each with whether it drains.
    pub links: Marks,
    /// The link that is picked, if there is one.
    pub answer: Option<u64>,
}

/// The link of what was picked.
fn link_of(picked: Option<(Strategy, u64)>) -> Option<u64>
    ensures { result ≡ spec.link_of picked }
{
    match picked {
        Some((_, link)) => Some(link),
        None => None,
    }
}

/// The choice for a host.
fn choice_of(alloc: Global, state: &State, host: &str) -> Result<Choice, NoMemory>
    ensures { IfOk result (λ choice. choice ≡ spec.choice_of state.now host.now) }
{
    let picked = state.links.pick(&state.strategies, host, state.next_dial);
    let links = state.links.marks(alloc)?;
    let host = Text::of(alloc, host)?;
    Ok(Choice {
        host,
        dial: state.next_dial,
        links,
        answer: link_of(picked),
    })
}

/// The choice of a request whose address has a host, if the front may have one tunnel more.
fn choice_within(
    alloc: Global,
    state: &State,
    front: u64,
    host: &str,
) -> Result<Option<Choice>, NoMemory>
    ensures { IfOk result (λ found. found ≡ spec.choice_within state.now front host.now) }
{
    if is_full(state, front) {
        return Ok(None);
    }
    let choice = choice_of(alloc, state, host)?;
    Ok(Some(choice))
}

/// The choice that a request comes to.
fn choice_asked(
    alloc: Global,
    state: &State,
    front: u64,
    protocol: &str,
    address: &str,
    random: i64,
) -> Result<Option<Choice>, NoMemory>
    ensures { IfOk result (λ found. found ≡ spec.choice_asked state.now front protocol.now address.now random) }
{
    if state.awaited.find_random(front, random).is_some() {
        return Ok(None);
    }
    if !is_tcp(protocol) {
        return Ok(None);
    }
    match host_of(address) {
        Ok(host) => choice_within(alloc, state, front, host),
        Err(_) => Ok(None),
    }
}

/// The choice that a packet of a front comes to.
fn choice_in(
    alloc: Global,
    state: &State,
    front: u64,
    packet: &Packet,
) -> Result<Option<Choice>, NoMemory>
    ensures { IfOk result (λ found. found ≡ spec.choice_in state.now front packet.now) }
{
    match packet {
        Packet::DialReq {
            protocol,
            address,
            random,
        } => choice_asked(
            alloc,
            state,
            front,
            protocol.as_str(),
            address.as_str(),
            *random,
        ),
        Packet::DialRsp { .. } => Ok(None),
        Packet::CloseReq { .. } => Ok(None),
        Packet::CloseRsp { .. } => Ok(None),
        Packet::Data { .. } => Ok(None),
        Packet::DialCls { .. } => Ok(None),
        Packet::Drain => Ok(None),
        Packet::Other { .. } => Ok(None),
    }
}

/// The choice that a packet of a front comes to, if the front is up.
fn choice_at_front(
    alloc: Global,
    state: &State,
    front: u64,
    packet: &Packet,
) -> Result<Option<Choice>, NoMemory>
    ensures { IfOk result (λ found. found ≡ spec.choice_at_front state.now front packet.now) }
{
    if state.fronts.has(front) {
        choice_in(alloc, state, front, packet)
    } else {
        Ok(None)
    }
}

/// The choice that an event comes to.
pub(crate) fn choice_at(
    alloc: Global,
    state: &State,
    event: &ServerEvent,
) -> Result<Option<Choice>, NoMemory>
    ensures { IfOk result (λ found. found ≡ spec.choice_at state.now event.now) }
{
    match event {
        ServerEvent::FrontPacket { front, packet } => {
            choice_at_front(alloc, state, *front, packet)
        }
        ServerEvent::LinkUp { .. } => Ok(None),
        ServerEvent::LinkPacket { .. } => Ok(None),
        ServerEvent::LinkLost { .. } => Ok(None),
        ServerEvent::FrontUp { .. } => Ok(None),
        ServerEvent::FrontLost { .. } => Ok(None),
    }
}
