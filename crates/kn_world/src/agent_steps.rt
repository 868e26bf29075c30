//! What an agent does with an event, and where its outputs go.
ghost use Rattle.std.specs.Prelude.{◌≡◌, OnOk};
ghost use Rattle.kn_world.specs.AgentSteps as spec;

use crate::numbers::number_of;
use crate::state::State;
use crate::{agents, dials};
use kn_edge_core::{AgentEvent, AgentOut};
use kn_io::NoMemory;
use kn_packet::Packet;
use std::alloc::Global;

// A dial won its connection.
fn connected(state: &mut State, link: u64, dial: u64, connect_id: &i64) -> Result<(), NoMemory>
    ensures { OnOk result (state.new ≡ spec.connected link dial connect_id.now state.old) }
{
    agents::note_connection(&mut state.agents, link, dial)?;
    dials::note_connect_id(&mut state.dials, dial, connect_id);
    Ok(())
}

fn answered(
    state: &mut State,
    link: u64,
    dial: u64,
    error: &str,
    connect_id: &i64,
) -> Result<(), NoMemory>
    ensures { OnOk result (state.new ≡ spec.answered error.now link dial connect_id.now state.old) }
{
    if error.is_empty() {
        connected(state, link, dial, connect_id)
    } else {
        Ok(())
    }
}

// Notes what an agent's packet says of a dial.
fn note_packet(state: &mut State, link: u64, dial: u64, packet: &Packet) -> Result<(), NoMemory>
    ensures { OnOk result (state.new ≡ spec.noted packet.now link dial state.old) }
{
    match packet {
        Packet::DialRsp {
            error,
            connect_id,
            random: _,
        } => answered(state, link, dial, error.as_str(), connect_id),
        Packet::DialReq { .. } => Ok(()),
        Packet::CloseReq { .. } => Ok(()),
        Packet::CloseRsp { .. } => Ok(()),
        Packet::Data { .. } => Ok(()),
        Packet::DialCls { .. } => Ok(()),
        Packet::Drain => Ok(()),
        Packet::Other { .. } => Ok(()),
    }
}

fn sends(state: &mut State, link: u64, dial: u64, packet: Packet) -> Result<(), NoMemory>
    ensures { OnOk result (state.new ≡ spec.sends packet link dial state.old) }
{
    note_packet(state, link, dial, &packet)?;
    agents::queue_up(&mut state.agents, link, packet)
}

// An output of an agent, which concerns this dial.
fn gives(state: &mut State, link: u64, dial: u64, out: AgentOut) -> Result<(), NoMemory>
    ensures { OnOk result (state.new ≡ spec.gives out link dial state.old) }
{
    match out {
        AgentOut::ToServer(packet) => sends(state, link, dial, packet),
        AgentOut::Dial { ticket, address: _ } => {
            dials::note_ticket(&mut state.dials, dial, ticket);
            Ok(())
        }
        AgentOut::Write {
            connect_id: _,
            bytes,
        } => dials::write(&mut state.dials, dial, bytes),
        AgentOut::CloseDest { .. } => Ok(()),
        AgentOut::DropDial { .. } => Ok(()),
    }
}

fn gives_all(state: &mut State, link: u64, dial: u64, outs: Vec<AgentOut>) -> Result<(), NoMemory>
    ensures { OnOk result (state.new ≡ spec.gives_all outs.items link dial state.old) }
{
    for out in outs {
        gives(state, link, dial, out)?;
    }
    Ok(())
}

/// An agent takes an event that concerns this dial.
pub fn step(
    alloc: Global,
    state: &mut State,
    link: u64,
    dial: u64,
    event: AgentEvent,
) -> Result<(), NoMemory>
    ensures { OnOk result (state.new ≡ spec.step link dial event state.old) }
{
    let outs = agents::step_core(alloc, &mut state.agents, link, event)?;
    gives_all(state, link, dial, outs)
}

// A destination takes so many bytes.
fn wrote(
    alloc: Global,
    state: &mut State,
    link: u64,
    dial: u64,
    connect_id: i64,
    count: usize,
) -> Result<(), NoMemory>
    ensures { OnOk result (state.new ≡ spec.wrote link dial connect_id count state.old) }
{
    dials::take(&mut state.dials, dial, count);
    step(
        alloc,
        state,
        link,
        dial,
        AgentEvent::DestWrote { connect_id, count },
    )
}

/// A destination takes at most so many bytes.
pub fn take(alloc: Global, state: &mut State, dial: u64, count: usize) -> Result<(), NoMemory>
    ensures { OnOk result (state.new ≡ spec.takes dial count state.old) }
{
    match state.dials.get(dial) {
        Some(found) => {
            let most = dials::unwritten_of(&state.agents, found);
            let link = found.link;
            let connect_id = found.connect_id;
            wrote(alloc, state, link, dial, connect_id, count.min(most))
        }
        None => Ok(()),
    }
}

// Whether there is this dial, and its destination takes freely.
fn is_free(state: &State, dial: u64) -> bool
    ensures { result ≡ spec.is_free dial state.now }
{
    match state.dials.get(dial) {
        Some(found) => !found.side.held,
        None => false,
    }
}

/// A destination that is not held takes all there is.
pub fn take_freely(alloc: Global, state: &mut State, dial: u64) -> Result<(), NoMemory>
    ensures { OnOk result (state.new ≡ spec.takes_freely dial state.old) }
{
    if is_free(state, dial) {
        take(alloc, state, dial, usize::MAX)
    } else {
        Ok(())
    }
}

// The dial whose destination a packet has bytes for, 0 where there is none.
fn written_by(state: &State, link: u64, packet: &Packet) -> u64
    ensures { result ≡ spec.written_by packet.now link state.now }
{
    match packet {
        Packet::Data {
            connect_id,
            error: _,
            bytes: _,
        } => agents::dial_at(&state.agents, link, connect_id),
        Packet::DialReq { .. } => 0,
        Packet::DialRsp { .. } => 0,
        Packet::CloseReq { .. } => 0,
        Packet::CloseRsp { .. } => 0,
        Packet::DialCls { .. } => 0,
        Packet::Drain => 0,
        Packet::Other { .. } => 0,
    }
}

// The dial that a packet asks for, 0 where it asks for none.
fn asked_by(packet: &Packet) -> u64
    ensures { result ≡ spec.asked_by packet.now }
{
    match packet {
        Packet::DialReq {
            protocol: _,
            address: _,
            random,
        } => number_of(random),
        Packet::DialRsp { .. } => 0,
        Packet::CloseReq { .. } => 0,
        Packet::CloseRsp { .. } => 0,
        Packet::Data { .. } => 0,
        Packet::DialCls { .. } => 0,
        Packet::Drain => 0,
        Packet::Other { .. } => 0,
    }
}

fn either(first: u64, second: u64) -> u64
    ensures { result ≡ spec.either first second }
{
    if first == 0 { second } else { first }
}

/// An agent takes a packet of the server, and the destination that it has bytes for takes them.
pub fn take_packet(
    alloc: Global,
    state: &mut State,
    link: u64,
    packet: Packet,
) -> Result<(), NoMemory>
    ensures { OnOk result (state.new ≡ spec.takes_packet packet link state.old) }
{
    let asked = asked_by(&packet);
    let written = written_by(state, link, &packet);
    dials::note_request(&mut state.dials, asked);
    step(
        alloc,
        state,
        link,
        either(asked, written),
        AgentEvent::Packet(packet),
    )?;
    take_freely(alloc, state, written)
}
