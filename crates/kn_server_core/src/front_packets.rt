ghost use Rattle.std.specs.Prelude.{◌≡◌, ◌++◌, IsSome, OnOk};
ghost use Rattle.kn_tables.specs.Lists.{first_where};
ghost use Rattle.kn_tables.specs.Awaiting.{is_random};
ghost use Rattle.kn_tables.specs.Holding.{is_held};
ghost use Rattle.kn_server_core.specs.Server as spec;
ghost use Rattle.kn_server_core.specs.Sound.{IsSound};

use crate::dials::dial_asked;
use crate::event::ServerOut;
use crate::outs::{ask_close, data_to_link, refuse_close};
use crate::state::State;
use kn_io::{Blob, NoMemory};
use kn_packet::Packet;
use kn_tables::{HeldEntry, HeldState};
use std::alloc::Global;

/// The tunnel of this front that a packet's connectID names.
fn own(state: &State, front: u64, connect_id: i64) -> Option<HeldEntry>
    ensures { result ≡ spec.own front (spec.held_at connect_id state.now.held) }
{
    if connect_id < 0 {
        return None;
    }
    match state.held.find_dial(connect_id as u64) {
        Some(entry) => {
            if entry.front == Some(front) {
                Some(entry)
            } else {
                None
            }
        }
        None => None,
    }
}

/// A front sends bytes of a tunnel.
fn data_up(
    alloc: Global,
    state: &State,
    front: u64,
    connect_id: i64,
    bytes: Blob,
    outs: &mut Vec<ServerOut>,
) -> Result<(), NoMemory>
    ensures { OnOk result (outs.new.items ≡ outs.old.items ++ (spec.data_up state.now bytes (spec.own front (spec.held_at connect_id state.now.held))).outs) }
{
    match own(state, front, connect_id) {
        Some(entry) => match entry.state {
            HeldState::Open => data_to_link(alloc, entry.link, &entry.connect_id, bytes, outs),
            HeldState::Closing => Ok(()),
        },
        None => Ok(()),
    }
}

/// A front closes a tunnel of its own.
fn close_own(state: &mut State, entry: HeldEntry, outs: &mut Vec<ServerOut>) -> Result<(), NoMemory>
    requires sound { IsSound state.old }
    requires held { IsSome (first_where (is_held entry.link entry.connect_id) state.old.held) }
    ensures sound { IsSound state.new }
    ensures state { OnOk result (state.new ≡ (spec.close_own state.old entry.state entry).state) }
    ensures outs { OnOk result (outs.new.items ≡ outs.old.items ++ (spec.close_own state.old entry.state entry).outs) }
{
    match entry.state {
        HeldState::Open => {
            state.held.close(entry.link, entry.connect_id, true);
            ask_close(entry.link, entry.connect_id, outs)
        }
        HeldState::Closing => Ok(()),
    }
}

/// A front closes a connection that is none of its own.
fn unknown_close(
    alloc: Global,
    state: &State,
    front: u64,
    connect_id: i64,
    outs: &mut Vec<ServerOut>,
) -> Result<(), NoMemory>
    ensures { OnOk result (outs.new.items ≡ outs.old.items ++ (spec.unknown_close state.now front connect_id).outs) }
{
    refuse_close(alloc, front, connect_id, "unknown connection", outs)
}

/// A front closes a connection.
fn close_from_front(
    alloc: Global,
    state: &mut State,
    front: u64,
    connect_id: i64,
    outs: &mut Vec<ServerOut>,
) -> Result<(), NoMemory>
    requires { IsSound state.old }
    ensures sound { IsSound state.new }
    ensures state { OnOk result (state.new ≡ (spec.close_from_front state.old front connect_id (spec.own front (spec.held_at connect_id state.old.held))).state) }
    ensures outs { OnOk result (outs.new.items ≡ outs.old.items ++ (spec.close_from_front state.old front connect_id (spec.own front (spec.held_at connect_id state.old.held))).outs) }
{
    match own(state, front, connect_id) {
        Some(entry) => close_own(state, entry, outs),
        None => unknown_close(alloc, state, front, connect_id, outs),
    }
}

/// A front takes a dial back.
fn dial_cancelled(state: &mut State, front: u64, random: i64)
    requires { IsSound state.old }
    ensures sound { IsSound state.new }
    ensures state { state.new ≡ (spec.dial_cancelled state.old (first_where (is_random front random) state.old.awaited)).state }
{
    match state.awaited.find_random(front, random) {
        Some(entry) => {
            state.awaited.remove(entry.dial);
        }
        None => {}
    }
}

/// A packet of a front that is up.
pub(crate) fn from_front(
    alloc: Global,
    state: &mut State,
    front: u64,
    packet: Packet,
    outs: &mut Vec<ServerOut>,
) -> Result<(), NoMemory>
    requires { IsSound state.old }
    ensures sound { IsSound state.new }
    ensures state { OnOk result (state.new ≡ (spec.from_front state.old front packet).state) }
    ensures outs { OnOk result (outs.new.items ≡ outs.old.items ++ (spec.from_front state.old front packet).outs) }
{
    match packet {
        Packet::DialReq {
            protocol,
            address,
            random,
        } => dial_asked(alloc, state, front, protocol, address, random, outs),
        Packet::Data {
            connect_id,
            error: _,
            bytes,
        } => data_up(alloc, state, front, connect_id, bytes, outs),
        Packet::CloseReq { connect_id } => close_from_front(alloc, state, front, connect_id, outs),
        Packet::DialCls { random } => {
            dial_cancelled(state, front, random);
            Ok(())
        }
        Packet::DialRsp { .. } => Ok(()),
        Packet::CloseRsp { .. } => Ok(()),
        Packet::Drain => Ok(()),
        Packet::Other { .. } => Ok(()),
    }
}
