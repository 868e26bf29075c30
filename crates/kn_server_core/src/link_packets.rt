ghost use Rattle.std.specs.Prelude.{◌≡◌, ◌<◌, ◌^◌, ◌++◌, None, Some, OnOk};
ghost use Rattle.kn_tables.specs.Lists.{first_where};
ghost use Rattle.kn_tables.specs.Awaiting.{is_dial};
ghost use Rattle.kn_tables.specs.Holding.{is_held};
ghost use Rattle.kn_server_core.specs.Server as spec;
ghost use Rattle.kn_server_core.specs.Sound.{IsSound};

use crate::cut::cut;
use crate::event::ServerOut;
use crate::losses::second_reply_cuts;
use crate::outs::{ask_close, data_to_front, refuse, tell_ended, tell_opened};
use crate::state::State;
use kn_io::{Blob, NoMemory, Text};
use kn_packet::Packet;
use kn_tables::{AwaitedEntry, HeldEntry, HeldState};
use std::alloc::Global;

/// The agent's connection is up: the awaited dial becomes an open tunnel.
fn tunnel_opened(
    alloc: Global,
    state: &mut State,
    link: u64,
    connect_id: i64,
    entry: AwaitedEntry,
    outs: &mut Vec<ServerOut>,
) -> Result<(), NoMemory>
    requires sound { IsSound state.old }
    requires awaited { first_where (is_dial entry.dial) state.old.awaited ≡ Some entry }
    requires new_connect { first_where (is_held link connect_id) state.old.held ≡ None }
    ensures sound { IsSound state.new }
    ensures state { OnOk result (state.new ≡ (spec.tunnel_opened state.old link connect_id entry).state) }
    ensures outs { OnOk result (outs.new.items ≡ outs.old.items ++ (spec.tunnel_opened state.old link connect_id entry).outs) }
{
    state.awaited.remove(entry.dial);
    state.held.insert(HeldEntry {
        dial: entry.dial,
        link,
        connect_id,
        front: Some(entry.front),
        state: HeldState::Open,
    })?;
    tell_opened(alloc, entry.front, entry.dial, entry.random, outs)
}

/// The agent's dial failed.
fn dial_failed(
    alloc: Global,
    state: &mut State,
    error: Text,
    entry: AwaitedEntry,
    outs: &mut Vec<ServerOut>,
) -> Result<(), NoMemory>
    requires { IsSound state.old }
    ensures sound { IsSound state.new }
    ensures state { OnOk result (state.new ≡ (spec.dial_failed state.old error entry).state) }
    ensures outs { OnOk result (outs.new.items ≡ outs.old.items ++ (spec.dial_failed state.old error entry).outs) }
{
    state.awaited.remove(entry.dial);
    let error = cut(alloc, error)?;
    refuse(entry.front, entry.random, error, outs)
}

/// The awaited dial of this link that a reply's random names.
fn awaited_by(state: &State, link: u64, random: i64) -> Option<AwaitedEntry>
    ensures { result ≡ spec.of_link link (spec.dial_at random state.now.awaited) }
{
    if random < 0 {
        return None;
    }
    match state.awaited.find_dial(random as u64) {
        Some(entry) => {
            if entry.link == link {
                Some(entry)
            } else {
                None
            }
        }
        None => None,
    }
}

/// A reply without an error, whose connectID is not held.
fn awaited_reply(
    alloc: Global,
    state: &mut State,
    link: u64,
    connect_id: i64,
    random: i64,
    outs: &mut Vec<ServerOut>,
) -> Result<(), NoMemory>
    requires sound { IsSound state.old }
    requires not_held { first_where (is_held link connect_id) state.old.held ≡ None }
    ensures sound { IsSound state.new }
    ensures state { OnOk result (state.new ≡ (spec.awaited_reply state.old link connect_id (spec.of_link link (spec.dial_at random state.old.awaited))).state) }
    ensures outs { OnOk result (outs.new.items ≡ outs.old.items ++ (spec.awaited_reply state.old link connect_id (spec.of_link link (spec.dial_at random state.old.awaited))).outs) }
{
    match awaited_by(state, link, random) {
        Some(entry) => tunnel_opened(alloc, state, link, connect_id, entry, outs),
        None => ask_close(link, connect_id, outs),
    }
}

/// A reply without an error.
fn good_reply(
    alloc: Global,
    state: &mut State,
    link: u64,
    connect_id: i64,
    random: i64,
    outs: &mut Vec<ServerOut>,
) -> Result<(), NoMemory>
    requires { IsSound state.old }
    ensures sound { IsSound state.new }
    ensures state { OnOk result (state.new ≡ (spec.reply_by_entry state.old link connect_id random (first_where (is_held link connect_id) state.old.held)).state) }
    ensures outs { OnOk result (outs.new.items ≡ outs.old.items ++ (spec.reply_by_entry state.old link connect_id random (first_where (is_held link connect_id) state.old.held)).outs) }
{
    match state.held.find(link, connect_id) {
        Some(_) => second_reply_cuts(alloc, state, link, outs),
        None => awaited_reply(alloc, state, link, connect_id, random, outs),
    }
}

/// A reply with an error.
fn refused_reply(
    alloc: Global,
    state: &mut State,
    link: u64,
    error: Text,
    random: i64,
    outs: &mut Vec<ServerOut>,
) -> Result<(), NoMemory>
    requires { IsSound state.old }
    ensures sound { IsSound state.new }
    ensures state { OnOk result (state.new ≡ (spec.refused_reply state.old error (spec.of_link link (spec.dial_at random state.old.awaited))).state) }
    ensures outs { OnOk result (outs.new.items ≡ outs.old.items ++ (spec.refused_reply state.old error (spec.of_link link (spec.dial_at random state.old.awaited))).outs) }
{
    match awaited_by(state, link, random) {
        Some(entry) => dial_failed(alloc, state, error, entry, outs),
        None => Ok(()),
    }
}

/// An agent replies to a dial.
fn reply(
    alloc: Global,
    state: &mut State,
    link: u64,
    error: Text,
    connect_id: i64,
    random: i64,
    outs: &mut Vec<ServerOut>,
) -> Result<(), NoMemory>
    requires { IsSound state.old }
    ensures sound { IsSound state.new }
    ensures state { OnOk result (state.new ≡ (spec.reply state.old link error connect_id random).state) }
    ensures outs { OnOk result (outs.new.items ≡ outs.old.items ++ (spec.reply state.old link error connect_id random).outs) }
{
    if error.is_empty() {
        good_reply(alloc, state, link, connect_id, random, outs)
    } else {
        refused_reply(alloc, state, link, error, random, outs)
    }
}

/// An open tunnel's bytes go to its front.
fn open_down(
    alloc: Global,
    state: &State,
    bytes: Blob,
    entry: HeldEntry,
    outs: &mut Vec<ServerOut>,
) -> Result<(), NoMemory>
    requires { entry.dial < 2 ^ 63 }
    ensures { OnOk result (outs.new.items ≡ outs.old.items ++ (spec.open_down state.now bytes entry.state entry.front entry.dial).outs) }
{
    match entry.state {
        HeldState::Open => match entry.front {
            Some(front) => data_to_front(alloc, front, entry.dial, bytes, outs),
            None => Ok(()),
        },
        HeldState::Closing => Ok(()),
    }
}

/// An agent sends bytes of a connection.
fn data_down(
    alloc: Global,
    state: &State,
    link: u64,
    connect_id: i64,
    bytes: Blob,
    outs: &mut Vec<ServerOut>,
) -> Result<(), NoMemory>
    requires { IsSound state.now }
    ensures { OnOk result (outs.new.items ≡ outs.old.items ++ (spec.data_down state.now bytes (first_where (is_held link connect_id) state.now.held)).outs) }
{
    match state.held.find(link, connect_id) {
        Some(entry) => open_down(alloc, state, bytes, entry, outs),
        None => Ok(()),
    }
}

/// An agent ends a tunnel.
fn tunnel_ended(
    alloc: Global,
    state: &mut State,
    link: u64,
    connect_id: i64,
    error: Text,
    entry: HeldEntry,
    outs: &mut Vec<ServerOut>,
) -> Result<(), NoMemory>
    requires sound { IsSound state.old }
    requires low { entry.dial < 2 ^ 63 }
    ensures sound { IsSound state.new }
    ensures state { OnOk result (state.new ≡ (spec.tunnel_ended state.old link connect_id error (Some entry)).state) }
    ensures outs { OnOk result (outs.new.items ≡ outs.old.items ++ (spec.tunnel_ended state.old link connect_id error (Some entry)).outs) }
{
    state.held.remove(link, connect_id);
    let error = cut(alloc, error)?;
    tell_ended(entry.front, entry.dial, error, outs)
}

/// An agent ends a tunnel, or one that is not held.
fn end_came(
    alloc: Global,
    state: &mut State,
    link: u64,
    connect_id: i64,
    error: Text,
    outs: &mut Vec<ServerOut>,
) -> Result<(), NoMemory>
    requires { IsSound state.old }
    ensures sound { IsSound state.new }
    ensures state { OnOk result (state.new ≡ (spec.tunnel_ended state.old link connect_id error (first_where (is_held link connect_id) state.old.held)).state) }
    ensures outs { OnOk result (outs.new.items ≡ outs.old.items ++ (spec.tunnel_ended state.old link connect_id error (first_where (is_held link connect_id) state.old.held)).outs) }
{
    match state.held.find(link, connect_id) {
        Some(entry) => tunnel_ended(alloc, state, link, connect_id, error, entry, outs),
        None => Ok(()),
    }
}

/// A packet of a link that is up.
pub(crate) fn from_link(
    alloc: Global,
    state: &mut State,
    link: u64,
    packet: Packet,
    outs: &mut Vec<ServerOut>,
) -> Result<(), NoMemory>
    requires { IsSound state.old }
    ensures sound { IsSound state.new }
    ensures state { OnOk result (state.new ≡ (spec.from_link state.old link packet).state) }
    ensures outs { OnOk result (outs.new.items ≡ outs.old.items ++ (spec.from_link state.old link packet).outs) }
{
    match packet {
        Packet::DialRsp {
            error,
            connect_id,
            random,
        } => reply(alloc, state, link, error, connect_id, random, outs),
        Packet::Data {
            connect_id,
            error: _,
            bytes,
        } => data_down(alloc, state, link, connect_id, bytes, outs),
        Packet::CloseRsp { error, connect_id } => {
            end_came(alloc, state, link, connect_id, error, outs)
        }
        Packet::Drain => {
            state.links.drain(link);
            Ok(())
        }
        Packet::DialReq { .. } => Ok(()),
        Packet::CloseReq { .. } => Ok(()),
        Packet::DialCls { .. } => Ok(()),
        Packet::Other { .. } => Ok(()),
    }
}
