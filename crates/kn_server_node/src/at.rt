//! What changes on the connection of a number.

ghost use Rattle.std.specs.Prelude.{◌≡◌, ◌≤◌, length, false, OnOk, IfOk};
ghost use Rattle.kn_connect.specs.Replies.{IsReplyStatus};
ghost use Rattle.kn_h2_state.specs.declared.moves.Move.{Move};
ghost use Rattle.kn_ends.specs.Carriers.{on_inlet, after_read, taken_from, finish_stream, reset_stream, with_end, with_reset, fed_with, without_events};
ghost use Rattle.kn_rising.specs.Members.{at, change};
ghost use Rattle.kn_server_node.specs.Doors as door;
ghost use Rattle.kn_server_node.specs.Ends as spec;

use crate::end::End;
use crate::one;
use kn_connect::{ConnectAnswer, ConnectError};
use kn_ends::Who;
use kn_h2_state::Events;
use kn_hpack::Headers;
use kn_io::{Blob, NoMemory};
use kn_packet::Packet;
use kn_rising::Rising;
use std::alloc::Global;

pub fn give_at(
    ends: &mut Rising<End>,
    alloc: Global,
    conn: u64,
    stream: u32,
    packet: &Packet,
) -> Result<(), NoMemory>
    ensures { OnOk result (ends.new ≡ change ends.old conn (spec.given stream packet.now)) }
{
    match ends.get_mut(conn) {
        Some(end) => one::give(end, alloc, stream, packet),
        None => Ok(()),
    }
}

pub fn close_at(
    ends: &mut Rising<End>,
    alloc: Global,
    conn: u64,
    stream: u32,
    status: u32,
) -> Result<(), NoMemory>
    ensures { OnOk result (ends.new ≡ change ends.old conn (spec.closed status stream)) }
{
    match ends.get_mut(conn) {
        Some(end) => one::close(end, alloc, stream, status),
        None => Ok(()),
    }
}

pub fn read_at(
    ends: &mut Rising<End>,
    _alloc: Global,
    conn: u64,
    stream: u32,
) -> Result<(), NoMemory>
    ensures { OnOk result (ends.new ≡ change ends.old conn (spec.on_carrier (after_read stream))) }
{
    match ends.get_mut(conn) {
        Some(end) => one::read(end, stream),
        None => Ok(()),
    }
}

pub fn take_at(
    ends: &mut Rising<End>,
    alloc: Global,
    conn: u64,
    stream: u32,
) -> Result<(), NoMemory>
    ensures { OnOk result (ends.new ≡ change ends.old conn (spec.on_carrier (taken_from stream))) }
{
    match ends.get_mut(conn) {
        Some(end) => one::take(end, alloc, stream),
        None => Ok(()),
    }
}

pub fn note_end_at(ends: &mut Rising<End>, _alloc: Global, conn: u64, stream: u32)
    ensures { ends.new ≡ change ends.old conn (spec.on_carrier (on_inlet stream with_end)) }
{
    if let Some(end) = ends.get_mut(conn) {
        one::note_end(end, stream);
    }
}

pub fn note_reset_at(ends: &mut Rising<End>, alloc: Global, conn: u64, stream: u32)
    ensures { ends.new ≡ change ends.old conn (spec.on_carrier (on_inlet stream with_reset)) }
{
    if let Some(end) = ends.get_mut(conn) {
        one::note_reset(end, alloc, stream);
    }
}

pub fn accept_at(
    ends: &mut Rising<End>,
    alloc: Global,
    conn: u64,
    stream: u32,
    who: Who,
    headers: &Headers,
) -> Result<(), NoMemory>
    ensures { OnOk result (ends.new ≡ change ends.old conn (spec.on_carrier (spec.accepted stream who headers.now))) }
{
    match ends.get_mut(conn) {
        Some(end) => one::accept(end, alloc, stream, who, headers),
        None => Ok(()),
    }
}

pub fn refuse_at(ends: &mut Rising<End>, _alloc: Global, conn: u64, stream: u32, headers: Headers)
    ensures { ends.new ≡ change ends.old conn (spec.on_carrier (finish_stream stream headers)) }
{
    if let Some(end) = ends.get_mut(conn) {
        one::refuse(end, stream, headers);
    }
}

pub fn reset_at(
    ends: &mut Rising<End>,
    alloc: Global,
    conn: u64,
    stream: u32,
    code: u32,
) -> Result<(), NoMemory>
    ensures { OnOk result (ends.new ≡ change ends.old conn (spec.on_carrier (reset_stream stream code))) }
{
    match ends.get_mut(conn) {
        Some(end) => one::reset(end, alloc, stream, code),
        None => Ok(()),
    }
}

pub fn feed_at(
    ends: &mut Rising<End>,
    alloc: Global,
    conn: u64,
    piece: &[u8],
) -> Result<(), NoMemory>
    ensures { OnOk result (ends.new ≡ change ends.old conn (spec.on_carrier (fed_with piece.now))) }
{
    match ends.get_mut(conn) {
        Some(end) => one::feed(end, alloc, piece),
        None => Ok(()),
    }
}

pub fn lose_at(ends: &mut Rising<End>, alloc: Global, conn: u64)
    ensures { ends.new ≡ change ends.old conn (spec.lost) }
{
    if let Some(end) = ends.get_mut(conn) {
        one::lose(end, alloc);
    }
}

pub fn begin_door_at(ends: &mut Rising<End>, _alloc: Global, conn: u64, front: u64, early: Blob)
    ensures { ends.new ≡ change ends.old conn (spec.on_door (door.begun front early)) }
{
    if let Some(end) = ends.get_mut(conn) {
        one::begin_door(end, front, early);
    }
}

pub fn refuse_door_at(
    ends: &mut Rising<End>,
    alloc: Global,
    conn: u64,
    status: u32,
) -> Result<(), NoMemory>
    requires { IsReplyStatus status }
    ensures { OnOk result (ends.new ≡ change ends.old conn (spec.on_door (door.refused status))) }
{
    match ends.get_mut(conn) {
        Some(end) => one::refuse_door(end, alloc, status),
        None => Ok(()),
    }
}

pub fn keep_early_at(
    ends: &mut Rising<End>,
    _alloc: Global,
    conn: u64,
    piece: &[u8],
) -> Result<(), NoMemory>
    ensures { OnOk result (ends.new ≡ change ends.old conn (spec.on_door (door.with_early piece.now))) }
{
    match ends.get_mut(conn) {
        Some(end) => one::keep_early(end, piece),
        None => Ok(()),
    }
}

pub fn drop_early_at(ends: &mut Rising<End>, alloc: Global, conn: u64)
    ensures { ends.new ≡ change ends.old conn (spec.on_door door.without_early) }
{
    if let Some(end) = ends.get_mut(conn) {
        one::drop_early(end, alloc);
    }
}

pub fn took_at(ends: &mut Rising<End>, conn: u64, count: usize)
    requires { count ≤ length (spec.out (at ends.old conn)) }
    ensures { ends.new ≡ change ends.old conn (spec.took count) }
{
    if let Some(end) = ends.get_mut(conn) {
        one::took(end, count);
    }
}

pub fn take_events_at(ends: &mut Rising<End>, alloc: Global, conn: u64) -> Events
    ensures told { result ≡ spec.events_in (at ends.old conn) }
    ensures left { ends.new ≡ change ends.old conn (spec.on_carrier without_events) }
{
    match ends.get_mut(conn) {
        Some(end) => one::take_events(end, alloc),
        None => Events::new(alloc),
    }
}

pub fn write_at(ends: &mut Rising<End>, alloc: Global, conn: u64) -> Result<(), NoMemory>
    ensures made { OnOk result (spec.FillsAt conn ends.old ends.new) }
    ensures filled { OnOk result ((m : Move) → spec.may_write (at ends.new conn) m ≡ false) }
{
    match ends.get_mut(conn) {
        Some(end) => one::write(end, alloc),
        None => Ok(()),
    }
}

pub fn feed_head_at(
    ends: &mut Rising<End>,
    alloc: Global,
    conn: u64,
    piece: &[u8],
) -> Result<ConnectAnswer, ConnectError>
    ensures { spec.HearsHead conn piece.now (at ends.old conn) ends.old result ends.new }
{
    match ends.get_mut(conn) {
        Some(end) => one::feed_head(end, alloc, piece),
        None => Ok(ConnectAnswer::More),
    }
}
