//! What changes on one connection, and what it tells.

ghost use Rattle.std.specs.Prelude.{◌≡◌, ◌≤◌, length, false, Some, OnOk, IfOk};
ghost use Rattle.kn_h2_state.specs.declared.moves.Move.{Move};
ghost use Rattle.kn_connect.specs.Replies.{IsReplyStatus};
ghost use Rattle.kn_grpc.specs.Packets.{framed};
ghost use Rattle.kn_ends.specs.Carriers.{queue_bytes, deafened, on_inlet, after_read, taken_from, finish_stream, reset_stream, with_end, with_reset, fed_with, without_events};
ghost use Rattle.kn_server_node.specs.declared.end.End.TheVariants.{Streams};
ghost use Rattle.kn_server_node.specs.Doors as door_spec;
ghost use Rattle.kn_server_node.specs.Missing as missing_bytes;
ghost use Rattle.kn_server_node.specs.Ends as spec;

use crate::door::Door;
use crate::doors;
use crate::end::End;
use crate::kind::ServerKind;
use kn_connect::{ConnectAnswer, ConnectError};
use kn_ends::{Carrier, Inlets, Who};
use kn_grpc::{frame, trailers};
use kn_h2::{Conn, Role};
use kn_h2_state::Events;
use kn_hpack::Headers;
use kn_io::{Blob, NoMemory};
use kn_packet::{Packet, encoded_len, is_encodable};
use std::alloc::Global;

/// The longest message.
const MESSAGE_LIMIT: usize = 4_194_304;

fn fresh_carrier(alloc: Global) -> Result<Carrier, NoMemory>
    ensures { IfOk result (λ c. c ≡ spec.fresh_carrier) }
{
    let conn = Conn::new(alloc, Role::Server)?;
    Ok(Carrier {
        conn,
        lost: false,
        inlets: Inlets::new(alloc),
    })
}

fn fresh_streams(alloc: Global, for_agents: bool) -> Result<End, NoMemory>
    ensures { IfOk result (λ e. e ≡ Streams for_agents spec.fresh_carrier) }
{
    let carrier = fresh_carrier(alloc)?;
    Ok(End::Streams {
        for_agents,
        carrier,
    })
}

/// A connection before its first byte.
pub fn fresh(alloc: Global, kind: ServerKind) -> Result<End, NoMemory>
    ensures { IfOk result (λ e. e ≡ spec.fresh_end kind) }
{
    match kind {
        ServerKind::Agents => fresh_streams(alloc, true),
        ServerKind::Clients => fresh_streams(alloc, false),
        ServerKind::Connect => Ok(End::Connect {
            door: doors::fresh(alloc),
        }),
    }
}

// ---- packets

/// A packet waits to be sent on a stream.
fn queue(carrier: &mut Carrier, alloc: Global, stream: u32, packet: &Packet) -> Result<(), NoMemory>
    ensures { OnOk result (carrier.new ≡ queue_bytes stream (framed packet.now) carrier.old) }
{
    if !is_encodable(packet) {
        return Err(NoMemory);
    }
    if encoded_len(packet) > MESSAGE_LIMIT {
        return Err(NoMemory);
    }
    let bytes = frame(alloc, packet)?;
    kn_ends::queue(carrier, stream, bytes.as_slice())
}

/// A packet waits to be sent on a stream, or comes to a door.
pub fn give(end: &mut End, alloc: Global, stream: u32, packet: &Packet) -> Result<(), NoMemory>
    ensures { OnOk result (end.new ≡ spec.given stream packet.now end.old) }
{
    match end {
        End::Streams { carrier, .. } => queue(carrier, alloc, stream, packet),
        End::Connect { door } => doors::give(door, alloc, packet),
    }
}

fn close_stream(
    carrier: &mut Carrier,
    alloc: Global,
    stream: u32,
    status: u32,
) -> Result<(), NoMemory>
    ensures { OnOk result (carrier.new ≡ finish_stream stream (spec.trailers status) (deafened stream carrier.old)) }
{
    let fields = trailers(alloc, status)?;
    kn_ends::end_stream(carrier, stream, fields)
}

/// Nothing more of a stream is handled, and this end's half ends with the status. A door is closed.
pub fn close(end: &mut End, alloc: Global, stream: u32, status: u32) -> Result<(), NoMemory>
    ensures { OnOk result (end.new ≡ spec.closed status stream end.old) }
{
    match end {
        End::Streams { carrier, .. } => close_stream(carrier, alloc, stream, status),
        End::Connect { door } => {
            doors::end(door, alloc);
            Ok(())
        }
    }
}

// ---- streams

/// Text of a stream is read.
pub fn read(end: &mut End, stream: u32) -> Result<(), NoMemory>
    ensures { OnOk result (end.new ≡ spec.on_carrier (after_read stream) end.old) }
{
    match end {
        End::Streams { carrier, .. } => kn_ends::read(carrier, stream),
        End::Connect { .. } => Ok(()),
    }
}

/// The message that is whole is taken from a stream, and the text behind it read.
pub fn take(end: &mut End, alloc: Global, stream: u32) -> Result<(), NoMemory>
    ensures { OnOk result (end.new ≡ spec.on_carrier (taken_from stream) end.old) }
{
    match end {
        End::Streams { carrier, .. } => kn_ends::take(carrier, alloc, stream),
        End::Connect { .. } => Ok(()),
    }
}

/// The peer's half of a stream ended.
pub fn note_end(end: &mut End, stream: u32)
    ensures { end.new ≡ spec.on_carrier (on_inlet stream with_end) end.old }
{
    match end {
        End::Streams { carrier, .. } => kn_ends::note_end(carrier, stream),
        End::Connect { .. } => {}
    }
}

/// The peer reset a stream: what was under way is dropped.
pub fn note_reset(end: &mut End, alloc: Global, stream: u32)
    ensures { end.new ≡ spec.on_carrier (on_inlet stream with_reset) end.old }
{
    match end {
        End::Streams { carrier, .. } => kn_ends::note_reset(carrier, alloc, stream),
        End::Connect { .. } => {}
    }
}

fn accept_on(
    carrier: &mut Carrier,
    alloc: Global,
    stream: u32,
    who: Who,
    headers: &Headers,
) -> Result<(), NoMemory>
    ensures { OnOk result (carrier.new ≡ spec.accepted stream who headers.now carrier.old) }
{
    kn_ends::add_inlet(carrier, alloc, stream, who)?;
    kn_ends::answer(carrier, alloc, stream, headers)
}

/// A stream has somebody from now on, and is answered.
pub fn accept(
    end: &mut End,
    alloc: Global,
    stream: u32,
    who: Who,
    headers: &Headers,
) -> Result<(), NoMemory>
    ensures { OnOk result (end.new ≡ spec.on_carrier (spec.accepted stream who headers.now) end.old) }
{
    match end {
        End::Streams { carrier, .. } => accept_on(carrier, alloc, stream, who, headers),
        End::Connect { .. } => Ok(()),
    }
}

/// A call is refused: its stream ends with these fields.
pub fn refuse(end: &mut End, stream: u32, headers: Headers)
    ensures { end.new ≡ spec.on_carrier (finish_stream stream headers) end.old }
{
    match end {
        End::Streams { carrier, .. } => kn_ends::finish(carrier, stream, headers),
        End::Connect { .. } => {}
    }
}

/// This end gives up a stream.
pub fn reset(end: &mut End, alloc: Global, stream: u32, code: u32) -> Result<(), NoMemory>
    ensures { OnOk result (end.new ≡ spec.on_carrier (reset_stream stream code) end.old) }
{
    match end {
        End::Streams { carrier, .. } => kn_ends::reset(carrier, alloc, stream, code),
        End::Connect { .. } => Ok(()),
    }
}

// ---- bytes

/// The next bytes of the peer.
pub fn feed(end: &mut End, alloc: Global, piece: &[u8]) -> Result<(), NoMemory>
    ensures { OnOk result (end.new ≡ spec.on_carrier (fed_with piece.now) end.old) }
{
    match end {
        End::Streams { carrier, .. } => kn_ends::feed(carrier, alloc, piece),
        End::Connect { .. } => Ok(()),
    }
}

/// What the connection told is taken out.
pub fn take_events(end: &mut End, alloc: Global) -> Events
    ensures told { result ≡ spec.events_in (Some end.old) }
    ensures left { end.new ≡ spec.on_carrier without_events end.old }
{
    match end {
        End::Streams { carrier, .. } => carrier.conn.take_events(alloc),
        End::Connect { .. } => Events::new(alloc),
    }
}

/// So many bytes went to the socket.
pub fn took(end: &mut End, count: usize)
    requires { count ≤ length (spec.out (Some end.old)) }
    ensures { end.new ≡ spec.took count end.old }
{
    match end {
        End::Streams { carrier, .. } => kn_ends::took(carrier, count),
        End::Connect { door } => doors::took(door, count),
    }
}

/// The connection was lost.
pub fn lose(end: &mut End, alloc: Global)
    ensures { end.new ≡ spec.lost end.old }
{
    match end {
        End::Streams { carrier, .. } => kn_ends::lose(carrier),
        End::Connect { door } => doors::lose(door, alloc),
    }
}

/// What is due is written, while there is room.
pub fn write(end: &mut End, alloc: Global) -> Result<(), NoMemory>
    ensures made { OnOk result (spec.FilledOne end.old end.new) }
    ensures filled { OnOk result ((m : Move) → spec.may_write (Some end.new) m ≡ false) }
{
    match end {
        End::Streams { carrier, .. } => kn_ends::write(carrier, alloc),
        End::Connect { .. } => Ok(()),
    }
}

// ---- what a connection tells

/// How many bytes wait on a stream.
pub fn queued(end: &End, stream: u32) -> usize
    ensures { result ≡ spec.queued_in (Some end.now) stream }
{
    match end {
        End::Streams { carrier, .. } => kn_ends::queued(carrier, stream),
        End::Connect { door } => door.out.len(),
    }
}

pub fn is_door(end: &End) -> bool
    ensures { result ≡ spec.is_door (Some end.now) }
{
    match end {
        End::Streams { .. } => false,
        End::Connect { .. } => true,
    }
}

/// What stands at this stream counts against a limit.
pub fn counts(end: &End, stream: u32) -> bool
    ensures { result ≡ spec.counts_on stream (Some end.now) }
{
    match end {
        End::Streams { carrier, .. } => kn_ends::counts(carrier, stream),
        End::Connect { door } => !doors::is_over(door),
    }
}

/// Nothing comes of it any more.
pub fn is_over(end: &End) -> bool
    ensures { result ≡ spec.is_over (Some end.now) }
{
    match end {
        End::Streams { carrier, .. } => kn_ends::is_gone(carrier),
        End::Connect { door } => doors::is_over(door),
    }
}

/// It is to be closed once nothing waits for its socket.
pub fn shuts(end: &End) -> bool
    ensures { result ≡ spec.shuts (Some end.now) }
{
    match end {
        End::Streams { carrier, .. } => !kn_ends::is_live(carrier),
        End::Connect { door } => door.lost || door.shuts,
    }
}

/// What waits for its socket.
pub fn out(end: &End) -> &[u8]
    ensures { result.now ≡ spec.out (Some end.now) }
{
    match end {
        End::Streams { carrier, .. } => kn_ends::out(carrier),
        End::Connect { door } => door.out.as_slice(),
    }
}

/// Nothing is under way on it.
pub fn is_bare(end: &End) -> bool
    ensures { result ≡ spec.is_bare (Some end.now) }
{
    match end {
        End::Streams { carrier, .. } => kn_ends::is_bare(carrier),
        End::Connect { door } => door.early.is_empty(),
    }
}

/// How many bytes of it are missing to the end of what is under way on it.
pub fn missing(end: &End) -> usize
    ensures value { result ≡ missing_bytes.missing (Some end.now) }
    ensures some { 1 ≤ result }
{
    match end {
        End::Streams { carrier, .. } => kn_ends::missing(carrier),
        End::Connect { .. } => 1,
    }
}

// ---- doors

/// Its head was whole: it is a front, and what follows the head is early.
pub fn begin_door(end: &mut End, front: u64, early: Blob)
    ensures { end.new ≡ spec.on_door (door_spec.begun front early) end.old }
{
    match end {
        End::Streams { .. } => {}
        End::Connect { door } => doors::begin(door, front, early),
    }
}

/// A door's head is refused.
pub fn refuse_door(end: &mut End, alloc: Global, status: u32) -> Result<(), NoMemory>
    requires { IsReplyStatus status }
    ensures { OnOk result (end.new ≡ spec.on_door (door_spec.refused status) end.old) }
{
    match end {
        End::Streams { .. } => Ok(()),
        End::Connect { door } => doors::refuse(door, alloc, status),
    }
}

/// Bytes come early at a door.
pub fn keep_early(end: &mut End, piece: &[u8]) -> Result<(), NoMemory>
    ensures { OnOk result (end.new ≡ spec.on_door (door_spec.with_early piece.now) end.old) }
{
    match end {
        End::Streams { .. } => Ok(()),
        End::Connect { door } => door.early.append(piece),
    }
}

/// The early bytes of a door are gone.
pub fn drop_early(end: &mut End, alloc: Global)
    ensures { end.new ≡ spec.on_door door_spec.without_early end.old }
{
    match end {
        End::Streams { .. } => {}
        End::Connect { door } => door.early = Blob::new(alloc),
    }
}

fn feed_head_on(door: &mut Door, alloc: Global, piece: &[u8]) -> Result<ConnectAnswer, ConnectError>
    ensures { spec.HearsOnHead door.old piece.now result door.new }
{
    door.head.feed(alloc, piece)
}

/// The next bytes of the head of a door.
pub fn feed_head(end: &mut End, alloc: Global, piece: &[u8]) -> Result<ConnectAnswer, ConnectError>
    ensures { spec.HearsOne end.old piece.now result end.new }
{
    match end {
        End::Streams { .. } => Ok(ConnectAnswer::More),
        End::Connect { door } => feed_head_on(door, alloc, piece),
    }
}
