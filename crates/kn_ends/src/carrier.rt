ghost use Rattle.std.specs.Prelude.{◌≡◌, true, false, OnOk, IsTrue};
ghost use Rattle.kn_h2_state.specs.declared.moves.Move.{Move};
ghost use Rattle.kn_h2_state.specs.Rules.{is_client};
ghost use Rattle.kn_ends.specs.Carriers.{after_read, queued, queue_bytes, finished, finish_stream, can_write, Fills, taken_from, deafened, on_inlet, with_end, with_reset, fed_with, answered, awaits_answer};

use crate::inlets::Inlets;
use kn_h2::{Conn, QueueRefusal, Role};
use kn_hpack::Headers;
use kn_io::NoMemory;
use std::alloc::Global;

/// One HTTP/2 connection whose streams carry packets.
#[derive(Drop)]
pub struct Carrier {
    pub conn: Conn,
    pub lost: bool,
    pub inlets: Inlets,
}

/// Text of a stream is read.
#[tactic(auto, unfolding(crate::specs::Carriers::after_read))]
pub fn read(carrier: &mut Carrier, stream: u32) -> Result<(), NoMemory>
    ensures { OnOk result (carrier.new ≡ after_read stream carrier.old) }
{
    let text = carrier.conn.text(stream);
    let count = carrier.inlets.read(stream, text)?;
    carrier.conn.take(stream, count);
    Ok(())
}

#[tactic(auto, using(crate::proofs::QueueLemmas::keeps, crate::proofs::QueueLemmas::drops), unfolding(crate::specs::Carriers::queued, kn_h2_state::specs::Calls::queue_refusal))]
fn queue_on(conn: &mut Conn, stream: u32, bytes: &[u8]) -> Result<(), NoMemory>
    ensures state { OnOk result (conn.new.state ≡ queued stream bytes.now conn.old.state) }
    ensures cutter { OnOk result (conn.new.cutter ≡ conn.old.cutter) }
{
    if conn.awaits_answer(stream) {
        return Ok(());
    }
    match conn.queue(stream, bytes) {
        Ok(()) => Ok(()),
        Err(QueueRefusal::NoMemory) => Err(NoMemory),
        Err(QueueRefusal::Gone { .. }) => Ok(()),
        Err(QueueRefusal::NoStream) => Ok(()),
        Err(QueueRefusal::Full { .. }) => Ok(()),
    }
}

/// Bytes wait to be sent on a stream, where it still takes any.
pub fn queue(carrier: &mut Carrier, stream: u32, bytes: &[u8]) -> Result<(), NoMemory>
    ensures { OnOk result (carrier.new ≡ queue_bytes stream bytes.now carrier.old) }
{
    if carrier.lost {
        return Ok(());
    }
    queue_on(&mut carrier.conn, stream, bytes)
}

#[tactic(auto, unfolding(crate::specs::Carriers::finished))]
fn finish_on(conn: &mut Conn, stream: u32, trailers: Headers)
    ensures state { conn.new.state ≡ finished stream trailers conn.old.state }
    ensures cutter { conn.new.cutter ≡ conn.old.cutter }
{
    match conn.role() {
        Role::Client => {}
        Role::Server => finish_server(conn, stream, trailers),
    }
}

#[tactic(auto, unfolding(crate::specs::Carriers::finished))]
fn finish_server(conn: &mut Conn, stream: u32, trailers: Headers)
    requires { is_client conn.old.state.role ≡ false }
    ensures state { conn.new.state ≡ finished stream trailers conn.old.state }
    ensures cutter { conn.new.cutter ≡ conn.old.cutter }
{
    match conn.finish(stream, trailers) {
        Ok(()) => {}
        Err(QueueRefusal::NoMemory) => {}
        Err(QueueRefusal::Gone { .. }) => {}
        Err(QueueRefusal::NoStream) => {}
        Err(QueueRefusal::Full { .. }) => {}
    }
}

/// This end's half of a stream is to end, where it still takes that.
pub fn finish(carrier: &mut Carrier, stream: u32, trailers: Headers)
    ensures { carrier.new ≡ finish_stream stream trailers carrier.old }
{
    if !carrier.lost {
        finish_on(&mut carrier.conn, stream, trailers);
    }
}

/// What is due is written, while there is room.
#[tactic(auto, unfolding(crate::specs::Carriers::can_write))]
pub fn write(carrier: &mut Carrier, alloc: Global) -> Result<(), NoMemory>
    ensures made { OnOk result (Fills carrier.old carrier.new) }
    ensures lost { OnOk result (IsTrue carrier.old.lost → carrier.new ≡ carrier.old) }
    ensures filled { OnOk result ((m : Move) → can_write carrier.new m ≡ false) }
{
    if carrier.lost {
        return Ok(());
    }
    carrier.conn.fill(alloc)
}

/// The message that is whole is taken from a stream, and the text behind it read.
#[tactic(auto, unfolding(crate::specs::Carriers::taken_from))]
pub fn take(carrier: &mut Carrier, alloc: Global, stream: u32) -> Result<(), NoMemory>
    ensures { OnOk result (carrier.new ≡ taken_from stream carrier.old) }
{
    carrier.inlets.pop(alloc, stream);
    read(carrier, stream)
}

/// Nothing more of a stream is handled, and what came of it is dropped.
#[tactic(auto, unfolding(crate::specs::Carriers::deafened))]
pub fn deafen(carrier: &mut Carrier, stream: u32) -> Result<(), NoMemory>
    ensures { OnOk result (carrier.new ≡ deafened stream carrier.old) }
{
    carrier.inlets.remove(stream);
    read(carrier, stream)
}

/// Nothing more of a stream is handled, and this end's half ends.
pub fn end_stream(carrier: &mut Carrier, stream: u32, trailers: Headers) -> Result<(), NoMemory>
    ensures { OnOk result (carrier.new ≡ finish_stream stream trailers (deafened stream carrier.old)) }
{
    deafen(carrier, stream)?;
    finish(carrier, stream, trailers);
    Ok(())
}

/// The peer's half of a stream ended.
pub fn note_end(carrier: &mut Carrier, stream: u32)
    ensures { carrier.new ≡ on_inlet stream with_end carrier.old }
{
    carrier.inlets.note_end(stream);
}

/// The next bytes of the peer.
pub fn feed(carrier: &mut Carrier, alloc: Global, piece: &[u8]) -> Result<(), NoMemory>
    ensures { OnOk result (carrier.new ≡ fed_with piece.now carrier.old) }
{
    carrier.conn.feed(alloc, piece)
}

/// A request is answered that was not answered yet.
#[tactic(auto, unfolding(crate::specs::Carriers::answered))]
fn answer_first(
    conn: &mut Conn,
    alloc: Global,
    stream: u32,
    headers: &Headers,
) -> Result<(), NoMemory>
    requires first { awaits_answer conn.old.state stream ≡ true }
    ensures state { OnOk result (conn.new.state ≡ answered stream headers.now conn.old.state) }
    ensures cutter { OnOk result (conn.new.cutter ≡ conn.old.cutter) }
{
    match conn.answer(alloc, stream, headers) {
        Ok(()) => Ok(()),
        Err(QueueRefusal::NoMemory) => Err(NoMemory),
        Err(QueueRefusal::Gone { .. }) => Ok(()),
        Err(QueueRefusal::NoStream) => Ok(()),
        Err(QueueRefusal::Full { .. }) => Ok(()),
    }
}

/// A request is answered, where it still takes an answer.
#[tactic(auto, unfolding(crate::specs::Carriers::answered))]
pub fn answer_on(
    conn: &mut Conn,
    alloc: Global,
    stream: u32,
    headers: &Headers,
) -> Result<(), NoMemory>
    ensures state { OnOk result (conn.new.state ≡ answered stream headers.now conn.old.state) }
    ensures cutter { OnOk result (conn.new.cutter ≡ conn.old.cutter) }
{
    if conn.awaits_answer(stream) {
        answer_first(conn, alloc, stream, headers)
    } else {
        Ok(())
    }
}

/// The peer reset a stream: what was under way is dropped.
pub fn note_reset(carrier: &mut Carrier, alloc: Global, stream: u32)
    ensures { carrier.new ≡ on_inlet stream with_reset carrier.old }
{
    carrier.inlets.note_reset(alloc, stream);
}
