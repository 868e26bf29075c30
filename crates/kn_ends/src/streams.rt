//! Streams are answered, begun and given up.

ghost use Rattle.std.specs.Prelude.{◌≡◌, ◌&&◌, true, false, is_none, IfOk, OnOk, MatchOption};
ghost use Rattle.kn_h2_state.specs.Rules.{is_client};
ghost use Rattle.kn_h2_state.specs.Calls.{Changes, next_number, begin_refusal, after_begin};
ghost use Rattle.kn_ends.specs.Carriers.{answer_stream, reset_with, reset_stream, with_inlet, can_begin, with_call};

use crate::carrier::{Carrier, answer_on};
use crate::inlet::Inlet;
use crate::who::Who;
use kn_grpc::Messages;
use kn_h2::{BeginRefusal, Conn, QueueRefusal, Role};
use kn_hpack::Headers;
use kn_io::NoMemory;
use std::alloc::Global;

/// The head of an answer is written, where the stream still takes one.
pub fn answer(
    carrier: &mut Carrier,
    alloc: Global,
    stream: u32,
    headers: &Headers,
) -> Result<(), NoMemory>
    ensures { OnOk result (carrier.new ≡ answer_stream stream headers.now carrier.old) }
{
    if carrier.lost {
        Ok(())
    } else {
        answer_on(&mut carrier.conn, alloc, stream, headers)
    }
}

#[tactic(auto, unfolding(crate::specs::Carriers::reset_with))]
fn reset_on(conn: &mut Conn, alloc: Global, stream: u32, code: u32) -> Result<(), NoMemory>
    ensures { OnOk result (Changes conn.old conn.new (reset_with stream code)) }
{
    match conn.reset(alloc, stream, code) {
        Ok(()) => Ok(()),
        Err(QueueRefusal::NoMemory) => Err(NoMemory),
        Err(QueueRefusal::Gone { .. }) => Ok(()),
        Err(QueueRefusal::NoStream) => Ok(()),
        Err(QueueRefusal::Full { .. }) => Ok(()),
    }
}

/// A stream is given up, where this end's half of it is open.
pub fn reset(carrier: &mut Carrier, alloc: Global, stream: u32, code: u32) -> Result<(), NoMemory>
    ensures { OnOk result (carrier.new ≡ reset_stream stream code carrier.old) }
{
    if carrier.lost {
        Ok(())
    } else {
        reset_on(&mut carrier.conn, alloc, stream, code)
    }
}

/// Somebody has a stream from now on: what comes on it is kept.
pub fn add_inlet(
    carrier: &mut Carrier,
    alloc: Global,
    stream: u32,
    who: Who,
) -> Result<(), NoMemory>
    ensures { OnOk result (carrier.new ≡ with_inlet stream who carrier.old) }
{
    carrier.inlets.push(Inlet {
        stream,
        who,
        messages: Messages::new(alloc),
        ended: false,
    })
}

fn begin_client(conn: &mut Conn, alloc: Global, head: &Headers) -> Result<Option<u32>, NoMemory>
    requires { is_client conn.old.state.role ≡ true }
    ensures { IfOk result (λ begun. MatchOption begun
        ((is_none (begin_refusal conn.old.state) ≡ false) × (conn.new ≡ conn.old))
        (λ n. (is_none (begin_refusal conn.old.state) ≡ true) × (n ≡ next_number conn.old.state) × Changes conn.old conn.new (after_begin head.now))) }
{
    match conn.begin(alloc, head) {
        Ok(stream) => Ok(Some(stream)),
        Err(BeginRefusal::NoMemory) => Err(NoMemory),
        Err(BeginRefusal::Gone { .. }) => Ok(None),
        Err(BeginRefusal::Away) => Ok(None),
        Err(BeginRefusal::Many) => Ok(None),
        Err(BeginRefusal::Numbers) => Ok(None),
    }
}

fn begin_on(conn: &mut Conn, alloc: Global, head: &Headers) -> Result<Option<u32>, NoMemory>
    ensures { IfOk result (λ begun. MatchOption begun
        (((is_client conn.old.state.role && is_none (begin_refusal conn.old.state)) ≡ false) × (conn.new ≡ conn.old))
        (λ n. ((is_client conn.old.state.role && is_none (begin_refusal conn.old.state)) ≡ true) × (n ≡ next_number conn.old.state) × Changes conn.old conn.new (after_begin head.now))) }
{
    match conn.role() {
        Role::Server => Ok(None),
        Role::Client => begin_client(conn, alloc, head),
    }
}

fn begin_live(
    carrier: &mut Carrier,
    alloc: Global,
    head: &Headers,
    who: Who,
) -> Result<Option<u32>, NoMemory>
    requires { carrier.old.lost ≡ false }
    ensures { IfOk result (λ begun. MatchOption begun
        ((can_begin carrier.old ≡ false) × (carrier.new ≡ carrier.old))
        (λ n. (can_begin carrier.old ≡ true) × (n ≡ next_number carrier.old.conn.state) × (carrier.new ≡ with_call head.now who carrier.old))) }
{
    match begin_on(&mut carrier.conn, alloc, head)? {
        Some(stream) => {
            add_inlet(carrier, alloc, stream, who)?;
            Ok(Some(stream))
        }
        None => Ok(None),
    }
}

/// The next stream begins with a head, unless the connection takes none, and somebody has it.
pub fn begin(
    carrier: &mut Carrier,
    alloc: Global,
    head: &Headers,
    who: Who,
) -> Result<Option<u32>, NoMemory>
    ensures { IfOk result (λ begun. MatchOption begun
        ((can_begin carrier.old ≡ false) × (carrier.new ≡ carrier.old))
        (λ n. (can_begin carrier.old ≡ true) × (n ≡ next_number carrier.old.conn.state) × (carrier.new ≡ with_call head.now who carrier.old))) }
{
    if carrier.lost {
        Ok(None)
    } else {
        begin_live(carrier, alloc, head, who)
    }
}
