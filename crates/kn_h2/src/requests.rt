ghost use Rattle.std.specs.Prelude.{◌≡◌, ◌<◌, ◌^◌, OnOk};
ghost use Rattle.kn_h2_state.specs.Payloads.{reset_frame};
ghost use Rattle.kn_h2_state.specs.Effects.{reply, opens, accepted, request};

use crate::ends::ended_if;
use crate::head_tests::is_malformed_request;
use crate::openings::new_stream;
use kn_h2_state::{H2Event, STREAM_LIMIT, State, errors, reply_reset};
use kn_hpack::Headers;
use kn_io::NoMemory;
use std::alloc::Global;

/// A request on a new stream (RFC 9113, sections 5.1.2 and 8.1.1).
#[tactic(auto, unfolding(kn_h2_state::specs::Effects::request))]
pub fn request(
    state: &mut State,
    alloc: Global,
    number: u32,
    ends: bool,
    fields: Headers,
) -> Result<(), NoMemory>
    requires number { number < 2 ^ 31 }
    requires initial { state.old.initial < 2 ^ 31 }
    ensures { OnOk result (state.new ≡ request number ends fields state.old) }
{
    if state.streams.open_count() >= STREAM_LIMIT {
        return refuse(state, number, errors::REFUSED_STREAM);
    }
    if is_malformed_request(&fields) {
        return refuse(state, number, errors::PROTOCOL_ERROR);
    }
    accept(state, alloc, number, ends, fields)
}

/// The stream was opened, and is reset at once.
fn refuse(state: &mut State, number: u32, code: u32) -> Result<(), NoMemory>
    requires { number < 2 ^ 31 }
    ensures { OnOk result (state.new ≡ reply (reset_frame number code) (opens number state.old)) }
{
    state.opened = number;
    reply_reset(state, number, code)
}

/// The request begins a stream.
#[tactic(auto, unfolding(kn_h2_state::specs::Effects::accepted))]
fn accept(
    state: &mut State,
    alloc: Global,
    number: u32,
    ends: bool,
    fields: Headers,
) -> Result<(), NoMemory>
    requires { state.old.initial < 2 ^ 31 }
    ensures { OnOk result (state.new ≡ accepted number ends fields state.old) }
{
    let stream = new_stream(alloc, number, state);
    state.opened = number;
    state.streams.push(stream)?;
    state.events.push(H2Event::Opened {
        stream: number,
        headers: fields,
    })?;
    ended_if(state, ends, number)
}
