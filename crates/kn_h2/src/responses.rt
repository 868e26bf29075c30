ghost use Rattle.std.specs.Prelude.{◌≡◌, ◌<◌, ◌^◌, true, false, OnOk, Some};
ghost use Rattle.kn_h2_state.specs.declared.stream.Stream.{Stream};
ghost use Rattle.kn_h2_state.specs.Streams.{change, stream_at};
ghost use Rattle.kn_h2_state.specs.Effects.{headed, refused_response, response, if_open};
ghost use Rattle.kn_h2.specs.Blocks.{answered_of, first_head, responded};

use crate::ends::{ended_if, peer_ends};
use crate::head_tests::is_malformed_response;
use crate::resets::shut_at;
use crate::status::has_interim_status;
use kn_h2_state::{H2Event, State, Stream, Streams, errors, is_open, reply_reset};
use kn_hpack::Headers;
use kn_io::NoMemory;

/// Whether the head of an open stream came.
fn answered_at(streams: &Streams, number: u32) -> Option<bool>
    ensures { result ≡ answered_of (stream_at streams.now number) }
{
    match streams.get(number) {
        Some(stream) => answered_in(stream),
        None => None,
    }
}

fn answered_in(stream: &Stream) -> Option<bool>
    ensures { result ≡ answered_of (Some stream.now) }
{
    if is_open(stream) {
        Some(stream.answered)
    } else {
        None
    }
}

/// The head of a stream came.
#[tactic(auto, using(crate::proofs::StreamLemmas::change_none))]
fn mark_answered(streams: &mut Streams, number: u32)
    ensures { streams.new ≡ change streams.old number (λ (st : Stream). record st { answered = true }) }
{
    if let Some(stream) = streams.get_mut(number) {
        stream.answered = true;
    }
}

/// The head of a response.
#[tactic(auto, unfolding(kn_h2_state::specs::Effects::headed))]
fn headed(state: &mut State, number: u32, ends: bool, fields: Headers) -> Result<(), NoMemory>
    ensures { OnOk result (state.new ≡ headed number ends fields state.old) }
{
    mark_answered(&mut state.streams, number);
    state.streams.tidy();
    state.events.push(H2Event::Head {
        stream: number,
        headers: fields,
    })?;
    ended_if(state, ends, number)
}

/// A malformed response: the stream is reset.
#[tactic(auto, unfolding(kn_h2_state::specs::Effects::refused_response))]
fn refuse_response(state: &mut State, number: u32) -> Result<(), NoMemory>
    requires { number < 2 ^ 31 }
    ensures { OnOk result (state.new ≡ refused_response number state.old) }
{
    shut_at(&mut state.streams, number);
    state.streams.tidy();
    state.events.push(H2Event::Reset {
        stream: number,
        code: errors::PROTOCOL_ERROR,
    })?;
    reply_reset(state, number, errors::PROTOCOL_ERROR)
}

/// The first head on a stream: an interim response, a malformed one, or the head.
#[tactic(auto, unfolding(kn_h2_state::specs::Heads::is_informational))]
fn first_head(state: &mut State, number: u32, ends: bool, fields: Headers) -> Result<(), NoMemory>
    requires { number < 2 ^ 31 }
    ensures { OnOk result (state.new ≡ first_head number ends fields state.old) }
{
    let malformed = is_malformed_response(&fields);
    let informational = has_interim_status(&fields) && !malformed;
    if informational && !ends {
        return Ok(());
    }
    if malformed || informational {
        return refuse_response(state, number);
    }
    headed(state, number, ends, fields)
}

/// A head on an open stream.
fn responded(
    state: &mut State,
    number: u32,
    ends: bool,
    fields: Headers,
    answered: bool,
) -> Result<(), NoMemory>
    requires { number < 2 ^ 31 }
    ensures { OnOk result (state.new ≡ responded answered number ends fields state.old) }
{
    if answered {
        peer_ends(state, number)
    } else {
        first_head(state, number, ends, fields)
    }
}

/// A header block at a client: on a stream that is not open it does nothing.
#[tactic(auto, using(crate::proofs::BlockLemmas::response_open, crate::proofs::BlockLemmas::response_none))]
pub fn response_at(
    state: &mut State,
    number: u32,
    ends: bool,
    fields: Headers,
) -> Result<(), NoMemory>
    requires { number < 2 ^ 31 }
    ensures { OnOk result (state.new ≡ if_open (stream_at state.old.streams number) state.old (λ st. response number ends fields st state.old)) }
{
    match answered_at(&state.streams, number) {
        Some(answered) => responded(state, number, ends, fields, answered),
        None => Ok(()),
    }
}
