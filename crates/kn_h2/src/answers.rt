//! Heads of responses.

ghost use Rattle.std.specs.Prelude.{◌≡◌, ◌≢◌, ◌<◌, ◌^◌, true, false, None, Some, IfErr, OnOk};
ghost use Rattle.kn_h2_state.specs.declared.refusal.QueueRefusal.TheVariants as queues;
ghost use Rattle.kn_h2_state.specs.declared.stream.Stream.{Stream};
ghost use Rattle.kn_h2_state.specs.Streams.{change};
ghost use Rattle.kn_h2_state.specs.Calls.{takes_more, refusal, after_answer};
ghost use Rattle.kn_h2_state.specs.Holding.{Holds};

use crate::head_frames::headers_frames;
use crate::stream_calls::refusal;
use kn_h2_state::{QueueRefusal, State, Streams, reply};
use kn_hpack::Headers;
use kn_io::NoMemory;
use std::alloc::Global;

#[tactic(auto, using(crate::proofs::StreamLemmas::change_none))]
fn mark_answered(streams: &mut Streams, number: u32)
    ensures { streams.new ≡ change streams.old number (λ (st : Stream). record st { answered = true }) }
{
    if let Some(stream) = streams.get_mut(number) {
        stream.answered = true;
    }
}

/// Writes the head as a reply frame, unless too many wait: then the connection fails.
#[tactic(auto, unfolding(kn_h2_state::specs::Calls::after_answer))]
fn write_answer(
    state: &mut State,
    alloc: Global,
    number: u32,
    headers: &Headers,
) -> Result<(), NoMemory>
    requires { number < 2 ^ 31 }
    ensures { OnOk result (state.new ≡ after_answer number headers.now state.old) }
{
    let block = state.encoder.block(alloc, headers)?;
    let frames = headers_frames(alloc, number, 0, block.as_slice())?;
    mark_answered(&mut state.streams, number);
    reply(state, frames.as_slice())
}

/// Answers a request with the head of its response. An `Err` changes nothing, but for want of memory.
pub fn answer(
    state: &mut State,
    alloc: Global,
    number: u32,
    headers: &Headers,
) -> Result<(), QueueRefusal>
    requires { Holds state.old }
    ensures ok { OnOk result ((refusal takes_more state.old number ≡ None) × (state.new ≡ after_answer number headers.now state.old)) }
    ensures err { IfErr result (λ e. e ≢ queues.NoMemory → (refusal takes_more state.old number ≡ Some e) × (state.new ≡ state.old)) }
    ensures holds { OnOk result (Holds state.new) }
{
    match refusal(state, number) {
        Some(refusal) => Err(refusal),
        None => match write_answer(state, alloc, number, headers) {
            Ok(()) => Ok(()),
            Err(NoMemory) => Err(QueueRefusal::NoMemory),
        },
    }
}
