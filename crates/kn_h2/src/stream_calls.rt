ghost use Rattle.std.specs.Prelude.{◌≡◌, ◌≢◌, ◌<◌, ◌^◌, ◌++◌, min, length, OnOk, OnErr, IfErr, Some, None};
ghost use Rattle.kn_hpack.specs.Fields.{Field};
ghost use Rattle.kn_h2_state.specs.Streams.{stream_at, change, on_open};
ghost use Rattle.kn_h2_state.specs.Calls.{takes_more, refused_where, refusal, or_full, queue_of, queue_in, unsent, queue_refusal, with_queued, with_finish, after_queue, after_finish, after_reset};
ghost use Rattle.kn_h2_state.specs.Holding.{Holds};

use crate::resets::shut_at;
use kn_h2_state::{QUEUE_LIMIT, QueueRefusal, State, Stream, Streams, is_open, reply_reset};
use kn_hpack::Headers;
use kn_io::NoMemory;

/// This end's half of the stream is open, and its end was not asked for.
pub fn takes_more(stream: &Stream) -> bool
    ensures { result ≡ takes_more stream.now }
{
    stream.own_open && stream.finish.is_none()
}

pub fn takes_more_at(streams: &Streams, number: u32) -> bool
    ensures { result ≡ on_open streams.now number takes_more }
{
    match streams.get(number) {
        Some(stream) => is_open(stream) && takes_more(stream),
        None => false,
    }
}

/// This end's half of the stream is open.
fn is_own_open_at(streams: &Streams, number: u32) -> bool
    ensures { result ≡ on_open streams.now number (λ st. st.own_open) }
{
    match streams.get(number) {
        Some(stream) => is_open(stream) && stream.own_open,
        None => false,
    }
}

/// Why a call on a stream is refused, by whether the stream is as it needs it.
pub fn refused_where(failed: Option<u32>, fits: bool) -> Option<QueueRefusal>
    ensures { result ≡ refused_where failed fits }
{
    match failed {
        Some(code) => Some(QueueRefusal::Gone { code }),
        None => no_stream(fits),
    }
}

fn no_stream(fits: bool) -> Option<QueueRefusal>
    ensures { result ≡ refused_where None fits }
{
    if fits {
        None
    } else {
        Some(QueueRefusal::NoStream)
    }
}

/// Why a call is refused that adds to what this end sends on the stream.
#[tactic(auto, unfolding(kn_h2_state::specs::Calls::refusal))]
pub fn refusal(state: &State, number: u32) -> Option<QueueRefusal>
    ensures { result ≡ refusal takes_more state.now number }
{
    refused_where(state.failed, takes_more_at(&state.streams, number))
}

/// Why a reset is refused.
#[tactic(auto, unfolding(kn_h2_state::specs::Calls::refusal))]
fn reset_refusal(state: &State, number: u32) -> Option<QueueRefusal>
    ensures { result ≡ refusal (λ st. st.own_open) state.now number }
{
    refused_where(state.failed, is_own_open_at(&state.streams, number))
}

/// How many bytes of a stream wait to be sent.
pub fn queued(streams: &Streams, number: u32) -> usize
    ensures { result ≡ length (queue_in (stream_at streams.now number)) }
{
    match streams.get(number) {
        Some(stream) => stream.queue.len(),
        None => 0,
    }
}

/// How many bytes wait to be sent on all streams together. It stays at its type's end.
pub fn unsent(streams: &Streams) -> usize
    ensures { result ≡ min (unsent streams.now) 18446744073709551615 }
{
    let mut count: usize = 0;
    for stream in streams.as_slice() {
        count = count.saturating_add(stream.queue.len());
    }
    count
}

fn or_full(held: usize, refusal: Option<QueueRefusal>) -> Option<QueueRefusal>
    ensures { result ≡ or_full held refusal }
{
    match refusal {
        Some(cause) => Some(cause),
        None => full(held),
    }
}

fn full(held: usize) -> Option<QueueRefusal>
    ensures { result ≡ or_full held None }
{
    if held > QUEUE_LIMIT {
        Some(QueueRefusal::Full { held })
    } else {
        None
    }
}

/// Why `queue` is refused.
#[tactic(auto, unfolding(kn_h2_state::specs::Calls::queue_refusal))]
fn queue_refusal(state: &State, number: u32) -> Option<QueueRefusal>
    ensures { result ≡ queue_refusal state.now number }
{
    or_full(queued(&state.streams, number), refusal(state, number))
}

fn queue_one(stream: &mut Stream, bytes: &[u8]) -> Result<(), NoMemory>
    ensures ok { OnOk result (stream.new ≡ with_queued bytes.now stream.old) }
    ensures err { OnErr result (stream.new ≡ stream.old) }
{
    stream.queue.append(bytes)?;
    Ok(())
}

#[tactic(auto, using(crate::proofs::StreamLemmas::change_none))]
fn queue_at(streams: &mut Streams, number: u32, bytes: &[u8]) -> Result<(), NoMemory>
    ensures ok { OnOk result (streams.new ≡ change streams.old number (with_queued bytes.now)) }
    ensures err { OnErr result (streams.new ≡ streams.old) }
{
    match streams.get_mut(number) {
        Some(stream) => queue_one(stream, bytes),
        None => Ok(()),
    }
}

/// Bytes wait to be sent on a stream. An `Err` changes nothing.
#[tactic(auto, unfolding(kn_h2_state::specs::Calls::after_queue))]
pub fn queue(state: &mut State, number: u32, bytes: &[u8]) -> Result<(), QueueRefusal>
    requires { Holds state.old }
    ensures ok { OnOk result ((queue_refusal state.old number ≡ None) × (state.new ≡ after_queue number bytes.now state.old)) }
    ensures err { IfErr result (λ e. e ≢ QueueRefusal.NoMemory → queue_refusal state.old number ≡ Some e) }
    ensures kept { IfErr result (λ e. state.new ≡ state.old) }
    ensures holds { Holds state.new }
{
    match queue_refusal(state, number) {
        Some(cause) => Err(cause),
        None => match queue_at(&mut state.streams, number, bytes) {
            Ok(()) => Ok(()),
            Err(NoMemory) => Err(QueueRefusal::NoMemory),
        },
    }
}

fn queue_two_in_one(stream: &mut Stream, front: &[u8], rest: &[u8]) -> Result<(), NoMemory>
    ensures ok { OnOk result (stream.new ≡ with_queued (front.now ++ rest.now) stream.old) }
    ensures err { OnErr result (stream.new ≡ stream.old) }
{
    stream.queue.append_two(front, rest)?;
    Ok(())
}

#[tactic(auto, using(crate::proofs::StreamLemmas::change_none))]
fn queue_two_at(
    streams: &mut Streams,
    number: u32,
    front: &[u8],
    rest: &[u8],
) -> Result<(), NoMemory>
    ensures ok { OnOk result (streams.new ≡ change streams.old number (with_queued (front.now ++ rest.now))) }
    ensures err { OnErr result (streams.new ≡ streams.old) }
{
    match streams.get_mut(number) {
        Some(stream) => queue_two_in_one(stream, front, rest),
        None => Ok(()),
    }
}

/// As `queue`, for bytes that stand in two places.
#[tactic(auto, unfolding(kn_h2_state::specs::Calls::after_queue))]
pub fn queue_two(
    state: &mut State,
    number: u32,
    front: &[u8],
    rest: &[u8],
) -> Result<(), QueueRefusal>
    requires { Holds state.old }
    ensures ok { OnOk result ((queue_refusal state.old number ≡ None) × (state.new ≡ after_queue number (front.now ++ rest.now) state.old)) }
    ensures err { IfErr result (λ e. e ≢ QueueRefusal.NoMemory → queue_refusal state.old number ≡ Some e) }
    ensures kept { IfErr result (λ e. state.new ≡ state.old) }
    ensures holds { Holds state.new }
{
    match queue_refusal(state, number) {
        Some(cause) => Err(cause),
        None => match queue_two_at(&mut state.streams, number, front, rest) {
            Ok(()) => Ok(()),
            Err(NoMemory) => Err(QueueRefusal::NoMemory),
        },
    }
}

#[tactic(auto, using(crate::proofs::StreamLemmas::change_none))]
fn finish_at(streams: &mut Streams, number: u32, trailers: Headers)
    ensures { streams.new ≡ change streams.old number (with_finish trailers) }
{
    if let Some(stream) = streams.get_mut(number) {
        stream.finish = Some(trailers);
    }
}

/// This end's half of a stream is to end after what waits, with these trailers. Takes no memory.
#[tactic(auto, unfolding(kn_h2_state::specs::Calls::after_finish))]
pub fn finish(state: &mut State, number: u32, trailers: Headers) -> Result<(), QueueRefusal>
    requires { Holds state.old }
    ensures ok { OnOk result ((refusal takes_more state.old number ≡ None) × (state.new ≡ after_finish number trailers state.old)) }
    ensures err { IfErr result (λ e. (refusal takes_more state.old number ≡ Some e) × (state.new ≡ state.old)) }
    ensures holds { Holds state.new }
{
    match refusal(state, number) {
        Some(cause) => Err(cause),
        None => {
            finish_at(&mut state.streams, number, trailers);
            Ok(())
        }
    }
}

/// The stream is gone, and the peer is told.
#[tactic(auto, unfolding(kn_h2_state::specs::Calls::after_reset))]
fn shut_and_tell(state: &mut State, number: u32, code: u32) -> Result<(), NoMemory>
    requires { number < 2 ^ 31 }
    ensures { OnOk result (state.new ≡ after_reset number code state.old) }
{
    shut_at(&mut state.streams, number);
    state.streams.tidy();
    reply_reset(state, number, code)
}

/// This end gives up a stream: what waits on it is dropped, and the peer is told.
pub fn reset(state: &mut State, number: u32, code: u32) -> Result<(), QueueRefusal>
    requires { Holds state.old }
    ensures ok { OnOk result ((refusal (λ st. st.own_open) state.old number ≡ None) × (state.new ≡ after_reset number code state.old)) }
    ensures err { IfErr result (λ e. e ≢ QueueRefusal.NoMemory → (refusal (λ st. st.own_open) state.old number ≡ Some e) × (state.new ≡ state.old)) }
    ensures holds { OnOk result (Holds state.new) }
{
    match reset_refusal(state, number) {
        Some(cause) => Err(cause),
        None => match shut_and_tell(state, number, code) {
            Ok(()) => Ok(()),
            Err(NoMemory) => Err(QueueRefusal::NoMemory),
        },
    }
}
