ghost use Rattle.std.specs.Prelude.{◌≡◌, ◌+◌, ◌<◌, ◌≤◌, ◌^◌, length, true, IfSome};
ghost use Rattle.std.specs.List.{AllByRecursion};
ghost use Rattle.kn_h2_state.specs.Streams.{stream_at, change, is_kept, tidied};
ghost use Rattle.kn_h2_state.specs.Calls.{with_taken, after_take, after_took, text_of};
ghost use Rattle.kn_h2_state.specs.Holding.{Holds};

use crate::text::is_open_at;
use kn_h2_state::{State, Stream, Streams};

/// Text of a stream was taken, and so much is owed to the peer.
fn take_one(stream: &mut Stream, count: u32)
    requires part { count ≤ length stream.old.text }
    requires fits { stream.old.owed + count < 2 ^ 32 }
    ensures { stream.new ≡ with_taken count stream.old }
{
    stream.text.advance(count as usize);
    stream.owed += count;
}

#[tactic(auto, using(crate::proofs::StreamLemmas::change_none))]
fn take_at(streams: &mut Streams, number: u32, count: u32)
    requires part { IfSome (stream_at streams.old number) (λ st. count ≤ length st.text) }
    requires fits { IfSome (stream_at streams.old number) (λ st. st.owed + count < 2 ^ 32) }
    ensures { streams.new ≡ change streams.old number (with_taken count) }
{
    if let Some(stream) = streams.get_mut(number) {
        take_one(stream, count);
    }
}

/// The stream goes where nothing is left of it. One that is open stays, and then no other is looked at.
fn take_and_tidy(streams: &mut Streams, number: u32, count: u32)
    requires part { IfSome (stream_at streams.old number) (λ st. count ≤ length st.text) }
    requires fits { IfSome (stream_at streams.old number) (λ st. st.owed + count < 2 ^ 32) }
    requires kept { AllByRecursion (λ st. is_kept st ≡ true) streams.old }
    ensures { streams.new ≡ tidied (change streams.old number (with_taken count)) }
{
    take_at(streams, number, count);
    if !is_open_at(streams, number) {
        streams.tidy();
    }
}

/// So many bytes of a stream's text were taken. They are granted back when enough of them are owed
/// (RFC 9113, section 6.9).
#[tactic(auto, unfolding(kn_h2_state::specs::Calls::after_take))]
pub fn take(state: &mut State, number: u32, count: usize)
    requires holds { Holds state.old }
    requires part { count ≤ length (text_of state.old number) }
    ensures after { state.new ≡ after_take number count state.old }
    ensures holds { Holds state.new }
{
    let count = count as u32;
    take_and_tidy(&mut state.streams, number, count);
    state.owed += count;
}

/// So many bytes went to the peer.
#[tactic(auto, unfolding(kn_h2_state::specs::Calls::after_took))]
pub fn took(state: &mut State, count: usize)
    requires holds { Holds state.old }
    requires part { count ≤ length state.old.out.bytes }
    ensures after { state.new ≡ after_took count state.old }
    ensures holds { Holds state.new }
{
    state.out.took(count);
}
