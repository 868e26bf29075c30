ghost use Rattle.std.specs.Prelude.{◌≡◌, ◌+◌, ◌<◌, ◌^◌, length, not, OnOk, Some};
ghost use Rattle.kn_h2_state.specs.Streams.{stream_at, change, shut, on_open};
ghost use Rattle.kn_h2_state.specs.Effects.{if_open, reset_of, on_stream};
ghost use Rattle.kn_h2_state.specs.Payloads.{number_at};
ghost use Rattle.kn_h2_state.specs.Holding.{Holds};
ghost use Rattle.kn_h2.specs.Resets.{emptied, gone, unread_of, loses_nothing};

use kn_frames::Frame;
use kn_h2_state::{H2Event, State, Stream, Streams, is_open, number_at};
use kn_io::NoMemory;

/// Both halves of a stream are over, and nothing waits to be sent.
pub fn shut_one(stream: &mut Stream)
    ensures { stream.new ≡ shut stream.old }
{
    stream.peer_open = false;
    stream.own_open = false;
    stream.queue.clear();
    stream.finish = None;
    stream.resets = false;
}

#[tactic(auto, using(crate::proofs::StreamLemmas::change_none))]
pub fn shut_at(streams: &mut Streams, number: u32)
    ensures { streams.new ≡ change streams.old number shut }
{
    if let Some(stream) = streams.get_mut(number) {
        shut_one(stream);
    }
}

/// The text that nobody took is dropped too.
fn empty_one(stream: &mut Stream)
    ensures { stream.new ≡ emptied stream.old }
{
    shut_one(stream);
    stream.text.clear();
}

#[tactic(auto, using(crate::proofs::StreamLemmas::change_none))]
fn empty_at(streams: &mut Streams, number: u32)
    ensures { streams.new ≡ change streams.old number emptied }
{
    if let Some(stream) = streams.get_mut(number) {
        empty_one(stream);
    }
}

/// The stream is gone, its unread text counts as taken on the connection, and the reset is told.
fn cut_off(state: &mut State, number: u32, code: u32, unread: u32) -> Result<(), NoMemory>
    requires { state.old.owed + unread < 2 ^ 32 }
    ensures { OnOk result (state.new ≡ gone number code unread state.old) }
{
    empty_at(&mut state.streams, number);
    state.streams.tidy();
    state.owed += unread;
    state.events.push(H2Event::Reset {
        stream: number,
        code,
    })
}

/// The stream is gone, and its text stays until it is taken.
fn shut_off(state: &mut State, number: u32)
    ensures { state.new ≡ on_stream number shut state.old }
{
    shut_at(&mut state.streams, number);
    state.streams.tidy();
}

/// How much text of an open stream nobody took.
fn unread_at(streams: &Streams, number: u32) -> Option<usize>
    ensures { result ≡ unread_of (stream_at streams.now number) }
{
    match streams.get(number) {
        Some(stream) => unread_in(stream),
        None => None,
    }
}

fn unread_in(stream: &Stream) -> Option<usize>
    ensures { result ≡ unread_of (Some stream.now) }
{
    if is_open(stream) {
        Some(stream.text.len())
    } else {
        None
    }
}

/// The stream is open, and the peer ended its half.
fn is_ended_at(streams: &Streams, number: u32) -> bool
    ensures { result ≡ on_open streams.now number (λ st. not st.peer_open) }
{
    match streams.get(number) {
        Some(stream) => is_open(stream) && !stream.peer_open,
        None => false,
    }
}

/// The code says that nothing is lost, and this is a client whose response is whole.
fn loses_nothing(state: &State, number: u32, code: u32) -> bool
    ensures { result ≡ loses_nothing code state.now (stream_at state.now.streams number) }
{
    state.role.is_client() && code == 0 && is_ended_at(&state.streams, number)
}

/// A stream that is open.
fn reset_open(state: &mut State, frame: &Frame, code: u32, unread: usize) -> Result<(), NoMemory>
    requires code { number_at frame.now.payload 0 ≡ code }
    requires open { unread_of (stream_at state.old.streams frame.now.stream) ≡ Some unread }
    requires owed { state.old.owed + unread < 2 ^ 32 }
    ensures { OnOk result (state.new ≡ if_open (stream_at state.old.streams frame.now.stream) state.old (λ st. reset_of frame.now st state.old)) }
{
    if loses_nothing(state, frame.stream, code) {
        shut_off(state, frame.stream);
        Ok(())
    } else {
        cut_off(state, frame.stream, code, unread as u32)
    }
}

/// RST_STREAM (RFC 9113, section 6.4).
#[tactic(auto, using(crate::proofs::ResetLemmas::reset_none))]
pub fn reset(state: &mut State, frame: &Frame) -> Result<(), NoMemory>
    requires size { length frame.now.payload ≡ 4 }
    requires holds { Holds state.old }
    ensures { OnOk result (state.new ≡ if_open (stream_at state.old.streams frame.now.stream) state.old (λ st. reset_of frame.now st state.old)) }
{
    let code = number_at(frame.payload.as_slice(), 0);
    match unread_at(&state.streams, frame.stream) {
        Some(unread) => reset_open(state, frame, code, unread),
        None => Ok(()),
    }
}
