ghost use Rattle.std.specs.Prelude.{◌≡◌, ◌%◌, ◌==◌, not, length, ◌&&◌, ◌||◌};
ghost use Rattle.kn_windows.specs.Windows.{can_spend};
ghost use Rattle.kn_h2_state.specs.Streams.{on_open};
ghost use Rattle.kn_h2_state.specs.Rules.{is_idle, is_client, is_on_idle, is_over_window, stream_rules, first_broken};

use crate::codes::{errors, kinds};
use crate::state::State;
use crate::streams::{Streams, is_open};
use crate::window_tests::is_over;
use kn_frames::Frame;

/// The code of the first rule on its stream that the frame breaks.
#[tactic(auto, unfolding(crate::specs::Rules::stream_rules, crate::specs::Rules::first_broken))]
pub fn stream_verdict(state: &State, frame: &Frame) -> Option<u32>
    ensures { result ≡ first_broken (stream_rules state.now frame.now) }
{
    if is_on_idle(state, frame) {
        return Some(errors::PROTOCOL_ERROR);
    }
    if frame.kind == kinds::HEADERS && is_no_stream_of_headers(state, frame.stream) {
        return Some(errors::PROTOCOL_ERROR);
    }
    if is_over_window(state, frame) {
        return Some(errors::FLOW_CONTROL_ERROR);
    }
    if frame.kind <= kinds::HEADERS && is_ended(&state.streams, frame.stream) {
        return Some(errors::STREAM_CLOSED);
    }
    if frame.kind == kinds::DATA
        && state.role.is_client()
        && is_unanswered(&state.streams, frame.stream)
    {
        return Some(errors::PROTOCOL_ERROR);
    }
    None
}

/// The stream was never opened.
fn is_idle(state: &State, number: u32) -> bool
    ensures { result ≡ is_idle state.now number }
{
    number % 2 == 0 || number > state.opened
}

/// DATA, RST_STREAM or WINDOW_UPDATE on a stream that was never opened.
fn is_on_idle(state: &State, frame: &Frame) -> bool
    ensures { result ≡ is_on_idle state.now frame.now }
{
    let is_grant = frame.kind == kinds::WINDOW_UPDATE && frame.stream != 0;
    (frame.kind == kinds::DATA || frame.kind == kinds::RST_STREAM || is_grant)
        && is_idle(state, frame.stream)
}

/// No HEADERS may come on the stream: its number is no client's, or this client did not open it.
fn is_no_stream_of_headers(state: &State, number: u32) -> bool
    ensures { result ≡ ((number % 2 == 0) || (is_client state.now.role && is_idle state.now number)) }
{
    number % 2 == 0 || (state.role.is_client() && is_idle(state, number))
}

/// DATA is longer than a window allows.
fn is_over_window(state: &State, frame: &Frame) -> bool
    ensures { result ≡ is_over_window state.now frame.now }
{
    let payload = frame.payload.as_slice();
    frame.kind == kinds::DATA
        && (is_over(&state.receive, payload)
            || is_over_stream(&state.streams, frame.stream, payload))
}

/// The stream is open, and so many bytes are more than its window has left.
fn is_over_stream(streams: &Streams, number: u32, bytes: &[u8]) -> bool
    ensures { result ≡ on_open streams.now number (λ st. not (can_spend st.receive (length bytes.now))) }
{
    match streams.get(number) {
        Some(stream) => is_open(stream) && is_over(&stream.receive, bytes),
        None => false,
    }
}

/// The stream is open, and the peer's half of it has ended.
fn is_ended(streams: &Streams, number: u32) -> bool
    ensures { result ≡ on_open streams.now number (λ st. not st.peer_open) }
{
    match streams.get(number) {
        Some(stream) => is_open(stream) && !stream.peer_open,
        None => false,
    }
}

/// The stream is open, and the head of its response did not come.
fn is_unanswered(streams: &Streams, number: u32) -> bool
    ensures { result ≡ on_open streams.now number (λ st. not st.answered) }
{
    match streams.get(number) {
        Some(stream) => is_open(stream) && !stream.answered,
        None => false,
    }
}
