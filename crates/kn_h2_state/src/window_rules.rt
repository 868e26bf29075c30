ghost use Rattle.std.specs.Prelude.{◌≡◌, ◌≤◌, pos, not, false, length};
ghost use Rattle.kn_windows.specs.Windows.{can_grow};
ghost use Rattle.kn_h2_state.specs.Streams.{on_open};
ghost use Rattle.kn_h2_state.specs.Rules.{window_rules, first_broken, has_wrong_length};

use crate::codes::{errors, kinds};
use crate::payload::increment;
use crate::settings::{breaks_windows, has_bad_setting};
use crate::state::State;
use crate::streams::{Streams, is_open};
use crate::window_tests::grows_over_largest;
use kn_frames::Frame;

/// The code of the first rule on settings and windows that the frame breaks.
#[tactic(auto, unfolding(crate::specs::Rules::window_rules, crate::specs::Rules::first_broken))]
pub fn window_verdict(state: &State, frame: &Frame) -> Option<u32>
    requires { has_wrong_length frame.now ≡ false }
    ensures { result ≡ first_broken (window_rules state.now frame.now) }
{
    match frame.kind {
        kinds::SETTINGS => settings_verdict(state, frame),
        kinds::WINDOW_UPDATE => grant_verdict(state, frame),
        _ => None,
    }
}

#[tactic(auto, unfolding(crate::specs::Rules::window_rules, crate::specs::Rules::first_broken))]
fn settings_verdict(state: &State, frame: &Frame) -> Option<u32>
    requires { frame.now.kind ≡ 4 }
    ensures { result ≡ first_broken (window_rules state.now frame.now) }
{
    let payload = frame.payload.as_slice();
    if has_bad_setting(state.role, payload) {
        return Some(errors::PROTOCOL_ERROR);
    }
    if breaks_windows(state, payload) {
        return Some(errors::FLOW_CONTROL_ERROR);
    }
    None
}

#[tactic(auto, unfolding(crate::specs::Rules::window_rules, crate::specs::Rules::first_broken))]
fn grant_verdict(state: &State, frame: &Frame) -> Option<u32>
    requires kind { frame.now.kind ≡ 8 }
    requires whole { 4 ≤ length frame.now.payload }
    ensures { result ≡ first_broken (window_rules state.now frame.now) }
{
    let by = increment(frame.payload.as_slice());
    if by == 0 {
        return Some(errors::PROTOCOL_ERROR);
    }
    if frame.stream == 0 && grows_over_largest(&state.send, by) {
        return Some(errors::FLOW_CONTROL_ERROR);
    }
    if grows_stream_over(&state.streams, frame.stream, by) {
        return Some(errors::FLOW_CONTROL_ERROR);
    }
    None
}

/// The stream is open, and its sending window passes the largest with this increment.
fn grows_stream_over(streams: &Streams, number: u32, by: u32) -> bool
    ensures { result ≡ on_open streams.now number (λ st. not (can_grow st.send (pos by))) }
{
    match streams.get(number) {
        Some(stream) => is_open(stream) && grows_over_largest(&stream.send, by),
        None => false,
    }
}
