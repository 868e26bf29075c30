ghost use Rattle.std.specs.Prelude.{◌≡◌, ◌<◌, ◌≤◌, ◌^◌, length, slice_get, false, IfSome, OnOk};
ghost use Rattle.std.specs.List.{AllByRecursion, list_any};
ghost use Rattle.kn_h2_state.specs.Payloads.{settings_of};
ghost use Rattle.kn_h2_state.specs.Rules.{shifted, shifted_one, shifts_over, breaks_windows};
ghost use Rattle.kn_h2_state.specs.Limits.{largest_window};
ghost use Rattle.kn_h2_state.specs.Effects.{after_settings, settings};
ghost use Rattle.kn_h2_state.specs.Settings.{with_initial};
ghost use Rattle.kn_h2_state.specs.Holding.{Holds, IsHigh};
ghost use Rattle.kn_h2.specs.Places.{changed_at};

use crate::windows::shift;
use kn_frames::Frame;
use kn_h2_state::{
    State, Stream, Streams, flags, has, is_open, kinds, last_of, reply_frame, setting_numbers,
};
use kn_io::NoMemory;

/// An open stream's sending window shifts.
fn shift_one(stream: &mut Stream, old: u32, new: u32)
    requires old_fits { old < 2 ^ 31 }
    requires new_fits { new < 2 ^ 31 }
    requires high { IsHigh old stream.old }
    requires fits { shifts_over old new stream.old ≡ false }
    ensures { stream.new ≡ shifted_one old new stream.old }
{
    if is_open(stream) {
        shift(&mut stream.send, old, new);
    }
}

fn shift_at(streams: &mut Streams, place: usize, old: u32, new: u32)
    requires old_fits { old < 2 ^ 31 }
    requires new_fits { new < 2 ^ 31 }
    requires place { place < length streams.old }
    requires high { IfSome (slice_get streams.old place) (IsHigh old) }
    requires fits { IfSome (slice_get streams.old place) (λ st. shifts_over old new st ≡ false) }
    ensures { streams.new ≡ changed_at streams.old place (shifted_one old new) }
{
    if let Some(stream) = streams.at_mut(place) {
        shift_one(stream, old, new);
    }
}

/// The sending windows of all open streams shift (RFC 9113, section 6.9.2).
fn shift_all(streams: &mut Streams, old: u32, new: u32)
    requires old_fits { old < 2 ^ 31 }
    requires new_fits { new < 2 ^ 31 }
    requires high { AllByRecursion (IsHigh old) streams.old }
    requires fits { list_any (shifts_over old new) streams.old ≡ false }
    ensures { streams.new ≡ shifted old new streams.old }
{
    for place in 0..streams.len() {
        shift_at(streams, place, old, new);
    }
}

/// INITIAL_WINDOW_SIZE goes to this value, where there is one.
fn take_initial(state: &mut State, value: Option<u32>)
    requires initial { state.old.initial < 2 ^ 31 }
    requires high { AllByRecursion (IsHigh state.old.initial) state.old.streams }
    requires fits { IfSome value (λ v. (v ≤ largest_window) × (list_any (shifts_over state.old.initial v) state.old.streams ≡ false)) }
    ensures { state.new ≡ with_initial value state.old }
{
    if let Some(value) = value {
        shift_all(&mut state.streams, state.initial, value);
        state.initial = value;
    }
}

/// The settings of a payload. Of each kind only the last counts, so all streams shift once.
fn take_settings(state: &mut State, payload: &[u8])
    requires holds { Holds state.old }
    requires fits { breaks_windows state.old.initial state.old.streams (settings_of payload.now) ≡ false }
    ensures { state.new ≡ after_settings state.old (settings_of payload.now) }
{
    kn_h2_state::settings_at_once();
    state.most = last_of(setting_numbers::MAX_CONCURRENT_STREAMS, state.most, payload);
    let initial = last_of(setting_numbers::INITIAL_WINDOW_SIZE, None, payload);
    take_initial(state, initial);
}

/// SETTINGS (RFC 9113, section 6.5): taken, and acknowledged.
#[tactic(auto, unfolding(kn_h2_state::specs::Effects::settings))]
pub fn settings(state: &mut State, frame: &Frame) -> Result<(), NoMemory>
    requires holds { Holds state.old }
    requires fits { breaks_windows state.old.initial state.old.streams (settings_of frame.now.payload) ≡ false }
    ensures { OnOk result (state.new ≡ settings frame.now state.old) }
{
    if has(frame, flags::ACK) {
        Ok(())
    } else {
        take_settings(state, frame.payload.as_slice());
        reply_frame(state, kinds::SETTINGS, flags::ACK, 0, &[])
    }
}
