ghost use Rattle.std.specs.Prelude.{◌≡◌, ◌<◌, ◌==◌, ◌∷◌, [], length, MatchOption, Some, None, if◌then◌else◌};
ghost use Rattle.std.specs.List.{list_any};
ghost use Rattle.kn_h2_state.specs.Payloads.{settings_of};
ghost use Rattle.kn_h2_state.specs.Rules.{is_bad_setting, breaks_windows, shifts_over};
ghost use Rattle.kn_h2_state.specs.Settings.{larger, largest_initial, is_over_by, last_of};

use crate::codes::setting_numbers;
use crate::limits::LARGEST_WINDOW;
use crate::payload::{after, four_bytes, two_bytes};
use crate::role::Role;
use crate::state::State;
use crate::stream::Stream;
use crate::streams::is_open;
use crate::window_tests::shifts_over_largest;

/// The first setting of a payload, as its number and its value, and the payload after it.
#[tactic(auto, using(crate::proofs::SettingFacts::settings_of_short, crate::proofs::SettingFacts::first_is))]
pub fn first_setting(payload: &[u8]) -> Option<((u16, u32), &[u8])>
    ensures { MatchOption result (settings_of payload.now ≡ []) (λ x. (settings_of payload.now ≡ x.0 ∷ settings_of x.1.now) × (length x.1.now < length payload.now)) }
{
    if payload.len() < 6 {
        return None;
    }
    let number = two_bytes(&payload[..2]);
    let value = four_bytes(&payload[2..6]);
    Some(((number, value), after(payload, 6)))
}

/// A setting is out of its range.
fn is_bad_setting(role: Role, setting: (u16, u32)) -> bool
    ensures { result ≡ is_bad_setting role setting }
{
    let (number, value) = setting;
    let is_bad_push = value > 1 || (role.is_client() && value != 0);
    let is_bad_size = value < 16_384 || value > 16_777_215;
    (number == setting_numbers::ENABLE_PUSH && is_bad_push)
        || (number == setting_numbers::MAX_FRAME_SIZE && is_bad_size)
}

/// Some setting of a payload is out of its range.
pub fn has_bad_setting(role: Role, payload: &[u8]) -> bool
    ensures { result ≡ list_any (is_bad_setting role) (settings_of payload.now) }
{
    let mut rest = payload;
    while let Some((setting, after)) = first_setting(rest) {
        if is_bad_setting(role, setting) {
            return true;
        }
        rest = after;
    }
    false
}

/// A stream's sending window passes the largest where INITIAL_WINDOW_SIZE goes from one value to another.
fn shifts_over(initial: u32, value: u32, stream: &Stream) -> bool
    ensures { result ≡ shifts_over initial value stream.now }
{
    is_open(stream) && shifts_over_largest(&stream.send, initial, value)
}

fn shifts_any_over(initial: u32, value: u32, streams: &[Stream]) -> bool
    ensures { result ≡ list_any (shifts_over initial value) streams.now }
{
    streams
        .iter()
        .any(|stream| shifts_over(initial, value, stream))
}

/// The larger of a value and the one before.
fn larger(before: Option<u32>, value: u32) -> Option<u32>
    ensures { result ≡ larger before value }
{
    match before {
        None => Some(value),
        Some(most) => Some(if most < value { value } else { most }),
    }
}

fn larger_initial(before: Option<u32>, setting: (u16, u32)) -> Option<u32>
    ensures { result ≡ (if setting.0 == 4 then larger before setting.1 else before) }
{
    if setting.0 == setting_numbers::INITIAL_WINDOW_SIZE {
        larger(before, setting.1)
    } else {
        before
    }
}

/// The largest INITIAL_WINDOW_SIZE of a payload.
#[tactic(auto, unfolding(crate::specs::Settings::largest_initial))]
fn largest_initial(payload: &[u8]) -> Option<u32>
    ensures { result ≡ largest_initial None (settings_of payload.now) }
{
    let mut most = None;
    let mut rest = payload;
    while let Some((setting, after)) = first_setting(rest) {
        most = larger_initial(most, setting);
        rest = after;
    }
    most
}

/// This INITIAL_WINDOW_SIZE, or by it a sending window, is over the largest.
fn is_over_by(state: &State, value: Option<u32>) -> bool
    ensures { result ≡ is_over_by state.now.initial state.now.streams value }
{
    match value {
        None => false,
        Some(value) => {
            value > LARGEST_WINDOW
                || shifts_any_over(state.initial, value, state.streams.as_slice())
        }
    }
}

/// The settings of a payload, taken in turn, bring INITIAL_WINDOW_SIZE or a sending window over the largest.
/// All streams are looked at once: the largest value decides.
#[tactic(auto, using(crate::proofs::SettingFacts::breaks_by_largest))]
pub fn breaks_windows(state: &State, payload: &[u8]) -> bool
    ensures { result ≡ breaks_windows state.now.initial state.now.streams (settings_of payload.now) }
{
    is_over_by(state, largest_initial(payload))
}

fn later_of(number: u16, before: Option<u32>, setting: (u16, u32)) -> Option<u32>
    ensures { result ≡ (if setting.0 == number then Some setting.1 else before) }
{
    if setting.0 == number {
        Some(setting.1)
    } else {
        before
    }
}

/// The last value of a setting in a payload, or the one before where there is none.
#[tactic(auto, unfolding(crate::specs::Settings::last_of))]
pub fn last_of(number: u16, before: Option<u32>, payload: &[u8]) -> Option<u32>
    ensures { result ≡ last_of number before (settings_of payload.now) }
{
    let mut last = before;
    let mut rest = payload;
    while let Some((setting, after)) = first_setting(rest) {
        last = later_of(number, last, setting);
        rest = after;
    }
    last
}
