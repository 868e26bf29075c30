ghost use Rattle.std.specs.Prelude.{◌≡◌, pos, ◌==◌, ◌&&◌, length, not, true, false};
ghost use Rattle.kn_windows.specs.Windows.{can_grow};
ghost use Rattle.kn_h2_state.specs.Streams.{is_open, on_open, change};
ghost use Rattle.kn_h2_state.specs.Payloads.{increment_of};
ghost use Rattle.kn_h2_state.specs.Effects.{with_grant, window_update};

use crate::windows::grow;
use kn_frames::Frame;
use kn_h2_state::{State, Stream, Streams, increment, is_open};

/// An open stream's sending window grows.
fn grow_one(stream: &mut Stream, by: u32)
    requires { (is_open stream.old && not (can_grow stream.old.send (pos by))) ≡ false }
    ensures { stream.new ≡ with_grant by stream.old }
{
    if is_open(stream) {
        grow(&mut stream.send, by);
    }
}

#[tactic(auto, using(crate::proofs::StreamLemmas::change_none))]
fn grow_at(streams: &mut Streams, number: u32, by: u32)
    requires { on_open streams.old number (λ st. not (can_grow st.send (pos by))) ≡ false }
    ensures { streams.new ≡ change streams.old number (with_grant by) }
{
    if let Some(stream) = streams.get_mut(number) {
        grow_one(stream, by);
    }
}

/// WINDOW_UPDATE (RFC 9113, section 6.9).
#[tactic(auto, unfolding(kn_h2_state::specs::Effects::window_update))]
pub fn window_update(state: &mut State, frame: &Frame)
    requires size { length frame.now.payload ≡ 4 }
    requires all { ((frame.now.stream == 0) && not (can_grow state.old.send (pos (increment_of frame.now.payload)))) ≡ false }
    requires one { on_open state.old.streams frame.now.stream (λ st. not (can_grow st.send (pos (increment_of frame.now.payload)))) ≡ false }
    ensures { state.new ≡ window_update frame.now state.old }
{
    let by = increment(frame.payload.as_slice());
    if frame.stream == 0 {
        grow(&mut state.send, by);
    } else {
        grow_at(&mut state.streams, frame.stream, by);
    }
}
