ghost use Rattle.std.specs.Prelude.{◌≡◌, ℕ, ◌<◌, ◌≤◌, List, [], ◌++◌, length, true, None};
ghost use Rattle.kn_frames.specs.declared.fault.Phase.TheVariants.{InFrames};
ghost use Rattle.kn_frames.specs.Readers.{Reading, after_bytes, frames_in, fault_in};
ghost use Rattle.kn_frames.specs.Missing.{missing, missing_of_frame, Ended};
ghost use Rattle.kn_frames.specs.Cutters.{seen, is_sound};

use crate::fault::Phase;
use crate::head;
use crate::state::State;

/// What is left of the head, or of the payload, of the frame that is held.
fn left_of_frame(state: &State) -> usize
    requires phase { state.now.phase ≡ InFrames }
    requires sound { is_sound state.now ≡ true }
    ensures value { result ≡ missing_of_frame (state.now.front ++ state.now.body) }
    ensures some { 1 ≤ result }
{
    let held = state.front.len();
    if held < 9 {
        9 - held
    } else {
        head::length_of(state.front.as_slice()) - state.body.len()
    }
}

/// How many bytes a cutter lacks to the end of what it holds the front of.
#[tactic(auto, unfolding(crate::specs::Missing::missing))]
pub fn left(state: &State) -> usize
    requires sound { is_sound state.now ≡ true }
    ensures value { result ≡ missing (seen state.now) }
    ensures some { 1 ≤ result }
{
    match state.phase {
        Phase::InPreface => 24 - state.front.len(),
        Phase::InFrames => left_of_frame(state),
        Phase::Failed(_fault) => 1,
    }
}

/// Fewer bytes than are missing end nothing: they make no frame whole. As many end exactly one thing: the preface,
/// or a head, or the frame, unless a fault is among them.
pub fn ends_with_the_missing()
    ensures fewer { (r : Reading) (piece : List ℕ) → length piece < missing r → frames_in r piece ≡ [] }
    ensures as_many { (r : Reading) (piece : List ℕ) → 0 < length piece → length piece ≡ missing r →
        fault_in (after_bytes r piece).phase ≡ None → Ended r.phase (r.rest ++ piece) r.offset (after_bytes r piece) (frames_in r piece) }
{}
