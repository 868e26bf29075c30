ghost use Rattle.std.specs.Prelude.{◌≡◌, ◌+◌, ◌<◌, ◌≤◌, [], ◌∷◌, ◌++◌, length, None};
ghost use Rattle.kn_frames.specs.declared.fault.Phase.TheVariants.{Failed};
ghost use Rattle.kn_frames.specs.declared.fault.FrameReason.TheVariants.{TooLong};
ghost use Rattle.kn_frames.specs.Frames.{frame_of, KeepsLimits};
ghost use Rattle.kn_frames.specs.Readers.{count_up, Told, fault_of};

use crate::fault::Phase;
use crate::front::Front;
use crate::{CutError, Frame, FrameFault, FrameReason, head};
use kn_io::Blob;
use std::alloc::Global;
use std::mem;

/// What a cutter holds: the bytes of a partial preface or head, and of the payload after a whole head.
#[derive(Drop)]
pub struct State {
    pub phase: Phase,
    pub front: Front,
    pub body: Blob,
    /// How many bytes came before these. It stays at 2^64 - 1.
    pub offset: u64,
}

/// From now on the reader answers this fault.
pub fn fail(state: &mut State, fault: FrameFault)
    ensures { state.new ≡ record state.old { phase = Failed fault; front = [] } }
{
    state.phase = Phase::Failed(fault);
    state.front.clear();
}

/// From now on the reader answers that the head that is held says too much.
pub fn fail_too_long(state: &mut State) -> FrameFault
    ensures fault { result ≡ record { offset = state.old.offset; reason = TooLong } }
    ensures state { state.new ≡ record state.old { phase = Failed result; front = [] } }
{
    let fault = FrameFault {
        offset: state.offset,
        reason: FrameReason::TooLong,
    };
    fail(state, fault);
    fault
}

/// Hands out the frame whose head and payload are held. The payload is moved.
#[tactic(auto, using(crate::proofs::Limits::keeps_limits))]
pub fn hand_out(state: &mut State, alloc: Global, frames: &mut Vec<Frame>) -> Result<(), CutError>
    requires small { length state.old.body ≤ 16384 }
    ensures state { Told result (state.new ≡ record state.old { front = []; body = []; offset = count_up state.old.offset (9 + length state.old.body) }) }
    ensures frame { Told result (frames.new.items ≡ frames.old.items ++ frame_of state.old.front state.old.body ∷ []) }
    ensures limits { Told result (KeepsLimits frames.old.items frames.new.items) }
    ensures fault { fault_of result ≡ None }
{
    let payload = mem::replace(&mut state.body, Blob::new(alloc));
    let taken = 9 + payload.len() as u64;
    let frame = head::frame_of(state.front.as_slice(), payload);
    match frames.push(frame) {
        Ok(()) => {
            state.front.clear();
            state.offset = state.offset.saturating_add(taken);
            Ok(())
        }
        Err(_failed) => Err(CutError::NoMemory),
    }
}
