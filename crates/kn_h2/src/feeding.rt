ghost use Rattle.std.specs.Prelude.{◌≡◌, OnOk, is_some, false};
ghost use Rattle.std.specs.List.{AllByRecursion};
ghost use Rattle.kn_frames.specs.Frames.{IsWithinLimits};
ghost use Rattle.kn_frames.specs.Readers.{frames_in};
ghost use Rattle.kn_h2_state.specs.Feeding.{after_piece, Connection};
ghost use Rattle.kn_h2_state.specs.Holding.{Holds};
ghost use Rattle.kn_h2.specs.Connections.{connection};

use crate::frames::{on_fault, on_frames};
use kn_frames::{CutError, Cutter};
use kn_h2_state::State;
use kn_io::NoMemory;
use std::alloc::Global;

/// The frames that the bytes make whole, and the fault in which they may end, of a connection that has
/// not failed.
fn read(cutter: &mut Cutter, state: &mut State, alloc: Global, piece: &[u8]) -> Result<(), NoMemory>
    requires holds { Holds state.old }
    requires going { is_some state.old.failed ≡ false }
    ensures after { OnOk result (connection cutter.new state.new ≡ after_piece (connection cutter.old state.old) piece.now) }
    ensures limits { OnOk result (AllByRecursion IsWithinLimits (frames_in cutter.old piece.now)) }
    ensures holds { OnOk result (Holds state.new) }
{
    let mut frames = Vec::new(alloc);
    match cutter.feed(alloc, piece, &mut frames) {
        Ok(()) => {
            on_frames(state, alloc, frames.as_slice())?;
            Ok(())
        }
        Err(CutError::Fault(fault)) => {
            on_frames(state, alloc, frames.as_slice())?;
            on_fault(state, fault)?;
            Ok(())
        }
        Err(CutError::NoMemory) => Err(NoMemory),
    }
}

/// The next bytes of the peer. Where the connection has failed, nothing more is read.
pub fn feed(
    cutter: &mut Cutter,
    state: &mut State,
    alloc: Global,
    piece: &[u8],
) -> Result<(), NoMemory>
    requires { Holds state.old }
    ensures after { OnOk result (connection cutter.new state.new ≡ after_piece (connection cutter.old state.old) piece.now) }
    ensures limits { OnOk result (is_some state.old.failed ≡ false → AllByRecursion IsWithinLimits (frames_in cutter.old piece.now)) }
    ensures holds { OnOk result (Holds state.new) }
{
    if state.failed.is_some() {
        Ok(())
    } else {
        read(cutter, state, alloc, piece)
    }
}
