//! Writing while there is room.

ghost use Rattle.std.specs.Prelude.{◌≡◌, ◌||◌, true, false, nat_le, length, is_some, OnOk};
ghost use Rattle.kn_h2_state.specs.declared.moves.Move.{Move};
ghost use Rattle.kn_h2_state.specs.Limits.{full_out};
ghost use Rattle.kn_h2_state.specs.Moves.{may, Reaches};
ghost use Rattle.kn_h2_state.specs.Holding.{Holds};
ghost use Rattle.kn_h2.specs.Connections.{NotesDue};

use crate::finding::next_move;
use crate::moves::make;
use kn_h2_state::{FULL_OUT, Move, State};
use kn_io::NoMemory;
use std::alloc::Global;

/// Whose text went has had its turn.
fn turn_after(made: Move, turn: u32) -> u32 {
    match made {
        Move::Send { stream, .. } => stream,
        Move::GrantAll | Move::Grant { .. } | Move::End { .. } | Move::Stop { .. } => turn,
    }
}

/// Makes moves until none may be made. Streams that have text take turns: the search for the next begins behind
/// the stream `turn`.
fn fill_out(state: &mut State, alloc: Global, turn: &mut u32) -> Result<(), NoMemory>
    requires { Holds state.old }
    ensures made { OnOk result (Reaches state.old state.new) }
    ensures holds { OnOk result (Holds state.new) }
    ensures filled { OnOk result ((m : Move) → may state.new m ≡ false) }
    ensures failed { OnOk result (is_some state.old.failed ≡ true → state.new ≡ state.old) }
{
    while let Some(next) = next_move(state, *turn) {
        make(state, alloc, next)?;
        *turn = turn_after(next, *turn);
    }
    Ok(())
}

/// Nothing may be written whatever is due: the connection has failed, or as much waits for the socket as may.
fn is_stopped(state: &State) -> bool
    ensures { result ≡ (is_some state.now.failed || nat_le full_out (length state.now.out.bytes)) }
{
    state.failed.is_some() || state.out.len() >= FULL_OUT
}

/// Makes moves until none may be made, and notes whether one is still due.
fn fill_and_note(
    state: &mut State,
    alloc: Global,
    turn: &mut u32,
    due: &mut bool,
) -> Result<(), NoMemory>
    requires { Holds state.old }
    ensures made { OnOk result (Reaches state.old state.new) }
    ensures holds { OnOk result (Holds state.new) }
    ensures filled { OnOk result ((m : Move) → may state.new m ≡ false) }
    ensures failed { OnOk result (is_some state.old.failed ≡ true → state.new ≡ state.old) }
    ensures noted { OnOk result (NotesDue due.new state.new) }
{
    fill_out(state, alloc, turn)?;
    *due = is_stopped(state);
    Ok(())
}

/// Makes moves until none may be made. Where nothing is due, no stream is looked at.
pub fn fill(
    state: &mut State,
    alloc: Global,
    turn: &mut u32,
    due: &mut bool,
) -> Result<(), NoMemory>
    requires holds { Holds state.old }
    requires noted { NotesDue due.old state.old }
    ensures made { OnOk result (Reaches state.old state.new) }
    ensures holds { OnOk result (Holds state.new) }
    ensures filled { OnOk result ((m : Move) → may state.new m ≡ false) }
    ensures failed { OnOk result (is_some state.old.failed ≡ true → state.new ≡ state.old) }
    ensures noted { OnOk result (NotesDue due.new state.new) }
{
    if *due {
        fill_and_note(state, alloc, turn, due)
    } else {
        Ok(())
    }
}
