//! Laws of what an end writes by its calls.

ghost use Rattle.kn_h2_state.specs.declared.role.Role.{Role};
ghost use Rattle.kn_h2.specs.Written.{OpeningIsWritten, CallsAreWritten, FillsAreWritten, OpeningsAreCarried, CallsAreCarried, MovesBring, FillsBring};
ghost use Rattle.kn_h2.specs.Answered.{FramesWrite, PiecesWrite, AnswersBring, PiecesBring};
ghost use Rattle.kn_h2.specs.Spending.{FillsSpend, OpeningsSpendNothing, CallsSpendNothing, AnswersSpendNothing, FramesTakeAll};
ghost use Rattle.kn_h2.specs.Windows.{MoveShifts, MovesShift, ConnectionRises, FramesShift, FramesShiftAll};

use crate::sending::sending_laws;

/// What this end begins with, and what its calls and `fill` append to what waits for the socket, are whole frames
/// within the limits.
pub fn calls_are_written()
    ensures opening { (role : Role) → OpeningIsWritten role }
    ensures calls { CallsAreWritten }
    ensures fills { FillsAreWritten }
{
    kn_h2_state::heads_are_written();
    kn_h2_state::moves_are_written();
}

/// What these bytes bring to a stream, to a reader that stands between two frames: a call brings nothing, but
/// for the end that a reset is; a move brings the text that it takes from the queue, what it grants, and the end.
pub fn written_is_carried()
    ensures opening { OpeningsAreCarried }
    ensures calls { CallsAreCarried }
    ensures moves { MovesBring }
    ensures fills { FillsBring }
{
    calls_are_written();
    kn_h2_state::written_is_read();
    kn_h2_state::moves_are_written();
}

/// What a frame of the peer is answered with are these frames, one by one, and so with a piece of its bytes. They
/// bring nothing to a stream but the end that a reset of the frame's own stream is.
pub fn answers_are_written()
    ensures frames { FramesWrite }
    ensures pieces { PiecesWrite }
    ensures sums { AnswersBring }
    ensures piece_sums { PiecesBring }
{
    kn_h2_state::written_is_read();
}

/// A stream's own sending window falls by exactly what was sent of it, and its receiving window rises by
/// exactly what was granted: at each move, and over a whole `fill`.
pub fn windows_move()
    ensures one { MoveShifts }
    ensures all { MovesShift }
    ensures connection { ConnectionRises }
{}

/// A frame that breaks no rule takes of the receiving window of its stream as much DATA as it brings, and adds to
/// the sending window what it grants and what INITIAL_WINDOW_SIZE rises by; so with the connection's windows.
pub fn windows_follow()
    ensures stream { FramesShift }
    ensures connection { FramesShiftAll }
{}

/// The DATA that `fill` writes, of all streams together, is what the connection's sending window falls by, and nothing
/// else that an end writes has any. The receiving window of the end that reads it falls by as much.
pub fn data_is_spent()
    ensures fills { FillsSpend }
    ensures opening { OpeningsSpendNothing }
    ensures calls { CallsSpendNothing }
    ensures answers { AnswersSpendNothing }
    ensures taken { FramesTakeAll }
{
    calls_are_written();
    written_is_carried();
    answers_are_written();
    windows_follow();
    sending_laws();
    kn_h2_state::written_is_read();
    kn_h2_state::all_data_splits();
}
