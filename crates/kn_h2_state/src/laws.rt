ghost use Rattle.std.specs.Prelude.{◌≡◌, ℕ, List, None};
ghost use Rattle.kn_frames.specs.Readers.{Reading};
ghost use Rattle.kn_h2_state.specs.declared.state.State.{State};
ghost use Rattle.kn_h2_state.specs.Telling.{FramesTell, CallsTell, MovesAreQuiet, TextIsTold};
ghost use Rattle.kn_h2_state.specs.Wire.{WireSplits, AllDataSplits, NoneOfEachIsNone, WrittenIsRead, HeadIsWritten, MovesAreWritten, FramesAreAnswered};
ghost use Rattle.kn_h2_state.specs.Laws.{AnyPieces, FailsFirst, FramesLeaveOthers, MovesLeaveOthers, CallsLeaveOthers, BeginsLeaveOthers, TextGrows};
ghost use Rattle.kn_h2_state.specs.Hearing.{FramesAreHeard, ClosedTextStays, ClosedStaysClosed};
ghost use Rattle.kn_h2_state.specs.InStep.{NextIsRead, OwnBlocksAreShort};
ghost use Rattle.kn_h2_state.specs.Preorder.{MoreIsHeard, FramesKeepMore, MoreIsAccepted, OwnStepsAreHeard, HearsMoreInTurn, OwnFactsBegin, OwnFactsAreKept};
ghost use Rattle.kn_h2_state.specs.Own.{FramesLeaveOwn, PiecesLeaveOwn, OverStaysOver};
ghost use Rattle.kn_h2_state.specs.Waiting.{WaitsForAnswerFirst, WaitsForAnswerStays, PiecesWaitForAnswer};
ghost use Rattle.kn_h2_state.specs.Brought.{FramesBringText, PiecesBringText};
ghost use Rattle.kn_h2_state.specs.Settings.{SettingsAtOnce, LastFits};
ghost use Rattle.kn_h2_state.specs.Opening.{FramesOpenAbove, AnsweredIsKept};

/// While a connection has not failed, two pieces of its bytes are as good as their join.
pub fn any_pieces()
    ensures { AnyPieces }
{}

/// A connection fails with a code exactly where one of the frames is the first to break a rule, and with
/// that rule's code, or the reply to one is the one too many.
pub fn fails_first()
    ensures { FailsFirst }
{}

/// What a frame, a move or a call does to its own stream leaves every other stream alone: a frame changes
/// no more of another one than its windows, and the others change nothing of it.
pub fn others_are_left()
    ensures frames { FramesLeaveOthers }
    ensures moves { MovesLeaveOthers }
    ensures calls { CallsLeaveOthers }
    ensures begins { BeginsLeaveOthers }
{}

/// A frame that breaks no rule appends the content of DATA on an open stream to the text of that stream
/// that nobody took, and changes no other text, unless it resets the stream.
pub fn text_grows()
    ensures { TextGrows }
{}

/// What frames in any bytes bring to a stream, grant it, take of its window, and how often they end it:
/// of joined bytes each is that of the first part and that of the second, from any reader.
pub fn wire_splits()
    ensures { (n : ℕ) (r : Reading) (xs ys : List ℕ) → WireSplits n r xs ys }
{}

/// So with the DATA of all streams together, of which frames have none where they bring no stream DATA.
pub fn all_data_splits()
    ensures sum { AllDataSplits }
    ensures none { NoneOfEachIsNone }
{}

/// Frames within the limits are read back as they were written, one behind the other.
pub fn written_is_read()
    ensures { WrittenIsRead }
{
    kn_frames::read_as_written();
}

/// A header block is written as HEADERS and CONTINUATION frames whose payloads are the block.
pub fn heads_are_written()
    ensures { (n flags : ℕ) (block : List ℕ) → HeadIsWritten n flags block }
{}

/// What a move writes are whole frames within the limits, and the text that they bring to a stream is
/// what the move took from its queue.
pub fn moves_are_written()
    ensures { MovesAreWritten }
{}

/// What a frame of the peer is answered with are whole frames within the limits: resets,
/// acknowledgements, and the GOAWAY of a failure.
pub fn frames_are_answered()
    ensures { FramesAreAnswered }
{}

/// A connection tells its end exactly where it fails, with the code, as its last event: at a frame, and
/// where `answer` or `reset` writes the reply that is one too many. Moves and other calls tell nothing.
pub fn ends_are_told()
    ensures frames { FramesTell }
    ensures calls { (s : State) (n : ℕ) → s.failed ≡ None → CallsTell s n }
    ensures moves { MovesAreQuiet }
{}

/// Text of a frame comes with its event.
pub fn text_is_told()
    ensures { TextIsTold }
{}

/// While the peer's half of a stream stays open and the connection does not fail, the text that nobody took
/// is the text before, followed by the contents of the stream's DATA frames, in order. A reset of another
/// stream does not matter.
pub fn frames_are_heard()
    ensures { FramesAreHeard }
{}

/// Where the peer's half of a stream is closed, only a reset of the stream itself changes its text, and where
/// the stream is closed, no frame does. A half that has closed stays closed.
pub fn closed_text_stays()
    ensures frame { ClosedTextStays }
    ensures frames { ClosedStaysClosed }
{}

/// A stream that is told as opened has a number above all that were opened before.
pub fn opened_is_above()
    ensures { FramesOpenAbove }
{}

/// At a server only `answer` on the very stream answers it: a stream that comes is not answered, and through
/// frames, moves and other calls each that stays is answered or not as it was.
pub fn answered_is_kept()
    ensures { AnsweredIsKept }
{}

/// The next block of an encoder is read as its list by a decoder that read all earlier ones, which then keeps
/// no field, and none from the first block on.
pub fn next_block_is_read()
    ensures { NextIsRead }
{
    kn_hpack::round_trip_laws();
    kn_hpack::block_laws();
}

/// A header block of an own encoder is at most one byte longer than what its list counts: of a list within the limit of
/// 16,384 bytes at most 16,385, where a reader takes 32,768.
pub fn own_blocks_are_short()
    ensures { OwnBlocksAreShort }
{}

/// Of two states one of which hears at least as much: a frame that breaks no rule in the other breaks none in
/// this one, which hears at least as much after it too; and so through a list of frames.
pub fn more_is_heard()
    ensures rules { MoreIsHeard }
    ensures frames { FramesKeepMore }
    ensures lists { MoreIsAccepted }
{}

/// After each step of its own, an end hears at least as much of the peer as before: a move, or a call. One that
/// hears as much as a second, which hears as much as a third, hears as much as this.
pub fn own_steps_are_heard()
    ensures steps { OwnStepsAreHeard }
    ensures turns { HearsMoreInTurn }
{}

/// What these laws rest on holds of a new connection, and goes on to hold through frames, moves and calls: no
/// header block of a client is of a stream that it never began, and an end tells its peer to stop only where its
/// own half has ended.
pub fn own_facts_stay()
    ensures first { OwnFactsBegin }
    ensures kept { OwnFactsAreKept }
{}

/// Settings that are taken in turn change what the last of each kind changes, and bring no window over the
/// largest by it where none in turn does.
pub fn settings_at_once()
    ensures once { SettingsAtOnce }
    ensures fits { LastFits }
{}

/// What the peer's frames leave of this end's half of a stream that was opened: all that waits, and whether it is
/// open, or nothing. Only RST_STREAM, and at a client a header block, may end it, and it never opens again.
pub fn own_half_stays()
    ensures frames { FramesLeaveOwn }
    ensures pieces { PiecesLeaveOwn }
    ensures over { OverStaysOver }
{}

/// At a server nothing waits to be sent on a stream that is not answered: so of a new connection, and it goes on to
/// be so through frames, pieces of bytes, moves and calls.
pub fn nothing_waits_for_its_answer()
    ensures first { WaitsForAnswerFirst }
    ensures stays { WaitsForAnswerStays }
    ensures pieces { PiecesWaitForAnswer }
{}

/// Over a frame, and over a piece of the peer's bytes, the text of a stream that nobody took stays as it is, or is
/// gone with a reset, or that there is text is among what was told behind the other events.
pub fn text_comes_with_its_event()
    ensures frames { FramesBringText }
    ensures pieces { PiecesBringText }
{}
