ghost use Rattle.kn_facing.specs.Taken.{DataIsTaken, LastDataIsTaken, RequestIsTaken, ResponseIsTaken, TrailersAreTaken, ResetIsTaken, GrantIsTaken, StreamGrantIsTaken, ClientSettingsAreTaken, ServerSettingsAreTaken, AcknowledgementIsTaken};
ghost use Rattle.kn_facing.specs.Sums.{FramesTake, FramesGrant, MovesShiftBoth, CallsLeaveBoth};
ghost use Rattle.kn_facing.specs.Faces.{FacesTurn, FramesKeepFaces, StepsKeepFaces, TakesKeepFaces, TookKeepsFaces, QueuesKeepFaces, FinishesKeepFaces, FacesBegin, MovesKeepFaces, BeginKeepsFaces, AnswerKeepsFaces, EndKeepsFaces, StopKeepsFaces, ClientEndKeepsFaces};
ghost use Rattle.kn_facing.specs.Wires.{WritesBehind, EntersAlike, ReadingKeepsFaces, FacesHaveOneStream, HalvesStayOpen, FacesKeepHalves, UnendedStaysOpen, UnendedIsHeard};
ghost use Rattle.kn_facing.specs.Pairs.{FacingTurns, FacingBegins, PiecesKeepFacing, EntersKeepFacing, StepsKeepFacing};
ghost use Rattle.kn_facing.specs.Laws.{AcceptsJoin, AcceptsPart, NoFaultBefore, ReadsOn, OwnStepsTake, StaysFollowed, FewAreRead, MoreAreTaken, FramesKeepFollowed};

/// Frames that come behind others are looked at once these were read.
pub fn frames_are_taken_in_turn()
    ensures join { AcceptsJoin }
    ensures part { AcceptsPart }
{}

/// A piece of what is on its way is no fault where all of it ends between two frames, and leaves the rest on
/// its way.
pub fn pieces_are_read()
    ensures sound { NoFaultBefore }
    ensures rest { ReadsOn }
{}

/// What an end does of its own leaves it taking all that is on its way, and hearing at least as much behind it.
pub fn own_steps_take()
    ensures { OwnStepsTake }
{
    kn_h2_state::more_is_heard();
}

/// Text of ours is taken: it fits the windows, and the half is open.
pub fn text_is_taken()
    ensures goes_on { DataIsTaken }
    ensures ends { LastDataIsTaken }
{}

/// The head of a call, that of an answer, and what ends one break no rule, each in one frame.
pub fn heads_are_taken()
    ensures requests { RequestIsTaken }
    ensures responses { ResponseIsTaken }
    ensures trailers { TrailersAreTaken }
{}

/// Nor do the other frames that our ends write: resets, grants, SETTINGS, and what acknowledges these.
pub fn other_frames_are_taken()
    ensures resets { ResetIsTaken }
    ensures grants { GrantIsTaken }
    ensures stream_grants { StreamGrantIsTaken }
    ensures client { ClientSettingsAreTaken }
    ensures server { ServerSettingsAreTaken }
    ensures acknowledged { AcknowledgementIsTaken }
{}

/// What the other end may write next is still taken once this one hears at least as much.
pub fn followed_stays()
    ensures { StaysFollowed }
{}

/// Frames that break no rule are all read: the replies that they may ask for have room, and no stream is one too
/// many.
pub fn few_are_read()
    ensures { FewAreRead }
{
    kn_h2_state::opened_is_above();
    kn_h2::frames_keep();
}

/// A frame that breaks no rule takes of what may come on a stream what its DATA has, and adds to what may go what
/// it grants: for a stream that is not begun yet both are whole.
pub fn frames_move_windows()
    ensures takes { FramesTake }
    ensures grants { FramesGrant }
{
    kn_h2_state::opened_is_above();
    kn_h2::windows_follow();
}

/// A move takes of what may go on a stream what it sends, and adds to what may come what it grants; a call changes
/// neither.
pub fn own_steps_move_windows()
    ensures moves { MovesShiftBoth }
    ensures calls { CallsLeaveBoth }
{
    kn_h2_state::own_steps_are_heard();
    kn_h2::sending_laws();
    kn_h2::windows_move();
}

/// What an end takes of what is on its way, it still takes where it hears at least as much, as after each step of its
/// own.
pub fn more_are_taken()
    ensures { MoreAreTaken }
{
    kn_h2_state::more_is_heard();
    kn_h2_state::opened_is_above();
    kn_h2::frames_keep();
    kn_h2::role_stays();
}

/// A frame that an end reads leaves the other end taking what it may write next: what was open is not opened again,
/// and a stream that comes is at the client as it began.
pub fn frames_keep_followed()
    ensures { FramesKeepFollowed }
{
    kn_h2_state::opened_is_above();
    kn_h2_state::answered_is_kept();
}

/// Two ends that face each other do so whichever of them is named first.
pub fn faces_turn()
    ensures { FacesTurn }
{}

/// Two ends that face each other do so once one of them has read the first frame that is on its way to it, and
/// acknowledged it if it is SETTINGS.
pub fn frames_keep_faces()
    ensures { FramesKeepFaces }
{
    kn_h2_state::more_is_heard();
    kn_h2_state::opened_is_above();
    kn_h2_state::answered_is_kept();
    kn_h2_state::own_steps_are_heard();
    kn_h2_state::own_facts_stay();
    kn_h2::frames_keep();
    kn_h2::role_stays();
    kn_h2::windows_follow();
}

/// So they do after any step of one end's own whose frames the other takes behind those that are on their way, and
/// where replies have room.
pub fn steps_keep_faces()
    ensures { StepsKeepFaces }
{
    kn_h2_state::more_is_heard();
    kn_h2_state::opened_is_above();
    kn_h2_state::answered_is_kept();
    kn_h2_state::own_steps_are_heard();
    kn_h2_state::own_facts_stay();
    kn_h2::frames_keep();
    kn_h2::role_stays();
    kn_h2::windows_follow();
}

/// So they do where text is taken, where what waits for the socket goes on its way, where bytes are queued, at a
/// server on a stream that is answered, and where an end is asked for there.
pub fn calls_keep_faces()
    ensures takes { TakesKeepFaces }
    ensures took { TookKeepsFaces }
    ensures queues { QueuesKeepFaces }
    ensures finishes { FinishesKeepFaces }
{
    kn_h2_state::more_is_heard();
    kn_h2_state::opened_is_above();
    kn_h2_state::answered_is_kept();
    kn_h2_state::own_steps_are_heard();
    kn_h2_state::own_facts_stay();
    kn_h2::frames_keep();
    kn_h2::role_stays();
    kn_h2::windows_follow();
}

/// A new client's end and a new server's face each other, with their openings on their way.
pub fn faces_begin()
    ensures { FacesBegin }
{
    kn_h2_state::own_facts_stay();
    kn_h2::frames_keep();
}

/// So they do where an end grants what it has taken, or sends text: the other end takes these frames.
pub fn moves_keep_faces()
    ensures { MovesKeepFaces }
{
    kn_h2_state::more_is_heard();
    kn_h2_state::opened_is_above();
    kn_h2_state::answered_is_kept();
    kn_h2_state::own_steps_are_heard();
    kn_h2_state::own_facts_stay();
    kn_h2_state::written_is_read();
    kn_h2_state::moves_are_written();
    kn_h2::frames_keep();
    kn_h2::role_stays();
    kn_h2::windows_follow();
    kn_h2::windows_move();
    kn_h2::written_is_carried();
    kn_h2::sending_laws();
}

/// So they do where a client begins its one stream, by a head that is a request and stands in one frame.
pub fn begin_keeps_faces()
    ensures { BeginKeepsFaces }
{
    kn_h2_state::more_is_heard();
    kn_h2_state::opened_is_above();
    kn_h2_state::answered_is_kept();
    kn_h2_state::own_steps_are_heard();
    kn_h2_state::own_facts_stay();
    kn_h2_state::next_block_is_read();
    kn_h2::frames_keep();
    kn_h2::role_stays();
    kn_h2::windows_follow();
}

/// So they do where a server answers a stream for the first time, by the head of a response that stands in one frame.
pub fn answer_keeps_faces()
    ensures { AnswerKeepsFaces }
{
    kn_h2_state::more_is_heard();
    kn_h2_state::opened_is_above();
    kn_h2_state::answered_is_kept();
    kn_h2_state::own_steps_are_heard();
    kn_h2_state::own_facts_stay();
    kn_h2_state::next_block_is_read();
    kn_h2::frames_keep();
    kn_h2::role_stays();
    kn_h2::windows_follow();
}

/// So they do where a server ends its half of a stream by trailers that stand in one frame, where it tells a client
/// that goes on to stop, and where a client ends its half by an empty DATA frame.
pub fn ends_keep_faces()
    ensures trailers { EndKeepsFaces }
    ensures stops { StopKeepsFaces }
    ensures client { ClientEndKeepsFaces }
{
    kn_h2_state::more_is_heard();
    kn_h2_state::opened_is_above();
    kn_h2_state::answered_is_kept();
    kn_h2_state::own_steps_are_heard();
    kn_h2_state::own_facts_stay();
    kn_h2_state::next_block_is_read();
    kn_h2_state::written_is_read();
    kn_h2_state::moves_are_written();
    kn_h2::frames_keep();
    kn_h2::role_stays();
    kn_h2::windows_follow();
    kn_h2::windows_move();
    kn_h2::written_is_carried();
    kn_h2::sending_laws();
}

/// Frames that one end writes come behind those that are on their way, and what goes on its way changes nothing of
/// what comes.
pub fn wires_carry_frames()
    ensures writes { WritesBehind }
    ensures enters { EntersAlike }
{
    kn_h2_state::written_is_read();
}

/// Two ends that face each other do so once one has read any number of the frames that are on their way to it; it
/// answers them with what acknowledges SETTINGS, and with nothing else.
pub fn reading_keeps_faces()
    ensures { ReadingKeepsFaces }
{
    kn_h2_state::more_is_heard();
    kn_h2_state::opened_is_above();
    kn_h2_state::answered_is_kept();
    kn_h2_state::own_steps_are_heard();
    kn_h2_state::own_facts_stay();
    kn_h2::frames_keep();
    kn_h2::role_stays();
    kn_h2::windows_follow();
}

/// Of two ends that face each other neither has failed, and neither has a stream but the first, nor text of another.
pub fn faces_have_one_stream()
    ensures { FacesHaveOneStream }
{}

/// Over bytes: a client's end and a server's face each other from the beginning, and go on so where any piece of what
/// is on its way is delivered, where what waits goes on its way, and after each step of an end's own of which the
/// other laws say so.
pub fn facing_goes_on()
    ensures turns { FacingTurns }
    ensures begins { FacingBegins }
    ensures pieces { PiecesKeepFacing }
    ensures enters { EntersKeepFacing }
    ensures steps { StepsKeepFacing }
{
    faces_begin();
    calls_keep_faces();
    wires_carry_frames();
    reading_keeps_faces();
    kn_h2_state::written_is_read();
    kn_h2::calls_are_written();
    kn_h2::answers_are_written();
}

/// Frames that are taken, none of which ends a stream, leave the peer's half of it open; so do the first of those that
/// are on their way between two ends that face each other, and all of them while their writer has not ended its half.
pub fn halves_stay_open()
    ensures frames { HalvesStayOpen }
    ensures faces { FacesKeepHalves }
    ensures unended { UnendedStaysOpen }
{
    kn_h2_state::more_is_heard();
    kn_h2_state::opened_is_above();
    kn_h2_state::answered_is_kept();
    kn_h2_state::own_steps_are_heard();
    kn_h2_state::own_facts_stay();
    kn_h2::frames_keep();
    kn_h2::role_stays();
    kn_h2::windows_follow();
}

/// Of two ends that face each other, as long as the one has not ended its half of a stream, the other hears all that
/// it writes on it: each frame on its way adds to the text of the stream what it brings, also where the stream is yet
/// to come.
pub fn unended_streams_are_heard()
    ensures { UnendedIsHeard }
{
    kn_h2_state::more_is_heard();
    kn_h2_state::opened_is_above();
    kn_h2_state::answered_is_kept();
    kn_h2_state::own_steps_are_heard();
    kn_h2_state::own_facts_stay();
    kn_h2_state::text_grows();
    kn_h2_state::frames_are_heard();
    kn_h2::frames_keep();
    kn_h2::role_stays();
    kn_h2::windows_follow();
}
