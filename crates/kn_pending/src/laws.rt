ghost use Rattle.kn_pending.specs.Facing.{FacingDelivers};
ghost use Rattle.kn_pending.specs.Packets.{AreRead, CutsLeaveFronts, NoneIsBad, NothingLeft, QueuedLast, TakenFirst};
ghost use Rattle.kn_pending.specs.Pending.{Admits, Between, ClosedStays, Delivers, DeliversHeard, Enters, GentleReset, Handles, KeepsBehind, LeavesFront, Queues, QueueStays, Reads, Writes, WritesNothing};
ghost use Rattle.kn_pending.specs.Standings.{DropsLast, HandlesFirst, LosesSome, QueuesLast};

/// What each step of two ends does to what is pending on a stream: bytes go from its front as they are handled, and come to its end as
/// they are queued; all else leaves it as it is. Where the sender loses its end, a front of it is left.
pub fn pending_moves()
    ensures delivers { Delivers }
    ensures heard { DeliversHeard }
    ensures gentle { GentleReset }
    ensures closed { ClosedStays }
    ensures enters { Enters }
    ensures reads { Reads }
    ensures handles { Handles }
    ensures queues { Queues }
    ensures behind { KeepsBehind }
    ensures admits { Admits }
    ensures writes { Writes }
    ensures nothing { WritesNothing }
    ensures between { Between }
    ensures stays { QueueStays }
    ensures left { LeavesFront }
{
    kn_h2::calls_are_written();
    kn_h2::written_is_carried();
    kn_h2::sending_laws();
    kn_h2_state::frames_are_heard();
    kn_h2_state::closed_text_stays();
    kn_h2_state::wire_splits();
}

/// Between two ends that face each other a piece that is delivered changes nothing of what is pending, as long as the
/// sender has not ended its half of the stream: also where the stream is yet to come.
pub fn facing_delivers()
    ensures { FacingDelivers }
{
    kn_h2_state::wire_splits();
    kn_facing::pieces_are_read();
    kn_facing::facing_goes_on();
    kn_facing::unended_streams_are_heard();
}

/// Packets on their way are read as they were sent, each may be queued behind the others and handled before them, and none is bad. Whatever
/// is cut off at their end, what is left begins with the first of them.
pub fn packets_on_their_way()
    ensures read { AreRead }
    ensures cut { CutsLeaveFronts }
    ensures queued { QueuedLast }
    ensures taken { TakenFirst }
    ensures sound { NoneIsBad }
    ensures over { NothingLeft }
{
    kn_grpc::first_packet_of();
    kn_grpc::read_as_written();
    kn_grpc::first_as_spelled();
}

/// How a list of packets stands to the bytes that are pending, through the steps of an end.
pub fn lists_stand_to_bytes()
    ensures handles { HandlesFirst }
    ensures queues { QueuesLast }
    ensures drops { DropsLast }
    ensures loses { LosesSome }
{
    kn_grpc::first_packet_of();
    kn_grpc::read_as_written();
    kn_grpc::first_as_spelled();
}
