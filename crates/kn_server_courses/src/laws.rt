//! Laws over all that calls and steps lead to from a new node.

ghost use Rattle.kn_server_courses.specs.Courses.{FrontsHaveRoom, NoneIsDropped, DialsDropNone, CallsAreDeeds};
ghost use Rattle.kn_server_courses.specs.Holding.{OnlyPausesHold, OnlyPausesHoldText, OnlyPausesHoldEarly};

/// Whatever comes, each front stands alone on its stream and at most 4,644,864 bytes wait for it; and no step drops a
/// packet for a front as one too many.
pub fn no_packet_for_a_front_is_ever_dropped()
    ensures room { FrontsHaveRoom }
    ensures steps { NoneIsDropped }
    ensures dials { DialsDropNone }
{}

/// What whole calls lead to is what their own parts and their steps lead to, one after another.
pub fn calls_are_deeds()
    ensures { CallsAreDeeds }
{}

/// At the end of each call a message that was read whole is left at the front of a stream only where a pause holds it,
/// text that was not read only behind such a message, and early bytes of a connection by CONNECT only where they wait.
pub fn only_pauses_hold_what_is_whole()
    ensures messages { OnlyPausesHold }
    ensures text { OnlyPausesHoldText }
    ensures early { OnlyPausesHoldEarly }
{}
