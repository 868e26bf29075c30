//! Laws over each call of the agent's node and of the client's.

ghost use Rattle.kn_edge_courses.specs.Holding.{OnlyPausesHoldAtAgents, OnlyPausesHoldAtClients};

/// At the end of each call of the agent's node, and of the client's, a message that was read whole is left at the front
/// of the stream only where a pause holds it, and less than a message only of a server that has not ended the stream.
pub fn only_pauses_hold_what_is_whole()
    ensures agents { OnlyPausesHoldAtAgents }
    ensures clients { OnlyPausesHoldAtClients }
{}
