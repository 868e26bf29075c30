//! Laws over what a node does, whatever bytes come.

ghost use Rattle.kn_server_node.specs.ChoiceRuns.{CallsNoteChoices};
ghost use Rattle.kn_server_node.specs.FrontRooms.{EventsDropNone, StepsAreInTime};
ghost use Rattle.kn_server_node.specs.CoreEvents.{CallsAreHeard, BytesStayInTunnels, OthersEndNoTunnel, CoresAreOrderly};

/// Each call is a list of events that the core hears: of each packet the one of the stream that it stood on, and of each
/// call, head and loss its own.
pub fn calls_are_heard()
    ensures { CallsAreHeard }
{}

/// A call notes exactly the choices of links that the core makes at the events that it hears, in order, and each once.
pub fn calls_note_their_choices()
    ensures { CallsNoteChoices }
{}

/// Over all calls from the start: what is queued to the front of a tunnel is what came for it on the stream of the link
/// that holds it, and what is queued to that link is what came on the front's.
pub fn bytes_stay_in_tunnels()
    ensures tunnels { BytesStayInTunnels }
    ensures orderly { CoresAreOrderly }
{}

/// A call that brings the core no event of a tunnel's link or front leaves that tunnel as it is: a bad link ends no
/// other link's tunnel.
pub fn bad_links_end_no_other_tunnel()
    ensures { OthersEndNoTunnel }
{}

/// An event that comes in time drops no packet for a front, and leaves room for all that may still come; and what a step
/// brings the core comes in time, since all else waits.
pub fn no_packet_for_a_front_is_dropped()
    ensures events { EventsDropNone }
    ensures steps { StepsAreInTime }
{}
