use kn_packet::Packet;
use kn_route::Identifiers;

/// What happens at the server. A link is the stream of an agent, a front that of a client; each has a number.
#[derive(Drop)]
pub enum ServerEvent {
    /// An agent's link comes up, with a number above those of all earlier links.
    LinkUp { link: u64, identifiers: Identifiers },
    /// A packet came from a link.
    LinkPacket { link: u64, packet: Packet },
    /// A link ended or was lost.
    LinkLost { link: u64 },
    /// A client's front comes up, with a number above those of all earlier fronts.
    FrontUp { front: u64 },
    /// A packet came from a front.
    FrontPacket { front: u64, packet: Packet },
    /// A front ended or was lost.
    FrontLost { front: u64 },
}

/// What the server gives out.
#[derive(Drop)]
pub enum ServerOut {
    /// A packet goes to a link.
    ToLink { link: u64, packet: Packet },
    /// A packet goes to a front.
    ToFront { front: u64, packet: Packet },
    /// A link is to be ended, since its agent breaks the rules.
    CutLink { link: u64 },
    /// A dial drew its number and goes to a link.
    Made { dial: u64, link: u64, front: u64 },
}
