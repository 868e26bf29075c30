//! The laws of the server's moves: each is, for the tunnel of each app, one step or none.

ghost use Rattle.std.specs.Prelude.{◌≡◌, ◌∷◌, ℕ, ℤ, List, true};
ghost use Rattle.kn_packet.specs.declared.packet.Packet.{Packet};
ghost use Rattle.kn_packet.specs.declared.packet.Packet.TheVariants.{DialReq};
ghost use Rattle.kn_tunnel.specs.Kinds.{is_present};
ghost use Rattle.kn_route.specs.declared.id_kind.IdKind.{IdKind};
ghost use Rattle.kn_packets.specs.Keys.{Keys};
ghost use Rattle.kn_packets.specs.Lifts.{Lifts};
ghost use Rattle.kn_packets.specs.Moves.{FrontComes, LinkComes, May, ServerLosesFront, ServerLosesLink, ServerTakesIn, ServerTakesUp, after};
ghost use Rattle.kn_packets.specs.World.{World};

/// The server takes a DIAL_REQ: the dial of its app is refused, or drawn and sent to an agent.
pub fn server_takes_dial_request_lifts()
    ensures request { (w : World) (f : ℕ) (protocol address : List ℕ) (random : ℤ) (rest : List Packet) → Keys w
        → (w.streams f).up ≡ DialReq protocol address random ∷ rest → is_present (w.streams f).front ≡ true
        → Lifts w (after (ServerTakesIn f) w) }
{}

/// The server takes the first packet of a link or of a front, whatever it is.
pub fn server_takes_packets_lift()
    ensures from_links { (w : World) (l : ℕ) → Keys w → May (ServerTakesUp l) w → Lifts w (after (ServerTakesUp l) w) }
    ensures from_fronts { (w : World) (f : ℕ) → Keys w → May (ServerTakesIn f) w → Lifts w (after (ServerTakesIn f) w) }
{}

/// A link or a front comes up at the server, or the server loses it: by a loss, a cut, or the end of a connection that is done.
pub fn server_comings_and_losses_lift()
    ensures link_comes { (w : World) (l : ℕ) (identifiers : List (IdKind × List ℕ)) → May (LinkComes l identifiers) w → Lifts w (after (LinkComes l identifiers) w) }
    ensures front_comes { (w : World) (f : ℕ) → May (FrontComes f) w → Lifts w (after (FrontComes f) w) }
    ensures link_lost { (w : World) (l : ℕ) (left : List Packet) → Keys w → May (ServerLosesLink l left) w → Lifts w (after (ServerLosesLink l left) w) }
    ensures front_lost { (w : World) (f : ℕ) (left : List Packet) → Keys w → May (ServerLosesFront f left) w → Lifts w (after (ServerLosesFront f left) w) }
{}
