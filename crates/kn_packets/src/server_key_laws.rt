//! The facts on keys are kept by what the server does.

ghost use Rattle.std.specs.Prelude.{◌≡◌, ℕ, List, true};
ghost use Rattle.kn_packet.specs.declared.packet.Packet.{Packet};
ghost use Rattle.kn_route.specs.declared.id_kind.IdKind.{IdKind};
ghost use Rattle.kn_packets.specs.Keys.{Keys};
ghost use Rattle.kn_packets.specs.Moves.{FrontComes, LinkComes, May, ServerLosesFront, ServerLosesLink, ServerTakesIn, ServerTakesUp, after};
ghost use Rattle.kn_packets.specs.World.{World};

/// The facts on keys are kept where a link or a front comes up, the server takes the first packet of one, or loses it.
pub fn server_keeps_keys()
    ensures link_comes { (w : World) (l : ℕ) (identifiers : List (IdKind × List ℕ)) → Keys w → May (LinkComes l identifiers) w → Keys (after (LinkComes l identifiers) w) }
    ensures front_comes { (w : World) (f : ℕ) → Keys w → May (FrontComes f) w → Keys (after (FrontComes f) w) }
    ensures takes_up { (w : World) (l : ℕ) → Keys w → May (ServerTakesUp l) w → Keys (after (ServerTakesUp l) w) }
    ensures link_lost { (w : World) (l : ℕ) (left : List Packet) → Keys w → May (ServerLosesLink l left) w → Keys (after (ServerLosesLink l left) w) }
    ensures takes_in { (w : World) (f : ℕ) → Keys w → May (ServerTakesIn f) w → Keys (after (ServerTakesIn f) w) }
    ensures front_lost { (w : World) (f : ℕ) (left : List Packet) → Keys w → May (ServerLosesFront f left) w → Keys (after (ServerLosesFront f left) w) }
{}
