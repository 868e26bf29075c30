//! The facts on keys are kept by the moves of a client and of its apps.

ghost use Rattle.std.specs.Prelude.{◌≡◌, ℕ, List, false, true};
ghost use Rattle.kn_packet.specs.declared.packet.Packet.{Packet};
ghost use Rattle.kn_packets.specs.Keys.{Keys};
ghost use Rattle.kn_packets.specs.Moves.{AppComes, AppEnds, AppFails, AppHands, AppWrote, ClientLosesStream, ClientTakes, May, after};
ghost use Rattle.kn_packets.specs.World.{World};

/// The facts on keys are kept by what a client takes, by the loss of its stream, and by what its apps do: they come, hand over bytes, take bytes,
/// end or fail. (Of a CONNECT app, which has no client, `hands` says nothing.)
pub fn clients_keep_keys()
    ensures takes { (w : World) (f : ℕ) → Keys w → May (ClientTakes f) w → Keys (after (ClientTakes f) w) }
    ensures wrote { (w : World) (k count : ℕ) → Keys w → May (AppWrote k count) w → Keys (after (AppWrote k count) w) }
    ensures ends { (w : World) (k : ℕ) → Keys w → May (AppEnds k) w → Keys (after (AppEnds k) w) }
    ensures fails { (w : World) (k : ℕ) → Keys w → May (AppFails k) w → Keys (after (AppFails k) w) }
    ensures hands { (w : World) (k count : ℕ) → Keys w → May (AppHands k count) w → (w.streams (w.apps k).stream).connect ≡ false → Keys (after (AppHands k count) w) }
    ensures comes { (w : World) (k f n : ℕ) (address : List ℕ) → Keys w → May (AppComes k f n address) w → Keys (after (AppComes k f n address) w) }
    ensures loses { (w : World) (f : ℕ) (left : List Packet) (error : List ℕ) → Keys w → May (ClientLosesStream f left error) w → Keys (after (ClientLosesStream f left error) w) }
{}
