//! The facts on keys, beside what agents and destinations do: at the start, and as streams begin and CONNECT apps come, take and leave.

ghost use Rattle.std.specs.Prelude.{◌≡◌, ℕ, List, true};
ghost use Rattle.kn_packet.specs.declared.packet.Packet.{Packet};
ghost use Rattle.kn_route.specs.declared.strategy.Strategy.{Strategy};
ghost use Rattle.kn_packets.specs.Keys.{Keys};
ghost use Rattle.kn_packets.specs.Moves.{AppHands, AppSends, ConnectComes, ConnectLeaves, ConnectTakes, DropsIn, DropsOut, JoinsIn, May, StreamBegins, StreamIsNumbered, after, start};
ghost use Rattle.kn_packets.specs.World.{World};

/// At the start no link, no stream and no app is there, so all that is said of them holds.
pub fn keys_hold_at_the_start()
    ensures start { (strategies : List Strategy) → Keys (start strategies) }
{}

/// The facts on keys are kept as a stream begins or gets its number, an app sends, and an end drops what the other sent before it lost the stream; and by what a
/// CONNECT app does.
pub fn connections_keep_keys()
    ensures begins { (w : World) (f c : ℕ) → Keys w → May (StreamBegins f c) w → Keys (after (StreamBegins f c) w) }
    ensures numbered { (w : World) (f g : ℕ) → Keys w → May (StreamIsNumbered f g) w → Keys (after (StreamIsNumbered f g) w) }
    ensures sends { (w : World) (a : ℕ) (bytes : List ℕ) → Keys w → Keys (after (AppSends a bytes) w) }
    ensures drops_in { (w : World) (f : ℕ) → Keys w → May (DropsIn f) w → Keys (after (DropsIn f) w) }
    ensures drops_out { (w : World) (f : ℕ) → Keys w → May (DropsOut f) w → Keys (after (DropsOut f) w) }
    ensures comes { (w : World) (a f : ℕ) (address : List ℕ) → Keys w → May (ConnectComes a f address) w → Keys (after (ConnectComes a f address) w) }
    ensures takes { (w : World) (f : ℕ) → Keys w → May (ConnectTakes f) w → Keys (after (ConnectTakes f) w) }
    ensures leaves { (w : World) (f : ℕ) (left : List Packet) → Keys w → May (ConnectLeaves f left) w → Keys (after (ConnectLeaves f left) w) }
    ensures hands { (w : World) (a count : ℕ) → Keys w → May (AppHands a count) w → (w.streams (w.apps a).stream).connect ≡ true
        → Keys (after (AppHands a count) w) }
    ensures joins { (w : World) (f : ℕ) → Keys w → May (JoinsIn f) w → Keys (after (JoinsIn f) w) }
{}
