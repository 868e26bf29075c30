//! The laws of what an app does, and of a client that loses its stream: each is, for the tunnel of each app, one step or none.

ghost use Rattle.std.specs.Prelude.{ℕ, List, false};
ghost use Rattle.kn_packet.specs.declared.packet.Packet.{Packet};
ghost use Rattle.kn_tunnel.specs.Steps.{Follows, start};
ghost use Rattle.kn_packets.specs.Keys.{Keys};
ghost use Rattle.kn_packets.specs.Lifts.{Lifts};
ghost use Rattle.kn_packets.specs.Moves.{AppComes, AppEnds, AppFails, AppHands, AppWrote, ClientLosesStream, May, after};
ghost use Rattle.kn_packets.specs.World.{World, tunnel};

/// What an app does: it comes, its bytes are handed over, bytes are written to it, it ends or fails. The tunnel of a new app is one whose request
/// is on the way; where the stream was there before it, the server may have the front already, or have lost it.
pub fn apps_lift()
    ensures comes { (w : World) (a f number : ℕ) (address : List ℕ) → Keys w → May (AppComes a f number address) w → Lifts w (after (AppComes a f number address) w) }
    ensures starts { (w : World) (a f number : ℕ) (address : List ℕ) → Keys w → May (AppComes a f number address) w
        → Follows (start false) (tunnel (after (AppComes a f number address) w) a) }
    ensures hands { (w : World) (a count : ℕ) → Keys w → May (AppHands a count) w → Lifts w (after (AppHands a count) w) }
    ensures wrote { (w : World) (a count : ℕ) → Keys w → May (AppWrote a count) w → Lifts w (after (AppWrote a count) w) }
    ensures ended { (w : World) (a : ℕ) → Keys w → May (AppEnds a) w → Lifts w (after (AppEnds a) w) }
    ensures failed { (w : World) (a : ℕ) → Keys w → May (AppFails a) w → Lifts w (after (AppFails a) w) }
{}

/// A client loses its stream: its apps are refused, leave, or drain first.
pub fn client_losses_lift()
    ensures loses { (w : World) (f : ℕ) (left : List Packet) (error : List ℕ) → Keys w → May (ClientLosesStream f left error) w
        → Lifts w (after (ClientLosesStream f left error) w) }
{}
