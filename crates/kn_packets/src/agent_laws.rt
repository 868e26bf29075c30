//! The laws of an agent's moves: each is, for the tunnel of each app, one step or none.

ghost use Rattle.std.specs.Prelude.{◌≡◌, ℕ, List, true};
ghost use Rattle.kn_packet.specs.declared.packet.Packet.{Packet};
ghost use Rattle.kn_packets.specs.Keys.{Keys};
ghost use Rattle.kn_packets.specs.Lifts.{Lifts};
ghost use Rattle.kn_packets.specs.Moves.{AgentDrains, AgentLosesLink, AgentTakes, DestinationEnds, DestinationFails, DestinationHands, DestinationSends, DestinationWrote, DialFailed, DialWon, DropsDown, DropsUp, May, after};
ghost use Rattle.kn_packets.specs.World.{World};

/// The losses of an agent's link: the agent loses it, or one end drops what the other sent before it lost it. And the agent's word that it
/// wants no further dials.
pub fn agent_losses_lift()
    ensures drains { (w : World) (l : ℕ) → Keys w → May (AgentDrains l) w → Lifts w (after (AgentDrains l) w) }
    ensures loses { (w : World) (l : ℕ) (left : List Packet) → Keys w → May (AgentLosesLink l left) w → Lifts w (after (AgentLosesLink l left) w) }
    ensures drops_up { (w : World) (l : ℕ) → May (DropsUp l) w → Lifts w (after (DropsUp l) w) }
    ensures drops_down { (w : World) (l : ℕ) → May (DropsDown l) w → Lifts w (after (DropsDown l) w) }
{}

/// A dial wins its connection, which draws a connectID, or fails.
pub fn agent_dials_lift()
    ensures wins { (w : World) (l ticket : ℕ) → Keys w → May (DialWon l ticket) w → Lifts w (after (DialWon l ticket) w) }
    ensures fails { (w : World) (l ticket : ℕ) → Keys w → May (DialFailed l ticket) w → Lifts w (after (DialFailed l ticket) w) }
{}

/// An agent takes the first packet that the server sent.
pub fn agent_takes_lifts()
    ensures takes { (w : World) (l : ℕ) → Keys w → May (AgentTakes l) w → Lifts w (after (AgentTakes l) w) }
{}

/// What a destination does: it sends, its bytes are handed over or written, it ends or fails.
pub fn destinations_lift()
    ensures sends { (w : World) (d : ℕ) (bytes : List ℕ) → May (DestinationSends d bytes) w → Lifts w (after (DestinationSends d bytes) w) }
    ensures hands { (w : World) (d count : ℕ) → Keys w → May (DestinationHands d count) w → Lifts w (after (DestinationHands d count) w) }
    ensures wrote { (w : World) (d count : ℕ) → Keys w → May (DestinationWrote d count) w → Lifts w (after (DestinationWrote d count) w) }
    ensures ended { (w : World) (d : ℕ) → Keys w → May (DestinationEnds d) w → Lifts w (after (DestinationEnds d) w) }
    ensures failed { (w : World) (d : ℕ) → Keys w → May (DestinationFails d) w → Lifts w (after (DestinationFails d) w) }
{}

/// The facts on keys are kept by what an agent does.
pub fn agent_keeps_keys()
    ensures drains { (w : World) (l : ℕ) → Keys w → May (AgentDrains l) w → Keys (after (AgentDrains l) w) }
    ensures takes { (w : World) (l : ℕ) → Keys w → May (AgentTakes l) w → Keys (after (AgentTakes l) w) }
    ensures wins { (w : World) (l ticket : ℕ) → Keys w → May (DialWon l ticket) w → Keys (after (DialWon l ticket) w) }
    ensures fails { (w : World) (l ticket : ℕ) → Keys w → May (DialFailed l ticket) w → Keys (after (DialFailed l ticket) w) }
    ensures loses { (w : World) (l : ℕ) (left : List Packet) → Keys w → May (AgentLosesLink l left) w → Keys (after (AgentLosesLink l left) w) }
    ensures drops_up { (w : World) (l : ℕ) → Keys w → May (DropsUp l) w → Keys (after (DropsUp l) w) }
    ensures drops_down { (w : World) (l : ℕ) → Keys w → May (DropsDown l) w → Keys (after (DropsDown l) w) }
    ensures sends { (w : World) (d : ℕ) (bytes : List ℕ) → Keys w → May (DestinationSends d bytes) w → Keys (after (DestinationSends d bytes) w) }
{}

/// The facts on keys are kept by what a destination does.
pub fn destinations_keep_keys()
    ensures hands { (w : World) (d count : ℕ) → Keys w → May (DestinationHands d count) w → Keys (after (DestinationHands d count) w) }
    ensures wrote { (w : World) (d count : ℕ) → Keys w → May (DestinationWrote d count) w → Keys (after (DestinationWrote d count) w) }
    ensures ended { (w : World) (d : ℕ) → Keys w → May (DestinationEnds d) w → Keys (after (DestinationEnds d) w) }
    ensures failed { (w : World) (d : ℕ) → Keys w → May (DestinationFails d) w → Keys (after (DestinationFails d) w) }
{}
