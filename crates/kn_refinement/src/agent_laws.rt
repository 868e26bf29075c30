//! The laws of agents and destinations: what they do is done by moves of the packet world.

ghost use Rattle.std.specs.Prelude.{◌≡◌, ℕ, List, true};
ghost use Rattle.kn_packets.specs.Keys.{Keys};
ghost use Rattle.kn_world.specs.declared.state.State.{State};
ghost use Rattle.kn_world.specs.AgentSteps.{takes, takes_freely};
ghost use Rattle.kn_world.specs.Answering.{settles};
ghost use Rattle.kn_world.specs.Effects.{agent_lost, dest_ended, dest_failed, dest_freed, dest_held, dest_sent, dial_refused, dial_won, drained};
ghost use Rattle.kn_world.specs.Idle.{can_answer, can_drain, has_server};
ghost use Rattle.kn_world.specs.Pipes.{agent_down};
ghost use Rattle.kn_refinement.specs.Fits.{Fits};
ghost use Rattle.kn_refinement.specs.Leads.{Leads, Steps};
ghost use Rattle.kn_refinement.specs.Shown.{shown};

/// What an agent does: a dial is won, or fails; it takes the first packet of the server; it drains, or loses its link.
pub fn agents_lead()
    ensures won { (dial : ℕ) → Steps (dial_won dial) }
    ensures refused { (dial : ℕ) → Steps (dial_refused dial) }
    ensures down { (link : ℕ) → Steps (agent_down link) }
    ensures drained { (link : ℕ) (s : State) → can_drain link s ≡ true → Fits s → Keys (shown s) → Leads s (drained link s) }
    ensures lost { (link : ℕ) (s : State) → has_server link s ≡ true → Fits s → Keys (shown s) → Leads s (agent_lost link s) }
{}

/// What a destination does: it sends, ends or fails; it takes bytes, all at once or so many, or is held.
pub fn destinations_lead()
    ensures sent { (bytes : List ℕ) (dial : ℕ) (s : State) → can_answer dial s ≡ true → Fits s → Keys (shown s) → Leads s (dest_sent bytes dial s) }
    ensures ended { (dial : ℕ) → Steps (dest_ended dial) }
    ensures failed { (dial : ℕ) → Steps (dest_failed dial) }
    ensures held { (dial : ℕ) → Steps (dest_held dial) }
    ensures freed { (dial : ℕ) → Steps (dest_freed dial) }
    ensures takes { (dial count : ℕ) → Steps (takes dial count) }
    ensures takes_freely { (dial : ℕ) → Steps (takes_freely dial) }
    ensures settles { (dial : ℕ) → Steps (settles dial) }
{}
