//! The events of the running world that are steps of the server alone.

ghost use Rattle.std.specs.Prelude.{◌≡◌, ℕ, true, List};
ghost use Rattle.kn_packets.specs.Keys.{Keys};
ghost use Rattle.kn_world.specs.Arrivals.{agent_comes, client_comes};
ghost use Rattle.kn_world.specs.Idle.{has_front, has_link};
ghost use Rattle.kn_world.specs.Pipes.{agent_up, client_up};
ghost use Rattle.kn_world.specs.ServerPackets.{loses_front, loses_link};
ghost use Rattle.kn_world.specs.declared.state.State.{State};
ghost use Rattle.kn_refinement.specs.Fits.{Fits};
ghost use Rattle.kn_refinement.specs.Leads.{Leads, Steps};
ghost use Rattle.kn_refinement.specs.Shown.{shown};

/// An agent or a client that comes, a packet of a link or of a client, and a link or a front that the server loses, lead by moves.
pub fn server_events_lead()
    ensures agent_comes { (identifiers : List ℕ) → Steps (agent_comes identifiers) }
    ensures client_comes { Steps client_comes }
    ensures link_lost { (link : ℕ) (s : State) → has_link link s ≡ true → Fits s → Keys (shown s) → Leads s (loses_link link s) }
    ensures front_lost { (client : ℕ) (s : State) → has_front client s ≡ true → Fits s → Keys (shown s) → Leads s (loses_front client s) }
    ensures agent_up { (link : ℕ) → Steps (agent_up link) }
    ensures client_up { (client : ℕ) → Steps (client_up client) }
{}
