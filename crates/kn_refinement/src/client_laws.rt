//! The laws of clients and their apps: what they do is done by moves of the packet world.

ghost use Rattle.std.specs.Prelude.{◌≡◌, ℕ, List, true};
ghost use Rattle.kn_packets.specs.Keys.{Keys};
ghost use Rattle.kn_world.specs.declared.state.State.{State};
ghost use Rattle.kn_world.specs.AppSteps.{takes, takes_freely};
ghost use Rattle.kn_world.specs.Arrivals.{app_comes};
ghost use Rattle.kn_world.specs.Clients.{is_at_client};
ghost use Rattle.kn_world.specs.Effects.{app_ended, app_freed, app_held, app_sent, client_lost};
ghost use Rattle.kn_world.specs.Handing.{settles};
ghost use Rattle.kn_world.specs.Numbers.{nth};
ghost use Rattle.kn_world.specs.Pipes.{client_down};
ghost use Rattle.kn_refinement.specs.Fits.{Fits};
ghost use Rattle.kn_refinement.specs.Homes.{OfClient};
ghost use Rattle.kn_refinement.specs.Leads.{Leads, Steps};
ghost use Rattle.kn_refinement.specs.Shown.{shown};

/// What a client does: it takes the first packet of the server, or loses its stream.
pub fn clients_lead()
    ensures down { (c : ℕ) → Steps (client_down c) }
    ensures lost { (c : ℕ) (s : State) → is_at_client (nth c s.clients) ≡ true → Fits s → Keys (shown s) → Leads s (client_lost c s) }
{}

/// What an app of a client does: it comes; it sends or ends; it takes bytes, all at once or so many, or is held.
pub fn client_apps_lead()
    ensures comes { (c : ℕ) (address : List ℕ) → Steps (app_comes c address) }
    ensures sent { (bytes : List ℕ) (k : ℕ) (s : State) → OfClient k s → Fits s → Keys (shown s) → Leads s (app_sent bytes k s) }
    ensures ended { (k : ℕ) (s : State) → OfClient k s → Fits s → Keys (shown s) → Leads s (app_ended k s) }
    ensures held { (k : ℕ) (s : State) → OfClient k s → Fits s → Keys (shown s) → Leads s (app_held k s) }
    ensures freed { (k : ℕ) (s : State) → OfClient k s → Fits s → Keys (shown s) → Leads s (app_freed k s) }
    ensures takes { (k count : ℕ) (s : State) → OfClient k s → Fits s → Keys (shown s) → Leads s (takes k count s) }
    ensures takes_freely { (k : ℕ) (s : State) → OfClient k s → Fits s → Keys (shown s) → Leads s (takes_freely k s) }
    ensures settles { (k : ℕ) (s : State) → OfClient k s → Fits s → Keys (shown s) → Leads s (settles k s) }
{}
