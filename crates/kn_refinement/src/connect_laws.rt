//! The laws of apps by CONNECT: what they do is done by moves of the packet world.

ghost use Rattle.std.specs.Prelude.{◌≡◌, ℕ, List, true};
ghost use Rattle.kn_packets.specs.Keys.{Keys};
ghost use Rattle.kn_world.specs.declared.state.State.{State};
ghost use Rattle.kn_world.specs.AppSteps.{takes, takes_freely};
ghost use Rattle.kn_world.specs.Arrivals.{RawAppComes};
ghost use Rattle.kn_world.specs.Effects.{is_app_unheard};
ghost use Rattle.kn_world.specs.Handing.{settles};
ghost use Rattle.kn_world.specs.Hearing.{Hears};
ghost use Rattle.kn_world.specs.Idle.{can_send};
ghost use Rattle.kn_refinement.specs.Fits.{Fits};
ghost use Rattle.kn_refinement.specs.Homes.{OfConnect};
ghost use Rattle.kn_refinement.specs.Leads.{Leads};
ghost use Rattle.kn_refinement.specs.Shown.{shown};

/// What an app by CONNECT does: it comes, and sends until its head is whole; what it sent and its end go to the
/// server; it takes bytes, all at once or so many.
pub fn connects_lead()
    ensures comes { (bytes : List ℕ) (old new : State) → Fits old → Keys (shown old) → RawAppComes bytes old new → Leads old new }
    ensures hears { (bytes : List ℕ) (k : ℕ) (old new : State) → is_app_unheard k old ≡ true → can_send k old ≡ true → Fits old → Keys (shown old) → Hears bytes k old new → Leads old new }
    ensures settles { (k : ℕ) (s : State) → OfConnect k s → Fits s → Keys (shown s) → Leads s (settles k s) }
    ensures takes { (k count : ℕ) (s : State) → OfConnect k s → Fits s → Leads s (takes k count s) }
    ensures takes_freely { (k : ℕ) (s : State) → OfConnect k s → Fits s → Leads s (takes_freely k s) }
{}
