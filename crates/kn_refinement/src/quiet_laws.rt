//! What it means that a world is quiet.

ghost use Rattle.std.specs.Prelude.{◌≡◌, ℕ, true, List};
ghost use Rattle.kn_route.specs.declared.strategy.Strategy.{Strategy};
ghost use Rattle.kn_world.specs.declared.event.WorldEvent.{WorldEvent};
ghost use Rattle.kn_world.specs.declared.state.State.{State};
ghost use Rattle.kn_world.specs.Events.{Runs};
ghost use Rattle.kn_world.specs.States as running;
ghost use Rattle.kn_world.specs.Views.{shown};
ghost use Rattle.kn_refinement.specs.Quiet.{IsAtRest};

/// After every list of events, a world whose report says that it is quiet is at rest: nothing is on its way, no agent has a dial or a connection that
/// lingers, and each link and each client's stream that one end lost was lost by the other.
pub fn quiet_worlds_are_at_rest()
    ensures { (strategies : List Strategy) (events : List WorldEvent) (idle : ℕ) (s : State) → Runs events (running.start strategies) idle s
        → (shown s).quiet ≡ true → IsAtRest s }
{}
