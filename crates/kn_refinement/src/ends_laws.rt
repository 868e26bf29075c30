//! Ends of sending that are told.

ghost use Rattle.std.specs.Prelude.{◌≡◌, ℕ, List};
ghost use Rattle.kn_route.specs.declared.strategy.Strategy.{Strategy};
ghost use Rattle.kn_world.specs.declared.event.WorldEvent.{WorldEvent};
ghost use Rattle.kn_world.specs.declared.state.State.{State};
ghost use Rattle.kn_world.specs.Events.{Runs};
ghost use Rattle.kn_world.specs.States as running;
ghost use Rattle.kn_refinement.specs.Ends.{NoEndIsDue};

/// After every list of events no end is due: an app or a destination that ended its sending, and of which no byte waits, has told its end, an app
/// to its client or the server, a destination to its agent.
pub fn no_end_is_due()
    ensures { (strategies : List Strategy) (events : List WorldEvent) (idle : ℕ) (s : State) → Runs events (running.start strategies) idle s → NoEndIsDue s }
{}
