//! Apps that are refused, as no agent is available.

ghost use Rattle.std.specs.Prelude.{◌≡◌, ℕ, List};
ghost use Rattle.kn_route.specs.declared.strategy.Strategy.{Strategy};
ghost use Rattle.kn_world.specs.declared.event.WorldEvent.{WorldEvent};
ghost use Rattle.kn_world.specs.declared.state.State.{State};
ghost use Rattle.kn_world.specs.Events.{Runs};
ghost use Rattle.kn_world.specs.States as running;
ghost use Rattle.kn_refinement.specs.Refusals.{RefusesUnanswered};

/// After every list of events, an app with a choice that has no answer was refused. One by CONNECT waits no more, and its error is that of status 503. One of a
/// client waits no more for its dial, its client has lost the stream, or the refusal as no agent is available is in the list from the server to its client.
pub fn unanswered_apps_are_refused()
    ensures { (strategies : List Strategy) (events : List WorldEvent) (idle : ℕ) (s : State) → Runs events (running.start strategies) idle s
        → RefusesUnanswered s }
{}
