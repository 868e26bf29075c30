//! Apps that no dial is of.

ghost use Rattle.std.specs.Prelude.{◌≡◌, ℕ, List};
ghost use Rattle.kn_route.specs.declared.strategy.Strategy.{Strategy};
ghost use Rattle.kn_world.specs.declared.event.WorldEvent.{WorldEvent};
ghost use Rattle.kn_world.specs.declared.state.State.{State};
ghost use Rattle.kn_world.specs.Events.{Runs};
ghost use Rattle.kn_world.specs.States as running;
ghost use Rattle.kn_refinement.specs.Undialled.{ConnectGetsNothingUndialled, UnansweredHasNoDial, UndialledIsUnopened};

/// After every list of events, an app by CONNECT that no dial of the report is of got nothing, whether or not its head was whole.
pub fn connect_apps_get_nothing_undialled()
    ensures { (strategies : List Strategy) (events : List WorldEvent) (idle : ℕ) (s : State) → Runs events (running.start strategies) idle s
        → ConnectGetsNothingUndialled s }
{}

/// After every list of events, an app of which each choice is without an answer is that of no dial of the report.
pub fn unanswered_apps_have_no_dial()
    ensures { (strategies : List Strategy) (events : List WorldEvent) (idle : ℕ) (s : State) → Runs events (running.start strategies) idle s
        → UnansweredHasNoDial s }
{}

/// After every list of events, a client's app of the packet world that no dial of the report is of did not open: it waits for its dial, or has left.
pub fn undialled_apps_are_unopened()
    ensures { (strategies : List Strategy) (events : List WorldEvent) (idle : ℕ) (s : State) → Runs events (running.start strategies) idle s
        → UndialledIsUnopened s }
{}
