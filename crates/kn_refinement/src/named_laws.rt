//! The links that choices name.

ghost use Rattle.std.specs.Prelude.{◌≡◌, ℕ, List};
ghost use Rattle.kn_route.specs.declared.strategy.Strategy.{Strategy};
ghost use Rattle.kn_world.specs.declared.event.WorldEvent.{WorldEvent};
ghost use Rattle.kn_world.specs.declared.state.State.{State};
ghost use Rattle.kn_world.specs.Events.{Runs};
ghost use Rattle.kn_world.specs.States as running;
ghost use Rattle.kn_refinement.specs.Named.{ChoicesNameAllUp};

/// In each world that events lead to, a choice that the server comes to there names the links of exactly those agents that came and whose links the
/// server has not lost, each with the server's draining mark.
pub fn choices_name_all_links()
    ensures { (strategies : List Strategy) (events : List WorldEvent) (idle : ℕ) (s : State) → Runs events (running.start strategies) idle s
        → ChoicesNameAllUp s }
{}
