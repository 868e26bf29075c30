// What holds of the choice of a link, whatever came before.
ghost use Rattle.std.specs.Prelude.{ℕ, ℤ, List};
ghost use Rattle.kn_server_core.specs.declared.state.State.{State};
ghost use Rattle.kn_world.specs.Choices.{GoesWherePicked, IsRefusedWhereNone, IsRefusedNowhereElse};

/// The server sends a dial to the link that is picked for it among those that are up at that moment, and refuses
/// it as no agent is available exactly where it comes to the choice and none is picked.
pub fn dials_go_where_picked()
    ensures picked { (s : State) (front : ℕ) (protocol address : List ℕ) (random : ℤ) → GoesWherePicked s front protocol address random }
    ensures none { (s : State) (front : ℕ) (protocol address : List ℕ) (random : ℤ) → IsRefusedWhereNone s front protocol address random }
    ensures only { (s : State) (front : ℕ) (protocol address : List ℕ) (random : ℤ) → IsRefusedNowhereElse s front protocol address random }
{}
