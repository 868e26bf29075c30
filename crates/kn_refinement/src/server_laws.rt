//! A step of the server of the running world, as moves of the packet world.

ghost use Rattle.std.specs.Prelude.{◌≡◌, ℕ, List};
ghost use Rattle.kn_server_core.specs.Isolation.{IsOrderly};
ghost use Rattle.kn_server_core.specs.declared.event.ServerEvent.{ServerEvent};
ghost use Rattle.kn_packets.specs.Moves.{Makes, May, Move, after, server_does};
ghost use Rattle.kn_packets.specs.World.{World};
ghost use Rattle.kn_world.specs.declared.state.State.{State};
ghost use Rattle.kn_world.specs.ServerSteps.{step};
ghost use Rattle.kn_refinement.specs.Asking.{AsksFor, LinksKnown};
ghost use Rattle.kn_refinement.specs.Fits.{Fits};
ghost use Rattle.kn_refinement.specs.Settled.{settled};
ghost use Rattle.kn_refinement.specs.Shown.{shown};

/// A step of the server shows as its own step in the packet world, after which each CONNECT app takes what came for
/// it: a move that begins with it leads on by moves.
pub fn server_steps_are_moves()
    ensures shown { (s : State) (app : ℕ) (event : ServerEvent) → Fits s → IsOrderly s.server → LinksKnown s → AsksFor event app s → shown (step app event s) ≡ settled (server_does event (shown s)) }
    ensures reached { (old : World) (s : State) (m : Move) (app : ℕ) (event : ServerEvent) → Fits s → IsOrderly s.server → LinksKnown s → AsksFor event app s
        → May m old → after m old ≡ server_does event (shown s) → (ms : List Move) × Makes old ms (shown (step app event s)) }
{}
