//! The laws of the running world, as what it shows in the packet world.

ghost use Rattle.std.specs.Prelude.{◌≡◌, ℕ, List};
ghost use Rattle.kn_route.specs.declared.strategy.Strategy.{Strategy};
ghost use Rattle.kn_packets.specs.Moves.{Makes, Move};
ghost use Rattle.kn_packets.specs.Moves as packets;
ghost use Rattle.kn_world.specs.declared.event.WorldEvent.{WorldEvent};
ghost use Rattle.kn_world.specs.declared.state.State.{State};
ghost use Rattle.kn_world.specs.Events.{Happens, Runs};
ghost use Rattle.kn_world.specs.States as running;
ghost use Rattle.kn_refinement.specs.Chosen.{agents_in};
ghost use Rattle.kn_refinement.specs.Fits.{Fits};
ghost use Rattle.kn_refinement.specs.Headline.{KeepsPromises};
ghost use Rattle.kn_refinement.specs.OwnBytes.{SendsOwn, app_bytes, dial_bytes};
ghost use Rattle.kn_refinement.specs.Shown.{shown};

/// A running world begins as the packet world does, and its parts fit.
pub fn worlds_begin_alike()
    ensures alike { (strategies : List Strategy) → shown (running.start strategies) ≡ packets.start strategies }
    ensures fits { (strategies : List Strategy) → Fits (running.start strategies) }
{}

/// After every list of events a running world shows what some list of moves leads to from the start of the packet world, and its parts fit; and
/// each event more changes what it shows by moves alone.
pub fn events_are_moves()
    ensures reached { (strategies : List Strategy) (events : List WorldEvent) (idle : ℕ) (s : State) → Runs events (running.start strategies) idle s
        → (moves : List Move) × Makes (packets.start strategies) moves (shown s) }
    ensures fits { (strategies : List Strategy) (events : List WorldEvent) (idle : ℕ) (s : State) → Runs events (running.start strategies) idle s → Fits s }
    ensures each { (strategies : List Strategy) (events : List WorldEvent) (idle : ℕ) (s t : State) (e : WorldEvent) → Runs events (running.start strategies) idle s → Happens e s t
        → (moves : List Move) × Makes (shown s) moves (shown t) }
{}

/// After every list of events the promises hold that the report of a world makes: bytes stay apart, no two dials are of one app, connections are
/// accounted for, each tunnel is in its tables, each dial goes to the link that was picked for it, and once all is quiet and closed nothing is left.
pub fn worlds_keep_their_promises()
    ensures { (strategies : List Strategy) (events : List WorldEvent) (idle : ℕ) (s : State) → Runs events (running.start strategies) idle s
        → KeepsPromises strategies (agents_in events) s }
{}

/// After every list of events each app, and each destination, has sent the bytes of the events that were not idle for it, joined, and no others; a
/// CONNECT app those behind its head.
pub fn sides_send_their_own_bytes()
    ensures { (strategies : List Strategy) (events : List WorldEvent) (idle : ℕ) (s : State) → (runs : Runs events (running.start strategies) idle s)
        → SendsOwn (app_bytes events (running.start strategies) idle s runs) (dial_bytes events (running.start strategies) idle s runs) s }
{}
