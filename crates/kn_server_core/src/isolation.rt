//! Laws on whom an event touches. They hold against any agents and clients, whatever these send.

ghost use Rattle.std.specs.Prelude.{◌≡◌, ℕ, List, [], Some};
ghost use Rattle.kn_route.specs.declared.strategy.Strategy.{Strategy};
ghost use Rattle.kn_tables.specs.declared.held_entry.HeldEntry.{HeldEntry};
ghost use Rattle.kn_tables.specs.Lists.{first_where};
ghost use Rattle.kn_tables.specs.Holding.{is_held_dial};
ghost use Rattle.kn_server_core.specs.Runs.{Tunnel, Opens, turn_at, after, history, CarriesBoth, NoneOpens, queued_down, IsOfOthers};
ghost use Rattle.kn_server_core.specs.declared.event.ServerEvent.{ServerEvent};
ghost use Rattle.kn_server_core.specs.declared.state.State.{State};
ghost use Rattle.kn_server_core.specs.Isolation.{IsOfLink, IsOfFront, ChangesOnlyLink, ChangesOnlyFront, Each, StaysWithLink, StaysWithFront, IsOrderly};
ghost use Rattle.kn_server_core.specs.Server.{step, start};

/// An event of a link changes no entry of another link, and gives something only to that link, and to the fronts
/// of its entries about these.
pub fn link_events_stay_with_their_link()
    ensures changes { (s : State) (event : ServerEvent) (link : ℕ) → IsOfLink link event → ChangesOnlyLink link s (step s event).state }
    ensures outs { (s : State) (event : ServerEvent) (link : ℕ) → IsOfLink link event → Each (StaysWithLink s link) (step s event).outs }
{}

/// An event of a front changes no entry of another front, and gives something only to that front, to the links of
/// its entries about these, and to the link that the choice picks for its dial.
pub fn front_events_stay_with_their_front()
    ensures changes { (s : State) (event : ServerEvent) (front : ℕ) → IsOrderly s → IsOfFront front event → ChangesOnlyFront front s (step s event).state }
    ensures outs { (s : State) (event : ServerEvent) (front : ℕ) → IsOrderly s → IsOfFront front event → Each (StaysWithFront s front event) (step s event).outs }
{}

/// No dial stands in two entries, no connection of a link in two tunnels, and no entry is of a link or front that is
/// gone: at the start, and after each event, whatever its number.
pub fn states_are_orderly()
    ensures start { (strategies : List Strategy) → IsOrderly (start strategies) }
    ensures kept { (s : State) (event : ServerEvent) → IsOrderly s → IsOrderly (step s event).state }
{}

/// What a tunnel's two ends get is what the other end sent, over every list of events from the start, whatever other
/// links and fronts do. A dial's front is queued no data before a turn opens its tunnel.
pub fn tunnels_carry_their_own_bytes()
    ensures carries { (strategies : List Strategy) (before : List ServerEvent) (reply : ServerEvent) (later : List ServerEvent) (t : Tunnel) → Opens t (turn_at (after (start strategies) before) reply)
        → CarriesBoth t (history (step (after (start strategies) before) reply).state later) }
    ensures silent { (strategies : List Strategy) (events : List ServerEvent) (t : Tunnel) → NoneOpens t.dial (history (start strategies) events) → queued_down t (history (start strategies) events) ≡ [] }
{}

/// A tunnel's entry stays as it is over every list of events of other links and other fronts: a bad link ends no
/// other link's tunnel, and a bad front no other front's.
pub fn others_end_no_tunnel()
    ensures { (events : List ServerEvent) (s : State) (e : HeldEntry) → IsOrderly s → first_where (is_held_dial e.dial) s.held ≡ Some e → Each (IsOfOthers e) events
        → first_where (is_held_dial e.dial) (after s events).held ≡ Some e }
{}
