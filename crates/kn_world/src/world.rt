ghost use Rattle.std.specs.Prelude.{◌≡◌, ◌≤◌, ◌-◌, ℕ, length, slice_index_or, IfOk, OnOk};
ghost use Rattle.kn_world.specs.Events.{Happens, HappensAs, Runs, idle_one};
ghost use Rattle.kn_world.specs.Idle as idle;
ghost use Rattle.kn_world.specs.Shown.{AppShown, DialShown};
ghost use Rattle.kn_world.specs.States.{start};
ghost use Rattle.kn_world.specs.Views.{shown};

use crate::effects::happen;
use crate::event::{AppPhase, DialPhase, Seen, WorldEvent};
use crate::idle::seen_of;
use crate::pipes::nothing_in_flight;
use crate::state::State;
use crate::views::{app_phase, connection_sum, dial_phase, dial_sum, has_open, is_still};
use kn_io::NoMemory;
use kn_route::Strategies;
use std::alloc::Global;
use std::marker::Model;

/// Agents, the server and clients with their apps, and what is in flight between them. Contracts see the whole
/// state.
#[derive(Drop)]
pub struct World {
    state: State,
}

/// How many entries and dials the server and the agents hold.
#[derive(Clone, Copy, Debug, PartialEq, Eq)]
pub struct Tables {
    /// Dials of the server whose answer has not come.
    pub awaited: usize,
    /// Tunnels that the server holds.
    pub held: usize,
    /// Dials that the agents make.
    pub dials: usize,
    /// Connections that the agents have.
    pub connections: usize,
}

impl Model for World {
    ghost use Rattle.kn_world.specs.declared.state.State.{State};

    ghost Value = { State };

    ghost view = { λ w. w.state };
}

fn idle_one(seen: Seen) -> u64
    ensures { result ≡ idle_one seen }
{
    match seen {
        Seen::Idle => 1,
        Seen::Moved => 0,
    }
}

fn move_if(alloc: Global, state: &mut State, seen: Seen, event: &WorldEvent) -> Result<(), NoMemory>
    ensures { OnOk result (HappensAs seen event.now state.old state.new) }
{
    match seen {
        Seen::Moved => happen(alloc, state, event),
        Seen::Idle => Ok(()),
    }
}

impl World {
    /// The world before any event, in which dials find their links by these strategies. Takes no memory.
    pub fn new(alloc: Global, strategies: Strategies) -> World
        ensures { result ≡ start strategies }
    {
        World {
            state: State::new(alloc, strategies),
        }
    }

    /// An event happens. The answer says whether it did anything. Want of memory leaves a part of it done.
    pub fn apply(&mut self, alloc: Global, event: &WorldEvent) -> Result<Seen, NoMemory>
        ensures seen { IfOk result (λ seen. seen ≡ idle.seen_of event.now self.old) }
        ensures after { OnOk result (Happens event.now self.old self.new) }
    {
        let seen = seen_of(&self.state, event);
        move_if(alloc, &mut self.state, seen, event)?;
        Ok(seen)
    }

    /// Events happen, one after another. The answer counts those that did nothing.
    pub fn run(&mut self, alloc: Global, events: &[WorldEvent]) -> Result<u64, NoMemory>
        ensures { IfOk result (λ idle. Runs events.now self.old idle self.new) }
    {
        let mut idle = 0;
        for event in events {
            let seen = self.apply(alloc, event)?;
            idle += idle_one(seen);
        }
        Ok(idle)
    }

    /// How many agents came.
    pub fn agent_count(&self) -> usize
        ensures { result ≡ (shown self.now).agents }
    {
        self.state.agents.len()
    }

    /// How many clients came.
    pub fn client_count(&self) -> usize
        ensures { result ≡ (shown self.now).clients }
    {
        self.state.clients.len()
    }

    /// How many apps there are.
    pub fn app_count(&self) -> usize
        ensures { result ≡ length (shown self.now).apps }
    {
        self.state.apps.len()
    }

    /// How many dials the server drew.
    pub fn dial_count(&self) -> u64
        ensures { result ≡ length (shown self.now).dials }
    {
        self.state.dials.len() as u64
    }

    /// How far an app has come.
    pub fn app_phase(&self, app: usize) -> AppPhase
        requires first { 1 ≤ app }
        requires made { app ≤ length (shown self.now).apps }
        ensures { (d : AppShown) → result ≡ (slice_index_or (shown self.now).apps (app - 1) d).phase }
    {
        app_phase(&self.state.clients, &self.state.apps.as_slice()[app - 1])
    }

    /// The bytes that an app sent.
    pub fn app_sent(&self, app: usize) -> &[u8]
        requires first { 1 ≤ app }
        requires made { app ≤ length (shown self.now).apps }
        ensures { (d : AppShown) → result.now ≡ (slice_index_or (shown self.now).apps (app - 1) d).sent }
    {
        self.state.apps.as_slice()[app - 1].side.sending.all()
    }

    /// The bytes that an app got.
    pub fn app_got(&self, app: usize) -> &[u8]
        requires first { 1 ≤ app }
        requires made { app ≤ length (shown self.now).apps }
        ensures { (d : AppShown) → result.now ≡ (slice_index_or (shown self.now).apps (app - 1) d).got }
    {
        self.state.apps.as_slice()[app - 1].side.coming.passed()
    }

    /// The error that an app was told, empty where it was told none.
    pub fn app_error(&self, app: usize) -> &str
        requires first { 1 ≤ app }
        requires made { app ≤ length (shown self.now).apps }
        ensures { (d : AppShown) → result.now ≡ (slice_index_or (shown self.now).apps (app - 1) d).error }
    {
        self.state.apps.as_slice()[app - 1].error.as_str()
    }

    /// The number of the link that a dial goes to.
    pub fn dial_link(&self, dial: u64) -> u64
        requires first { 1 ≤ dial }
        requires drawn { dial ≤ length (shown self.now).dials }
        ensures { (d : DialShown) → result ≡ (slice_index_or (shown self.now).dials (dial - 1) d).link }
    {
        self.state.dials.as_slice()[dial as usize - 1].link
    }

    /// The number of the app that a dial is for.
    pub fn dial_app(&self, dial: u64) -> usize
        requires first { 1 ≤ dial }
        requires drawn { dial ≤ length (shown self.now).dials }
        ensures { (d : DialShown) → result ≡ (slice_index_or (shown self.now).dials (dial - 1) d).app }
    {
        self.state.dials.as_slice()[dial as usize - 1].app as usize
    }

    /// How far a dial has come.
    pub fn dial_phase(&self, dial: u64) -> DialPhase
        requires first { 1 ≤ dial }
        requires drawn { dial ≤ length (shown self.now).dials }
        ensures { (d : DialShown) → result ≡ (slice_index_or (shown self.now).dials (dial - 1) d).phase }
    {
        dial_phase(
            &self.state.agents,
            &self.state.dials.as_slice()[dial as usize - 1],
        )
    }

    /// The bytes that the destination of a dial sent.
    pub fn dial_sent(&self, dial: u64) -> &[u8]
        requires first { 1 ≤ dial }
        requires drawn { dial ≤ length (shown self.now).dials }
        ensures { (d : DialShown) → result.now ≡ (slice_index_or (shown self.now).dials (dial - 1) d).sent }
    {
        self.state.dials.as_slice()[dial as usize - 1]
            .side
            .sending
            .all()
    }

    /// The bytes that the destination of a dial got.
    pub fn dial_got(&self, dial: u64) -> &[u8]
        requires first { 1 ≤ dial }
        requires drawn { dial ≤ length (shown self.now).dials }
        ensures { (d : DialShown) → result.now ≡ (slice_index_or (shown self.now).dials (dial - 1) d).got }
    {
        self.state.dials.as_slice()[dial as usize - 1]
            .side
            .coming
            .passed()
    }

    /// How many dials and tunnels the server and the agents hold. Sums stand still at their type's end.
    pub fn tables(&self) -> Tables
        ensures awaited { result.awaited ≡ (shown self.now).awaited }
        ensures held { result.held ≡ (shown self.now).held }
        ensures dials { result.dials ≡ (shown self.now).dialling }
        ensures connections { result.connections ≡ (shown self.now).connections }
    {
        Tables {
            awaited: self.state.server.awaited().len(),
            held: self.state.server.held().len(),
            dials: dial_sum(self.state.agents.as_slice()),
            connections: connection_sum(self.state.agents.as_slice()),
        }
    }

    /// Whether nothing is on its way, no agent dials or has a connection that lingers, and each connection that
    /// one end lost was lost by the other.
    pub fn quiet(&self) -> bool
        ensures { result ≡ (shown self.now).quiet }
    {
        nothing_in_flight(&self.state) && is_still(&self.state)
    }

    /// Whether the server awaits no answer and holds no open tunnel.
    pub fn closed(&self) -> bool
        ensures { result ≡ (shown self.now).closed }
    {
        self.state.server.awaited().len() == 0 && !has_open(&self.state.server)
    }
}
