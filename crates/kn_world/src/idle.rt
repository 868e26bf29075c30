//! Whether an event does anything.
ghost use Rattle.std.specs.Prelude.{◌≡◌, Bool};
ghost use Rattle.kn_world.specs.Idle as spec;

use crate::event::{Seen, WorldEvent};
use crate::parts::{App, Dial, Home, Stage};
use crate::state::State;
use crate::{app_steps, clients, dials};

fn moved_if(moved: bool) -> Seen
    ensures { result ≡ spec.moved_if moved }
{
    if moved { Seen::Moved } else { Seen::Idle }
}

fn is_at_door(stage: Stage) -> bool
    ensures { result ≡ spec.is_at_door stage }
{
    match stage {
        Stage::Dialling => true,
        Stage::Open => true,
        Stage::Refused => false,
        Stage::Ended => false,
    }
}

// Whether an app is connected: at its client's, or the server's, until it left or was refused.
fn is_app_here(state: &State, app: &App) -> bool
    ensures { result ≡ spec.is_app_here app.now state.now }
{
    match app.home {
        Home::Client { client, number } => {
            clients::state_at(&state.clients, client, number).is_some()
        }
        Home::Connect => is_at_door(app.stage),
    }
}

fn can_send(state: &State, app: u64) -> bool
    ensures { result ≡ spec.can_send app state.now }
{
    match state.apps.get(app) {
        Some(found) => is_app_here(state, found) && !found.side.ended,
        None => false,
    }
}

fn can_hold_app(state: &State, app: u64) -> bool
    ensures { result ≡ spec.can_hold_app app state.now }
{
    match state.apps.get(app) {
        Some(found) => is_app_here(state, found) && !found.side.held,
        None => false,
    }
}

fn can_take_app(state: &State, app: u64) -> bool
    ensures { result ≡ spec.can_take_app app state.now }
{
    match state.apps.get(app) {
        Some(found) => found.side.held && app_steps::has_left(&state.clients, found),
        None => false,
    }
}

fn is_app_held(state: &State, app: u64) -> bool
    ensures { result ≡ spec.is_app_held app state.now }
{
    match state.apps.get(app) {
        Some(found) => found.side.held,
        None => false,
    }
}

fn has_dial(state: &State, dial: u64) -> bool
    ensures { result ≡ spec.has_dial dial state.now }
{
    match state.dials.get(dial) {
        Some(found) => dials::is_dialling(&state.agents, found),
        None => false,
    }
}

// Whether a destination is connected: it is while its connection is on its agent's list.
fn is_dest_here(state: &State, dial: &Dial) -> bool
    ensures { result ≡ spec.is_dest_here dial.now state.now }
{
    dials::state_of(&state.agents, dial).is_some()
}

fn can_answer(state: &State, dial: u64) -> bool
    ensures { result ≡ spec.can_answer dial state.now }
{
    match state.dials.get(dial) {
        Some(found) => is_dest_here(state, found) && !found.side.ended,
        None => false,
    }
}

fn is_connected(state: &State, dial: u64) -> bool
    ensures { result ≡ spec.is_connected dial state.now }
{
    match state.dials.get(dial) {
        Some(found) => is_dest_here(state, found),
        None => false,
    }
}

fn can_hold_dest(state: &State, dial: u64) -> bool
    ensures { result ≡ spec.can_hold_dest dial state.now }
{
    match state.dials.get(dial) {
        Some(found) => is_dest_here(state, found) && !found.side.held,
        None => false,
    }
}

fn can_take_dest(state: &State, dial: u64) -> bool
    ensures { result ≡ spec.can_take_dest dial state.now }
{
    match state.dials.get(dial) {
        Some(found) => found.side.held && dials::unwritten_of(&state.agents, found) > 0,
        None => false,
    }
}

fn is_dest_held(state: &State, dial: u64) -> bool
    ensures { result ≡ spec.is_dest_held dial state.now }
{
    match state.dials.get(dial) {
        Some(found) => found.side.held,
        None => false,
    }
}

fn can_drain(state: &State, agent: u64) -> bool
    ensures { result ≡ spec.can_drain agent state.now }
{
    match state.agents.get(agent) {
        Some(found) => found.at_agent && !found.drained,
        None => false,
    }
}

fn has_link(state: &State, agent: u64) -> bool
    ensures { result ≡ spec.has_link agent state.now }
{
    match state.agents.get(agent) {
        Some(found) => found.at_server,
        None => false,
    }
}

fn has_server(state: &State, agent: u64) -> bool
    ensures { result ≡ spec.has_server agent state.now }
{
    match state.agents.get(agent) {
        Some(found) => found.at_agent,
        None => false,
    }
}

fn has_front(state: &State, client: u64) -> bool
    ensures { result ≡ spec.has_front client state.now }
{
    match state.clients.get(client) {
        Some(found) => found.at_server,
        None => false,
    }
}

/// Whether an event does anything.
pub fn seen_of(state: &State, event: &WorldEvent) -> Seen
    ensures { result ≡ spec.seen_of event.now state.now }
{
    match event {
        WorldEvent::Agent { .. } => Seen::Moved,
        WorldEvent::Client => Seen::Moved,
        WorldEvent::App { .. } => Seen::Moved,
        WorldEvent::Connect { .. } => Seen::Moved,
        WorldEvent::Raw { .. } => Seen::Moved,
        WorldEvent::Up { dial } => moved_if(has_dial(state, *dial)),
        WorldEvent::Refuse { dial } => moved_if(has_dial(state, *dial)),
        WorldEvent::Send { app, .. } => moved_if(can_send(state, *app as u64)),
        WorldEvent::Answer { dial, .. } => moved_if(can_answer(state, *dial)),
        WorldEvent::End { app } => moved_if(can_send(state, *app as u64)),
        WorldEvent::Hang { dial } => moved_if(can_answer(state, *dial)),
        WorldEvent::Fail { dial } => moved_if(is_connected(state, *dial)),
        WorldEvent::Drain { agent } => moved_if(can_drain(state, *agent as u64)),
        WorldEvent::HoldDest { dial } => moved_if(can_hold_dest(state, *dial)),
        WorldEvent::HoldApp { app } => moved_if(can_hold_app(state, *app as u64)),
        WorldEvent::TakeDest { dial, .. } => moved_if(can_take_dest(state, *dial)),
        WorldEvent::TakeApp { app, .. } => moved_if(can_take_app(state, *app as u64)),
        WorldEvent::GoDest { dial } => moved_if(is_dest_held(state, *dial)),
        WorldEvent::GoApp { app } => moved_if(is_app_held(state, *app as u64)),
        WorldEvent::LoseServer { agent } => moved_if(has_link(state, *agent as u64)),
        WorldEvent::LoseAgent { agent } => moved_if(has_server(state, *agent as u64)),
        WorldEvent::LoseFront { client } => moved_if(has_front(state, *client as u64)),
        WorldEvent::LoseClient { client } => {
            moved_if(clients::is_at_client(&state.clients, *client as u64))
        }
        WorldEvent::Step { .. } => Seen::Moved,
        WorldEvent::Pass { .. } => Seen::Moved,
    }
}
