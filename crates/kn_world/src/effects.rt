//! What an event does.
ghost use Rattle.std.specs.Prelude.{◌≡◌, OnOk};
ghost use Rattle.kn_world.specs.Effects as spec;

use crate::arrivals::{agent_comes, app_comes, client_comes, connect_app_comes, raw_app_comes};
use crate::event::WorldEvent;
use crate::hearing::hear;
use crate::parts::{App, Home};
use crate::server_packets::{lose_front, lose_link};
use crate::state::State;
use crate::{
    agent_steps, agents, answering, app_steps, apps, client_steps, clients, dials, handing, pipes,
};
use kn_edge_core::{AgentEvent, ClientEvent};
use kn_io::{NoMemory, Text};
use std::alloc::Global;

// The agent's dial succeeds.
fn win_dial(alloc: Global, state: &mut State, dial: u64) -> Result<(), NoMemory>
    ensures { OnOk result (state.new ≡ spec.dial_won dial state.old) }
{
    match state.dials.get(dial) {
        Some(found) => {
            let link = found.link;
            let ticket = found.ticket;
            agent_steps::step(alloc, state, link, dial, AgentEvent::DialUp { ticket })
        }
        None => Ok(()),
    }
}

fn refuse_dial(alloc: Global, state: &mut State, dial: u64) -> Result<(), NoMemory>
    ensures { OnOk result (state.new ≡ spec.dial_refused dial state.old) }
{
    match state.dials.get(dial) {
        Some(found) => {
            let link = found.link;
            let ticket = found.ticket;
            agent_steps::step(alloc, state, link, dial, AgentEvent::DialRefused { ticket })
        }
        None => Ok(()),
    }
}

fn fail_dest(alloc: Global, state: &mut State, dial: u64) -> Result<(), NoMemory>
    ensures { OnOk result (state.new ≡ spec.dest_failed dial state.old) }
{
    match state.dials.get(dial) {
        Some(found) => {
            let link = found.link;
            let connect_id = found.connect_id;
            agent_steps::step(
                alloc,
                state,
                link,
                dial,
                AgentEvent::DestFailed { connect_id },
            )
        }
        None => Ok(()),
    }
}

fn answer(alloc: Global, state: &mut State, dial: u64, bytes: &[u8]) -> Result<(), NoMemory>
    ensures { OnOk result (state.new ≡ spec.dest_sent bytes.now dial state.old) }
{
    dials::send(&mut state.dials, dial, bytes)?;
    answering::settle(alloc, state, dial)
}

fn hang(alloc: Global, state: &mut State, dial: u64) -> Result<(), NoMemory>
    ensures { OnOk result (state.new ≡ spec.dest_ended dial state.old) }
{
    dials::end(&mut state.dials, dial);
    answering::settle(alloc, state, dial)
}

// Whether an app's bytes are still those of a CONNECT head.
fn is_unheard(app: &App) -> bool
    ensures { result ≡ spec.is_unheard app.now.home app.now }
{
    match app.home {
        Home::Connect => app.door.number == 0,
        Home::Client { .. } => false,
    }
}

fn is_app_unheard(state: &State, app: u64) -> bool
    ensures { result ≡ spec.is_app_unheard app state.now }
{
    match state.apps.get(app) {
        Some(found) => is_unheard(found),
        None => false,
    }
}

fn send_on(alloc: Global, state: &mut State, app: u64, bytes: &[u8]) -> Result<(), NoMemory>
    ensures { OnOk result (state.new ≡ spec.app_sent bytes.now app state.old) }
{
    apps::send(&mut state.apps, app, bytes)?;
    handing::settle(alloc, state, app)
}

fn send(alloc: Global, state: &mut State, app: u64, bytes: &[u8]) -> Result<(), NoMemory>
    ensures { OnOk result (spec.Sends bytes.now app state.old state.new) }
{
    if is_app_unheard(state, app) {
        hear(alloc, state, app, bytes)
    } else {
        send_on(alloc, state, app, bytes)
    }
}

fn end(alloc: Global, state: &mut State, app: u64) -> Result<(), NoMemory>
    ensures { OnOk result (state.new ≡ spec.app_ended app state.old) }
{
    apps::end_sending(&mut state.apps, app);
    handing::settle(alloc, state, app)
}

fn drain(alloc: Global, state: &mut State, agent: u64) -> Result<(), NoMemory>
    ensures { OnOk result (state.new ≡ spec.drained agent state.old) }
{
    agents::note_drain(&mut state.agents, agent);
    agent_steps::step(alloc, state, agent, 0, AgentEvent::DrainNow)
}

fn free_dest(alloc: Global, state: &mut State, dial: u64) -> Result<(), NoMemory>
    ensures { OnOk result (state.new ≡ spec.dest_freed dial state.old) }
{
    dials::hold(&mut state.dials, dial, false);
    agent_steps::take_freely(alloc, state, dial)
}

fn free_app(alloc: Global, state: &mut State, app: u64) -> Result<(), NoMemory>
    ensures { OnOk result (state.new ≡ spec.app_freed app state.old) }
{
    apps::hold(&mut state.apps, app, false);
    app_steps::take_freely(alloc, state, app)
}

fn lose_agent(alloc: Global, state: &mut State, agent: u64) -> Result<(), NoMemory>
    ensures { OnOk result (state.new ≡ spec.agent_lost agent state.old) }
{
    agents::lose_at_agent(alloc, &mut state.agents, agent);
    agent_steps::step(alloc, state, agent, 0, AgentEvent::LinkLost)
}

fn lose_client(alloc: Global, state: &mut State, client: u64) -> Result<(), NoMemory>
    ensures { OnOk result (state.new ≡ spec.client_lost client state.old) }
{
    clients::lose_at_client(alloc, &mut state.clients, client);
    let error = Text::of(alloc, "server lost")?;
    client_steps::step(alloc, state, client, ClientEvent::StreamEnded { error })
}

/// What an event does that is not idle.
pub fn happen(alloc: Global, state: &mut State, event: &WorldEvent) -> Result<(), NoMemory>
    ensures { OnOk result (spec.Does event.now state.old state.new) }
{
    match event {
        WorldEvent::Agent { identifiers } => agent_comes(alloc, state, identifiers.as_str()),
        WorldEvent::Client => client_comes(alloc, state),
        WorldEvent::App { client, address } => {
            app_comes(alloc, state, *client as u64, address.as_str())
        }
        WorldEvent::Connect { address } => connect_app_comes(alloc, state, address.as_str()),
        WorldEvent::Raw { bytes } => raw_app_comes(alloc, state, bytes.as_slice()),
        WorldEvent::Up { dial } => win_dial(alloc, state, *dial),
        WorldEvent::Refuse { dial } => refuse_dial(alloc, state, *dial),
        WorldEvent::Send { app, bytes } => send(alloc, state, *app as u64, bytes.as_slice()),
        WorldEvent::Answer { dial, bytes } => answer(alloc, state, *dial, bytes.as_slice()),
        WorldEvent::End { app } => end(alloc, state, *app as u64),
        WorldEvent::Hang { dial } => hang(alloc, state, *dial),
        WorldEvent::Fail { dial } => fail_dest(alloc, state, *dial),
        WorldEvent::Drain { agent } => drain(alloc, state, *agent as u64),
        WorldEvent::HoldDest { dial } => {
            dials::hold(&mut state.dials, *dial, true);
            Ok(())
        }
        WorldEvent::HoldApp { app } => {
            apps::hold(&mut state.apps, *app as u64, true);
            Ok(())
        }
        WorldEvent::TakeDest { dial, count } => {
            agent_steps::take(alloc, state, *dial, *count as usize)
        }
        WorldEvent::TakeApp { app, count } => {
            app_steps::take(alloc, state, *app as u64, *count as usize)
        }
        WorldEvent::GoDest { dial } => free_dest(alloc, state, *dial),
        WorldEvent::GoApp { app } => free_app(alloc, state, *app as u64),
        WorldEvent::LoseServer { agent } => lose_link(alloc, state, *agent as u64),
        WorldEvent::LoseAgent { agent } => lose_agent(alloc, state, *agent as u64),
        WorldEvent::LoseFront { client } => lose_front(alloc, state, *client as u64),
        WorldEvent::LoseClient { client } => lose_client(alloc, state, *client as u64),
        WorldEvent::Step { pipe } => pipes::step(alloc, state, *pipe),
        WorldEvent::Pass { rounds } => pipes::rounds(alloc, state, *rounds),
    }
}
