//! Agents, clients and apps that come.
ghost use Rattle.std.specs.Prelude.{◌≡◌, ◌++◌, IfOk, OnOk};
ghost use Rattle.kn_world.specs.Arrivals as spec;

use crate::hearing::hear;
use crate::parts::{Agent, App, Client, Home, Owner};
use crate::server_steps::step;
use crate::state::State;
use crate::{apps, client_steps, clients};
use kn_edge_core::ClientEvent;
use kn_io::{Blob, NoMemory, Text};
use kn_route::{IdFault, Identifiers};
use kn_server_core::ServerEvent;
use std::alloc::Global;

fn link_up(
    alloc: Global,
    state: &mut State,
    link: u64,
    identifiers: Identifiers,
) -> Result<(), NoMemory>
    ensures { OnOk result (state.new ≡ spec.link_up link identifiers state.old) }
{
    if state.server.links().top() < link {
        step(alloc, state, 0, ServerEvent::LinkUp { link, identifiers })
    } else {
        Err(NoMemory)
    }
}

fn agent_came(alloc: Global, state: &mut State, identifiers: Identifiers) -> Result<(), NoMemory>
    ensures { OnOk result (state.new ≡ spec.agent_came identifiers state.old) }
{
    state.agents.push(Agent::new(alloc))?;
    let link = state.agents.len() as u64;
    link_up(alloc, state, link, identifiers)
}

/// An agent comes, and its link is up.
pub fn agent_comes(alloc: Global, state: &mut State, identifiers: &str) -> Result<(), NoMemory>
    ensures { OnOk result (state.new ≡ spec.agent_comes identifiers.now state.old) }
{
    match Identifiers::read(alloc, identifiers) {
        Ok(found) => agent_came(alloc, state, found),
        Err(IdFault::NoMemory) => Err(NoMemory),
        Err(IdFault::TooLong) => Ok(()),
        Err(IdFault::Kind { pair: _ }) => Ok(()),
    }
}

fn front_up(alloc: Global, state: &mut State, front: u64) -> Result<(), NoMemory>
    ensures { OnOk result (state.new ≡ spec.front_up front state.old) }
{
    if state.server.top_front() < front {
        step(alloc, state, 0, ServerEvent::FrontUp { front })
    } else {
        Err(NoMemory)
    }
}

/// A client comes, and its stream is up.
pub fn client_comes(alloc: Global, state: &mut State) -> Result<(), NoMemory>
    ensures { OnOk result (state.new ≡ spec.client_comes state.old) }
{
    let client = state.clients.next_number()?;
    state.fronts.push(Owner::Client { client })?;
    let front = state.fronts.len() as u64;
    state.clients.push(Client::new(alloc, front))?;
    front_up(alloc, state, front)
}

fn ask(
    alloc: Global,
    state: &mut State,
    client: u64,
    number: u64,
    address: &str,
) -> Result<(), NoMemory>
    ensures { OnOk result (state.new ≡ spec.asks client number address.now state.old) }
{
    let address = Text::of(alloc, address)?;
    client_steps::step(
        alloc,
        state,
        client,
        ClientEvent::AppUp {
            app: number,
            address,
        },
    )
}

fn refuse(alloc: Global, state: &mut State, app: u64) -> Result<(), NoMemory>
    ensures { OnOk result (state.new ≡ spec.refuses app state.old) }
{
    let error = Text::of(alloc, "server lost")?;
    apps::end(&mut state.apps, app, error);
    Ok(())
}

fn ask_or_refuse(
    alloc: Global,
    state: &mut State,
    client: u64,
    number: u64,
    app: u64,
    address: &str,
) -> Result<(), NoMemory>
    ensures { OnOk result (state.new ≡ spec.asks_or_refuses client number app address.now state.old) }
{
    if clients::is_at_client(&state.clients, client) {
        ask(alloc, state, client, number, address)
    } else {
        refuse(alloc, state, app)
    }
}

fn app_came(
    alloc: Global,
    state: &mut State,
    client: u64,
    number: u64,
    address: &str,
) -> Result<(), NoMemory>
    ensures { OnOk result (state.new ≡ spec.app_came client number address.now state.old) }
{
    state
        .apps
        .push(App::new(alloc, Home::Client { client, number }))?;
    let app = state.apps.len() as u64;
    clients::note_app(&mut state.clients, client, app)?;
    ask_or_refuse(alloc, state, client, number, app, address)
}

/// An app comes at a client, and asks for an address.
pub fn app_comes(
    alloc: Global,
    state: &mut State,
    client: u64,
    address: &str,
) -> Result<(), NoMemory>
    ensures { OnOk result (state.new ≡ spec.app_comes client address.now state.old) }
{
    match state.clients.get(client) {
        Some(found) => {
            let number = found.apps.next_number()?;
            app_came(alloc, state, client, number, address)
        }
        None => Ok(()),
    }
}

/// An app comes by CONNECT, and writes bytes.
pub fn raw_app_comes(alloc: Global, state: &mut State, bytes: &[u8]) -> Result<(), NoMemory>
    ensures { OnOk result (spec.RawAppComes bytes.now state.old state.new) }
{
    state.apps.push(App::new(alloc, Home::Connect))?;
    let app = state.apps.len() as u64;
    hear(alloc, state, app, bytes)
}

#[tactic(auto, unfolding(crate::specs::Arrivals::request_text))]
fn request(alloc: Global, address: &str) -> Result<Blob, NoMemory>
    ensures { IfOk result (λ bytes. bytes ≡ spec.request_text address.now) }
{
    let mut bytes = Blob::of(alloc, b"CONNECT ")?;
    bytes.append(address.as_bytes())?;
    bytes.append(b" HTTP/1.1\r\nHost: ")?;
    bytes.append(address.as_bytes())?;
    bytes.append(b"\r\n\r\n")?;
    Ok(bytes)
}

/// An app comes by CONNECT, and asks for an address.
pub fn connect_app_comes(alloc: Global, state: &mut State, address: &str) -> Result<(), NoMemory>
    ensures { OnOk result (spec.RawAppComes (spec.request_text address.now) state.old state.new) }
{
    let bytes = request(alloc, address)?;
    raw_app_comes(alloc, state, bytes.as_slice())
}
