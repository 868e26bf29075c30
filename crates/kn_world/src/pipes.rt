//! What is in flight is delivered: a packet, all of a pipe, or round by round.
ghost use Rattle.std.specs.Prelude.{◌≡◌, OnOk};
ghost use Rattle.std.specs.List.{list_all};
ghost use Rattle.kn_world.specs.Pipes as spec;

use crate::event::Pipe;
use crate::parts::{Agent, Client};
use crate::server_packets::{take_of_client, take_of_link};
use crate::state::State;
use crate::{agent_steps, agents, app_steps, clients};
use kn_io::NoMemory;
use std::alloc::Global;

fn agent_up(alloc: Global, state: &mut State, link: u64) -> Result<(), NoMemory>
    ensures { OnOk result (state.new ≡ spec.agent_up link state.old) }
{
    match agents::pop_up(&mut state.agents, link) {
        Some(packet) => take_of_link(alloc, state, link, packet),
        None => Ok(()),
    }
}

fn agent_down(alloc: Global, state: &mut State, link: u64) -> Result<(), NoMemory>
    ensures { OnOk result (state.new ≡ spec.agent_down link state.old) }
{
    match agents::pop_down(&mut state.agents, link) {
        Some(packet) => agent_steps::take_packet(alloc, state, link, packet),
        None => Ok(()),
    }
}

fn client_up(alloc: Global, state: &mut State, client: u64) -> Result<(), NoMemory>
    ensures { OnOk result (state.new ≡ spec.client_up client state.old) }
{
    match clients::pop_up(&mut state.clients, client) {
        Some(packet) => take_of_client(alloc, state, client, packet),
        None => Ok(()),
    }
}

fn client_down(alloc: Global, state: &mut State, client: u64) -> Result<(), NoMemory>
    ensures { OnOk result (state.new ≡ spec.client_down client state.old) }
{
    match clients::pop_down(&mut state.clients, client) {
        Some(packet) => app_steps::take_packet(alloc, state, client, packet),
        None => Ok(()),
    }
}

/// The first packet of a pipe is delivered, where there is one.
pub fn step(alloc: Global, state: &mut State, pipe: Pipe) -> Result<(), NoMemory>
    ensures { OnOk result (state.new ≡ spec.step pipe state.old) }
{
    match pipe {
        Pipe::AgentUp(agent) => agent_up(alloc, state, agent as u64),
        Pipe::AgentDown(agent) => agent_down(alloc, state, agent as u64),
        Pipe::ClientUp(client) => client_up(alloc, state, client as u64),
        Pipe::ClientDown(client) => client_down(alloc, state, client as u64),
    }
}

fn steps(alloc: Global, state: &mut State, pipe: Pipe, count: usize) -> Result<(), NoMemory>
    ensures { OnOk result (state.new ≡ spec.steps count pipe state.old) }
{
    let mut left = count;
    'packets: while left > 0 {
        step(alloc, state, pipe)?;
        left -= 1;
    }
    Ok(())
}

fn count_in(state: &State, pipe: Pipe) -> usize
    ensures { result ≡ spec.count_in pipe state.now }
{
    match pipe {
        Pipe::AgentUp(agent) => agents::up_count(&state.agents, agent as u64),
        Pipe::AgentDown(agent) => agents::down_count(&state.agents, agent as u64),
        Pipe::ClientUp(client) => clients::up_count(&state.clients, client as u64),
        Pipe::ClientDown(client) => clients::down_count(&state.clients, client as u64),
    }
}

// All that is in a pipe is delivered.
#[tactic(auto, unfolding(crate::specs::Pipes::delivered))]
fn deliver(alloc: Global, state: &mut State, pipe: Pipe) -> Result<(), NoMemory>
    ensures { OnOk result (state.new ≡ spec.delivered pipe state.old) }
{
    let count = count_in(state, pipe);
    steps(alloc, state, pipe, count)
}

fn deliver_agents(alloc: Global, state: &mut State, count: usize) -> Result<(), NoMemory>
    ensures { OnOk result (state.new ≡ spec.agents_delivered count state.old) }
{
    let mut done = 0;
    'agents: while done < count {
        done += 1;
        deliver(alloc, state, Pipe::AgentUp(done))?;
        deliver(alloc, state, Pipe::AgentDown(done))?;
    }
    Ok(())
}

fn deliver_clients(alloc: Global, state: &mut State, count: usize) -> Result<(), NoMemory>
    ensures { OnOk result (state.new ≡ spec.clients_delivered count state.old) }
{
    let mut done = 0;
    'clients: while done < count {
        done += 1;
        deliver(alloc, state, Pipe::ClientUp(done))?;
        deliver(alloc, state, Pipe::ClientDown(done))?;
    }
    Ok(())
}

#[tactic(auto, unfolding(crate::specs::Pipes::round))]
fn round(alloc: Global, state: &mut State) -> Result<(), NoMemory>
    ensures { OnOk result (state.new ≡ spec.round state.old) }
{
    let agent_count = state.agents.len();
    deliver_agents(alloc, state, agent_count)?;
    let client_count = state.clients.len();
    deliver_clients(alloc, state, client_count)
}

fn is_bare_agent(agent: &Agent) -> bool
    ensures { result ≡ spec.is_bare_agent agent.now }
{
    agent.up.is_empty() && agent.down.is_empty()
}

fn is_bare_client(client: &Client) -> bool
    ensures { result ≡ spec.is_bare_client client.now }
{
    client.up.is_empty() && client.down.is_empty()
}

fn are_bare_agents(agents: &[Agent]) -> bool
    ensures { result ≡ list_all spec.is_bare_agent agents.now }
{
    agents.iter().all(|agent| is_bare_agent(agent))
}

fn are_bare_clients(clients: &[Client]) -> bool
    ensures { result ≡ list_all spec.is_bare_client clients.now }
{
    clients.iter().all(|client| is_bare_client(client))
}

/// Whether no pipe has a packet.
#[tactic(auto, unfolding(crate::specs::Pipes::nothing_in_flight))]
pub fn nothing_in_flight(state: &State) -> bool
    ensures { result ≡ spec.nothing_in_flight state.now }
{
    are_bare_agents(state.agents.as_slice()) && are_bare_clients(state.clients.as_slice())
}

/// At most so many rounds. One before which nothing is in flight is the last.
pub fn rounds(alloc: Global, state: &mut State, count: u64) -> Result<(), NoMemory>
    ensures { OnOk result (state.new ≡ spec.rounds count state.old) }
{
    let mut left = count;
    'rounds: while left > 0 {
        if nothing_in_flight(state) {
            return Ok(());
        }
        round(alloc, state)?;
        left -= 1;
    }
    Ok(())
}
