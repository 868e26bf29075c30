//! The three nodes, and what goes between them.

use crate::side::{calm_all, carry};
use kn_agent_node::AgentNode;
use kn_client_node::ClientNode;
use kn_io::{NoMemory, Text};
use kn_route::Strategies;
use kn_server_node::{ServerKind, ServerNode};
use std::alloc::Global;

/// The numbers of the connections between the nodes: at the server that of the agent and that of the client, at
/// each of those two that of the server.
const OF_AGENT: u64 = 1;

const OF_CLIENT: u64 = 2;

const OF_SERVER: u64 = 1;

/// Which way bytes go.
#[derive(Clone, Copy)]
pub enum Way {
    /// From apps to destinations.
    Up,
    /// From destinations to apps.
    Down,
}

/// A new server.
pub fn fresh_server(alloc: Global) -> Result<ServerNode, NoMemory> {
    match Strategies::read(alloc, "default") {
        Ok(strategies) => Ok(ServerNode::new(alloc, strategies, Text::of(alloc, "s1")?)),
        Err(_fault) => Err(NoMemory),
    }
}

/// A new agent.
pub fn fresh_agent(alloc: Global) -> Result<AgentNode, NoMemory> {
    AgentNode::new(alloc, OF_SERVER, "server:8091", "agent-1", "host=a")
}

/// A new client.
pub fn fresh_client(alloc: Global) -> Result<ClientNode, NoMemory> {
    ClientNode::new(alloc, OF_SERVER, "server:8090")
}

/// The number that a further connection has at a node with this greatest one.
fn next(top: u64) -> u64 {
    top.saturating_add(1)
}

/// A connection to the server begins.
fn open(alloc: Global, server: &mut ServerNode, kind: ServerKind) -> Result<(), NoMemory> {
    let conn = next(server.top());
    if server.top() < conn {
        server.opened(alloc, conn, kind)
    } else {
        Ok(())
    }
}

/// An app comes, and asks for an address; its number.
pub fn come(alloc: Global, client: &mut ClientNode) -> Result<u64, NoMemory> {
    let conn = next(client.top());
    if client.top() < conn {
        client.app(alloc, conn, "a:1")?;
    }
    Ok(conn)
}

fn begin(alloc: Global, agent: &mut AgentNode, ticket: u64, conn: u64) -> Result<(), NoMemory> {
    if agent.top() < conn {
        agent.began(alloc, ticket, conn)
    } else {
        Ok(())
    }
}

fn win(alloc: Global, agent: &mut AgentNode, conn: u64) -> Result<(), NoMemory> {
    agent.dialled(alloc, conn, true)
}

/// A dial of the agent succeeds; the number of the connection.
fn connect(alloc: Global, agent: &mut AgentNode, ticket: u64) -> Result<u64, NoMemory> {
    let conn = next(agent.top());
    begin(alloc, agent, ticket, conn)?;
    win(alloc, agent, conn)?;
    Ok(conn)
}

fn next_ticket(agent: &mut AgentNode) -> Option<u64> {
    match agent.next_dial() {
        Some((ticket, _address)) => Some(ticket),
        None => None,
    }
}

/// The dial that the agent asks for next, if it asks for one, succeeds; the number of its connection.
pub fn dial(alloc: Global, agent: &mut AgentNode) -> Result<Option<u64>, NoMemory> {
    match next_ticket(agent) {
        Some(ticket) => Ok(Some(connect(alloc, agent, ticket)?)),
        None => Ok(None),
    }
}

/// The agent's call and the client's connection come to the server.
pub fn join(alloc: Global, server: &mut ServerNode) -> Result<(), NoMemory> {
    open(alloc, server, ServerKind::Agents)?;
    open(alloc, server, ServerKind::Clients)
}

/// What goes from the client's side to the agent's.
fn carry_up(
    alloc: Global,
    server: &mut ServerNode,
    agent: &mut AgentNode,
    client: &mut ClientNode,
) -> Result<bool, NoMemory> {
    let in_server = carry(alloc, client, OF_SERVER, server, OF_CLIENT)?;
    let in_agent = carry(alloc, server, OF_AGENT, agent, OF_SERVER)?;
    Ok(in_server || in_agent)
}

/// What goes from the agent's side to the client's.
fn carry_down(
    alloc: Global,
    server: &mut ServerNode,
    agent: &mut AgentNode,
    client: &mut ClientNode,
) -> Result<bool, NoMemory> {
    let in_server = carry(alloc, agent, OF_SERVER, server, OF_AGENT)?;
    let in_client = carry(alloc, server, OF_CLIENT, client, OF_SERVER)?;
    Ok(in_server || in_client)
}

/// One piece goes each way on each connection between the nodes; whether one went.
pub fn carry_all(
    alloc: Global,
    server: &mut ServerNode,
    agent: &mut AgentNode,
    client: &mut ClientNode,
) -> Result<bool, NoMemory> {
    let up = carry_up(alloc, server, agent, client)?;
    let down = carry_down(alloc, server, agent, client)?;
    Ok(up || down)
}

/// Takes out what the nodes tell of connections and choices, which nobody here asks for.
pub fn calm(
    alloc: Global,
    server: &mut ServerNode,
    agent: &mut AgentNode,
    client: &mut ClientNode,
) {
    server.drop_choices(alloc);
    calm_all(server);
    calm_all(agent);
    calm_all(client);
}
