//! A server, an agent and a client in memory: what is to be written at one end of a connection is carried to the other in pieces.

use crate::peer::{Peer, exchange, sample};
use crate::side::{Side, carry};
use kn_agent_node::AgentNode;
use kn_client_node::ClientNode;
use kn_io::{NoMemory, Text};
use kn_route::Strategies;
use kn_server_node::{ServerKind, ServerNode};
use std::alloc::Global;

/// The numbers of the connections between the nodes: at the server that of the agent and that of the client, at
/// each of those two that of the server.
const OF_AGENT: u64 = 1;

const OF_CLIENT: u64 = 2;

const OF_SERVER: u64 = 1;

#[derive(Drop)]
pub struct Joined {
    server: Box<ServerNode>,
    agent: Box<AgentNode>,
    client: Box<ClientNode>,
    apps: Vec<Peer>,
    fronts: Vec<Peer>,
    /// By the order of their dials.
    destinations: Vec<Peer>,
    addresses: Vec<Text>,
    /// How many bytes each destination sends, and how many bytes a piece has at most.
    count: usize,
    size: usize,
}

fn strategies(alloc: Global) -> Result<Strategies, NoMemory> {
    match Strategies::read(alloc, "default") {
        Ok(strategies) => Ok(strategies),
        Err(_fault) => Err(NoMemory),
    }
}

fn new_server(alloc: Global) -> Result<Box<ServerNode>, NoMemory> {
    let id = Text::of(alloc, "s1")?;
    let server = ServerNode::new(alloc, strategies(alloc)?, id);
    Ok(Box::new(alloc, server)?)
}

/// A server with a connection for an agent and one for a client.
fn fresh_server(alloc: Global) -> Result<Box<ServerNode>, NoMemory> {
    let mut server = new_server(alloc)?;
    open(alloc, &mut server, ServerKind::Agents)?;
    open(alloc, &mut server, ServerKind::Clients)?;
    Ok(server)
}

fn fresh_agent(alloc: Global) -> Result<Box<AgentNode>, NoMemory> {
    let agent = AgentNode::new(alloc, OF_SERVER, "server:8091", "agent-1", "host=a")?;
    Ok(Box::new(alloc, agent)?)
}

fn fresh_client(alloc: Global) -> Result<Box<ClientNode>, NoMemory> {
    let client = ClientNode::new(alloc, OF_SERVER, "server:8090")?;
    Ok(Box::new(alloc, client)?)
}

/// The number that a further connection has at a node with this greatest one.
fn next(top: u64) -> u64 {
    top.saturating_add(1)
}

/// A connection to the server begins; its number.
fn open(alloc: Global, server: &mut ServerNode, kind: ServerKind) -> Result<u64, NoMemory> {
    let conn = next(server.top());
    if server.top() < conn {
        server.opened(alloc, conn, kind)?;
    }
    Ok(conn)
}

/// An app comes, and asks for an address; its number.
fn come(alloc: Global, client: &mut ClientNode, address: &str) -> Result<u64, NoMemory> {
    let conn = next(client.top());
    if client.top() < conn && address.len() <= 1_048_576 {
        client.app(alloc, conn, address)?;
    }
    Ok(conn)
}

fn begin(alloc: Global, agent: &mut AgentNode, ticket: u64, conn: u64) -> Result<(), NoMemory> {
    if agent.top() < conn {
        agent.began(alloc, ticket, conn)
    } else {
        Ok(())
    }
}

fn win(alloc: Global, agent: &mut AgentNode, conn: u64) -> Result<(), NoMemory> {
    agent.dialled(alloc, conn, true)
}

fn next_dial(agent: &mut AgentNode) -> Option<(u64, Text)> {
    agent.next_dial()
}

impl Joined {
    /// Three nodes, whose destinations send so many bytes each, and whose pieces have so many bytes at most.
    pub fn new(alloc: Global, count: usize, size: usize) -> Result<Joined, NoMemory> {
        Ok(Joined {
            server: fresh_server(alloc)?,
            agent: fresh_agent(alloc)?,
            client: fresh_client(alloc)?,
            apps: Vec::new(alloc),
            fronts: Vec::new(alloc),
            destinations: Vec::new(alloc),
            addresses: Vec::new(alloc),
            count,
            size,
        })
    }

    /// The same, where the agent's call has come to the server.
    pub fn started(alloc: Global, count: usize, size: usize) -> Result<Joined, NoMemory> {
        let mut joined = Joined::new(alloc, count, size)?;
        joined.run(alloc)?;
        Ok(joined)
    }

    /// An app with these bytes asks for an address.
    pub fn add_app(
        &mut self,
        alloc: Global,
        address: &str,
        bytes: Vec<u8>,
    ) -> Result<(), NoMemory> {
        let conn = come(alloc, &mut self.client, address)?;
        self.apps.push(Peer::new(alloc, conn, bytes))?;
        Ok(())
    }

    /// One with these bytes comes to the server's port for CONNECT.
    pub fn add_front(&mut self, alloc: Global, bytes: Vec<u8>) -> Result<(), NoMemory> {
        let conn = open(alloc, &mut self.server, ServerKind::Connect)?;
        self.fronts.push(Peer::new(alloc, conn, bytes))?;
        Ok(())
    }

    /// One piece goes each way on each connection between the nodes; whether one went.
    fn carry_all(&mut self, alloc: Global) -> Result<bool, NoMemory> {
        let size = self.size;
        let up = carry(
            alloc,
            &mut *self.client,
            OF_SERVER,
            &mut *self.server,
            OF_CLIENT,
            size,
        )?;
        let out = carry(
            alloc,
            &mut *self.server,
            OF_AGENT,
            &mut *self.agent,
            OF_SERVER,
            size,
        )?;
        let back = carry(
            alloc,
            &mut *self.agent,
            OF_SERVER,
            &mut *self.server,
            OF_AGENT,
            size,
        )?;
        let down = carry(
            alloc,
            &mut *self.server,
            OF_CLIENT,
            &mut *self.client,
            OF_SERVER,
            size,
        )?;
        Ok(up || out || back || down)
    }

    /// The dial that the agent asks for is made, and a destination stands behind it; whether there was one.
    fn dial(&mut self, alloc: Global) -> Result<bool, NoMemory> {
        match next_dial(&mut self.agent) {
            None => Ok(false),
            Some((ticket, address)) => {
                self.add_destination(alloc, ticket)?;
                self.addresses.push(address)?;
                Ok(true)
            }
        }
    }

    fn add_destination(&mut self, alloc: Global, ticket: u64) -> Result<(), NoMemory> {
        let conn = next(self.agent.top());
        begin(alloc, &mut self.agent, ticket, conn)?;
        win(alloc, &mut self.agent, conn)?;
        let bytes = sample(alloc, conn, self.count)?;
        self.destinations.push(Peer::new(alloc, conn, bytes))?;
        Ok(())
    }

    /// Each peer sends and takes a piece; whether one came or went.
    fn exchange_all(&mut self, alloc: Global) -> Result<bool, NoMemory> {
        let apps = exchange(alloc, &mut *self.client, &mut self.apps)?;
        let fronts = exchange(alloc, &mut *self.server, &mut self.fronts)?;
        let destinations = exchange(alloc, &mut *self.agent, &mut self.destinations)?;
        Ok(apps || fronts || destinations)
    }

    /// All that may move by one piece does; whether anything did.
    pub fn step(&mut self, alloc: Global) -> Result<bool, NoMemory> {
        let carried = self.carry_all(alloc)?;
        let dialled = self.dial(alloc)?;
        let exchanged = self.exchange_all(alloc)?;
        Ok(carried || dialled || exchanged)
    }

    /// Steps until nothing moves.
    pub fn run(&mut self, alloc: Global) -> Result<(), NoMemory> {
        for _step in 0..u64::MAX {
            if !self.step(alloc)? {
                return Ok(());
            }
        }
        Ok(())
    }

    /// Whether the agent knows its server by this id, and as one of so many.
    pub fn knows(&self, id: &str, count: u32) -> bool {
        match self.agent.server_id() {
            Some(known) => known == id && self.agent.server_count() == count,
            None => false,
        }
    }

    pub fn apps(&self) -> &[Peer] {
        self.apps.as_slice()
    }

    pub fn fronts(&self) -> &[Peer] {
        self.fronts.as_slice()
    }

    pub fn destinations(&self) -> &[Peer] {
        self.destinations.as_slice()
    }

    pub fn addresses(&self) -> &[Text] {
        self.addresses.as_slice()
    }
}
