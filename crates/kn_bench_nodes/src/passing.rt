//! Tunnels are opened, and bytes carried through them. Each of the three nodes is owned by a function of its own, which
//! lets go of that one alone.

use crate::nodes::{
    Way, calm, carry_all, come, dial, fresh_agent, fresh_client, fresh_server, join,
};
use crate::peers::{Sender, piece, send_all, take_all};
use kn_agent_node::AgentNode;
use kn_client_node::ClientNode;
use kn_io::NoMemory;
use kn_server_node::ServerNode;
use std::alloc::Global;

/// What there is to do.
#[derive(Clone, Copy)]
pub struct Job {
    pub way: Way,
    pub tunnels: u32,
    /// Through each of these tunnels.
    pub bytes: u64,
    /// So many tunnels stand beside them, through which nothing goes.
    pub idle: u32,
}

/// The agent's next dial succeeds, if there is one; whether there was.
fn dial_step(
    alloc: Global,
    agent: &mut AgentNode,
    destinations: &mut Vec<u64>,
) -> Result<bool, NoMemory> {
    match dial(alloc, agent)? {
        Some(conn) => {
            destinations.push(conn)?;
            Ok(true)
        }
        None => Ok(false),
    }
}

/// All that may move between the nodes does, and the agent's next dial succeeds; whether anything moved.
fn open_step(
    alloc: Global,
    server: &mut ServerNode,
    agent: &mut AgentNode,
    client: &mut ClientNode,
    destinations: &mut Vec<u64>,
) -> Result<bool, NoMemory> {
    let carried = carry_all(alloc, server, agent, client)?;
    let dialled = dial_step(alloc, agent, destinations)?;
    Ok(carried || dialled)
}

/// Steps until nothing moves.
fn settle(
    alloc: Global,
    server: &mut ServerNode,
    agent: &mut AgentNode,
    client: &mut ClientNode,
    destinations: &mut Vec<u64>,
) -> Result<(), NoMemory> {
    for _ in 0..u64::MAX {
        if !open_step(alloc, server, agent, client, destinations)? {
            return Ok(());
        }
    }
    Ok(())
}

/// The connections of the apps and of the destinations.
#[derive(Drop)]
struct Tunnels {
    apps: Vec<u64>,
    destinations: Vec<u64>,
}

/// Opens a tunnel.
fn open_one(
    alloc: Global,
    server: &mut ServerNode,
    agent: &mut AgentNode,
    client: &mut ClientNode,
    tunnels: &mut Tunnels,
) -> Result<(), NoMemory> {
    let conn = come(alloc, client)?;
    tunnels.apps.push(conn)?;
    settle(alloc, server, agent, client, &mut tunnels.destinations)?;
    calm(alloc, server, agent, client);
    Ok(())
}

/// Opens so many tunnels.
fn open_tunnels(
    alloc: Global,
    server: &mut ServerNode,
    agent: &mut AgentNode,
    client: &mut ClientNode,
    count: u32,
) -> Result<Tunnels, NoMemory> {
    let mut tunnels = Tunnels {
        apps: Vec::new(alloc),
        destinations: Vec::new(alloc),
    };
    for _ in 0..count {
        open_one(alloc, server, agent, client, &mut tunnels)?;
    }
    Ok(tunnels)
}

fn senders_of(alloc: Global, conns: &[u64], bytes: u64) -> Result<Vec<Sender>, NoMemory> {
    let mut senders = Vec::new(alloc);
    for conn in conns {
        senders.push(Sender {
            conn: *conn,
            left: bytes,
        })?;
    }
    Ok(senders)
}

/// Those who send.
fn senders(alloc: Global, job: &Job, tunnels: &Tunnels) -> Result<Vec<Sender>, NoMemory> {
    match job.way {
        Way::Up => senders_of(alloc, &tunnels.apps, job.bytes),
        Way::Down => senders_of(alloc, &tunnels.destinations, job.bytes),
    }
}

/// The side that sends gives what it can.
fn send(
    alloc: Global,
    agent: &mut AgentNode,
    client: &mut ClientNode,
    way: Way,
    senders: &mut Vec<Sender>,
    bytes: &[u8],
) -> Result<bool, NoMemory> {
    match way {
        Way::Up => send_all(alloc, client, senders, bytes),
        Way::Down => send_all(alloc, agent, senders, bytes),
    }
}

/// The side that takes has what came.
fn take(
    alloc: Global,
    agent: &mut AgentNode,
    client: &mut ClientNode,
    way: Way,
    tunnels: &Tunnels,
) -> Result<u64, NoMemory> {
    match way {
        Way::Up => take_all(alloc, agent, &tunnels.destinations),
        Way::Down => take_all(alloc, client, &tunnels.apps),
    }
}

/// What a round moved.
#[derive(Clone, Copy)]
struct Moved {
    /// Whether anything moved.
    any: bool,
    /// How many bytes came.
    came: u64,
}

/// Bytes go on by a piece everywhere.
fn round(
    alloc: Global,
    server: &mut ServerNode,
    agent: &mut AgentNode,
    client: &mut ClientNode,
    way: Way,
    tunnels: &Tunnels,
    senders: &mut Vec<Sender>,
    bytes: &[u8],
) -> Result<Moved, NoMemory> {
    let sent = send(alloc, agent, client, way, senders, bytes)?;
    let carried = carry_all(alloc, server, agent, client)?;
    let came = take(alloc, agent, client, way, tunnels)?;
    calm(alloc, server, agent, client);
    let any = sent || carried || came > 0;
    Ok(Moved { any, came })
}

/// Rounds until nothing moves; how many bytes came in all.
fn pass_all(
    alloc: Global,
    server: &mut ServerNode,
    agent: &mut AgentNode,
    client: &mut ClientNode,
    way: Way,
    tunnels: &Tunnels,
    senders: &mut Vec<Sender>,
    bytes: &[u8],
) -> Result<u64, NoMemory> {
    let mut count = 0u64;
    for _ in 0..u64::MAX {
        let moved = round(alloc, server, agent, client, way, tunnels, senders, bytes)?;
        count = count.saturating_add(moved.came);
        if !moved.any {
            return Ok(count);
        }
    }
    Ok(count)
}

/// Carries the bytes of the job through these tunnels; how many came in all.
fn pass_through(
    alloc: Global,
    server: &mut ServerNode,
    agent: &mut AgentNode,
    client: &mut ClientNode,
    job: &Job,
    tunnels: &Tunnels,
) -> Result<u64, NoMemory> {
    let bytes = piece(alloc)?;
    let mut senders = senders(alloc, job, tunnels)?;
    pass_all(
        alloc,
        server,
        agent,
        client,
        job.way,
        tunnels,
        &mut senders,
        &bytes,
    )
}

/// The agent makes itself known to the server, before any tunnel is asked for.
fn greet(
    alloc: Global,
    server: &mut ServerNode,
    agent: &mut AgentNode,
    client: &mut ClientNode,
) -> Result<(), NoMemory> {
    let mut none = Vec::new(alloc);
    settle(alloc, server, agent, client, &mut none)
}

/// Opens the tunnels of the job, and carries its bytes; how many came in all.
fn open_and_pass(
    alloc: Global,
    server: &mut ServerNode,
    agent: &mut AgentNode,
    client: &mut ClientNode,
    job: &Job,
) -> Result<u64, NoMemory> {
    greet(alloc, server, agent, client)?;
    let _idle = open_tunnels(alloc, server, agent, client, job.idle)?;
    let tunnels = open_tunnels(alloc, server, agent, client, job.tunnels)?;
    pass_through(alloc, server, agent, client, job, &tunnels)
}

fn pass_with_two(
    alloc: Global,
    server: &mut ServerNode,
    agent: &mut AgentNode,
    job: &Job,
) -> Result<u64, NoMemory> {
    let mut client = fresh_client(alloc)?;
    open_and_pass(alloc, server, agent, &mut client, job)
}

fn pass_with_one(alloc: Global, server: &mut ServerNode, job: &Job) -> Result<u64, NoMemory> {
    let mut agent = fresh_agent(alloc)?;
    pass_with_two(alloc, server, &mut agent, job)
}

fn pass_joined(alloc: Global, server: &mut ServerNode, job: &Job) -> Result<u64, NoMemory> {
    join(alloc, server)?;
    pass_with_one(alloc, server, job)
}

/// Does the job between three new nodes; how many bytes came in all.
pub fn pass(alloc: Global, job: &Job) -> Result<u64, NoMemory> {
    let mut server = fresh_server(alloc)?;
    pass_joined(alloc, &mut server, job)
}
