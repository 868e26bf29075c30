//! A new agent: its connection begins, and on it the agent's call.

ghost use Rattle.std.specs.Prelude.{◌≡◌, IfOk, OnOk};
ghost use Rattle.kn_ends.specs.declared.who.Who.TheVariants as who;
ghost use Rattle.kn_ends.specs.Carriers.{with_call};
ghost use Rattle.kn_agent_node.specs.Calls as call;

use crate::node::Node;
use crate::requests::Requests;
use kn_edge_core::AgentCore;
use kn_ends::{Carrier, Inlets, PacketQueue, Who, begin};
use kn_grpc::{Service, call_head};
use kn_h2::{Conn, Role};
use kn_hpack::Headers;
use kn_io::NoMemory;
use kn_rising::{Rising, Stirred};
use std::alloc::Global;

fn fresh_carrier(alloc: Global) -> Result<Carrier, NoMemory>
    ensures { IfOk result (λ carrier. carrier ≡ call.fresh_carrier) }
{
    let conn = Conn::new(alloc, Role::Client)?;
    Ok(Carrier {
        conn,
        lost: false,
        inlets: Inlets::new(alloc),
    })
}

/// The call begins on the first stream of a new connection, which refuses none.
fn begin_call(alloc: Global, carrier: &mut Carrier, head: &Headers) -> Result<u32, NoMemory>
    requires { carrier.old ≡ call.fresh_carrier }
    ensures stream { IfOk result (λ stream. stream ≡ call.first_stream) }
    ensures carrier { OnOk result (carrier.new ≡ with_call head.now who.Server call.fresh_carrier) }
{
    match begin(carrier, alloc, head, Who::Server)? {
        Some(stream) => Ok(stream),
        None => Err(NoMemory),
    }
}

fn new_node(alloc: Global, server: u64, carrier: Carrier, stream: u32) -> Node
    ensures { result ≡ call.new_node server carrier stream }
{
    Node {
        core: AgentCore::new(alloc),
        carrier,
        server,
        stream,
        top: server,
        behind: PacketQueue::new(alloc),
        sides: Rising::new(alloc),
        by_ticket: Rising::new(alloc),
        by_id: Rising::new(alloc),
        dials: Requests::new(alloc),
        losing: false,
        answer: None,
        handled: 0,
        asked: 0,
        gone: 0,
        stirred: Stirred::new(alloc),
    }
}

/// A new agent on a connection of this number.
pub fn started(
    alloc: Global,
    server: u64,
    authority: &str,
    agent_id: &str,
    identifiers: &str,
) -> Result<Node, NoMemory>
    ensures { IfOk result (λ node. node ≡ call.started server authority.now agent_id.now identifiers.now) }
{
    let head = call_head(alloc, Service::Agent, authority, agent_id, identifiers)?;
    let mut carrier = fresh_carrier(alloc)?;
    let stream = begin_call(alloc, &mut carrier, &head)?;
    Ok(new_node(alloc, server, carrier, stream))
}
