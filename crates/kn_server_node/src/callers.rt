//! Calls that come: heads on streams.

ghost use Rattle.std.specs.Prelude.{◌≡◌, false, [], OnOk, IfOk};
ghost use Rattle.kn_grpc.specs.Calls.{IsCallAnswer};
ghost use Rattle.kn_grpc.specs.declared.call.Service.TheVariants.{Agent, Proxy};
ghost use Rattle.kn_rising.specs.Members.{at};
ghost use Rattle.kn_server_node.specs.Callers as spec;

use crate::end::End;
use crate::limits::{counting, has_no_front, has_no_link};
use crate::node::Node;
use crate::outputs::event;
use crate::place::Place;
use kn_ends::Who;
use kn_grpc::{
    Call, CallError, CallFault, Service, answer_head, read_call, refusal_head, service_in_path,
};
use kn_hpack::Headers;
use kn_io::NoMemory;
use kn_route::Identifiers;
use kn_server_core::ServerEvent;
use std::alloc::Global;

/// What a connection told is kept.
pub fn collect(alloc: Global, node: &mut Node, conn: u64) -> Result<(), NoMemory>
    ensures { OnOk result (node.new ≡ spec.collect conn node.old) }
{
    node.stirred.add(conn)?;
    let events = node.ends.take_events(alloc, conn)?;
    node.told.append(conn, events)
}

/// A stream has somebody from now on, and is answered.
fn accept(
    alloc: Global,
    node: &mut Node,
    conn: u64,
    stream: u32,
    who: Who,
    service: Service,
) -> Result<(), NoMemory>
    ensures { OnOk result (node.new ≡ spec.answered_call conn stream who service node.old) }
{
    let head = answer_head(alloc, service, node.id.as_str(), node.count)?;
    node.stirred.add(conn)?;
    node.ends.accept(alloc, conn, stream, who, &head)?;
    collect(alloc, node, conn)
}

/// An agent's call is accepted.
#[tactic(auto, unfolding(crate::specs::Callers::link_up))]
fn link_up(
    alloc: Global,
    node: &mut Node,
    conn: u64,
    stream: u32,
    identifiers: Identifiers,
) -> Result<(), NoMemory>
    requires { spec.has_no_link node.old ≡ false }
    ensures { OnOk result (node.new ≡ spec.link_up conn stream identifiers node.old) }
{
    let link = node.core.links().top() + 1;
    node.past_links = counting(alloc, &node.ends, &node.past_links)?;
    node.links.insert(link, Place { conn, stream })?;
    accept(
        alloc,
        node,
        conn,
        stream,
        Who::Link { link },
        Service::Agent,
    )?;
    event(alloc, node, ServerEvent::LinkUp { link, identifiers })
}

/// A client's call is accepted.
#[tactic(auto, unfolding(crate::specs::Callers::front_up))]
fn front_up(alloc: Global, node: &mut Node, conn: u64, stream: u32) -> Result<(), NoMemory>
    requires { spec.has_no_front node.old ≡ false }
    ensures { OnOk result (node.new ≡ spec.front_up conn stream node.old) }
{
    let front = node.core.top_front() + 1;
    node.past_fronts = counting(alloc, &node.ends, &node.past_fronts)?;
    node.fronts.insert(front, Place { conn, stream })?;
    accept(
        alloc,
        node,
        conn,
        stream,
        Who::Front { front },
        Service::Proxy,
    )?;
    event(alloc, node, ServerEvent::FrontUp { front })
}

/// A call is refused.
#[tactic(auto, unfolding(crate::specs::Callers::refused_call))]
fn refuse(
    alloc: Global,
    node: &mut Node,
    conn: u64,
    stream: u32,
    fault: CallFault,
) -> Result<(), NoMemory>
    ensures { OnOk result (node.new ≡ spec.refused_call conn stream fault node.old) }
{
    let head = refusal_head(alloc, fault)?;
    node.stirred.add(conn)?;
    node.ends.refuse(alloc, conn, stream, head)
}

/// A call is over the limit: REFUSED_STREAM (RFC 9113, section 7).
#[tactic(auto, unfolding(crate::specs::Callers::over_limit))]
fn turn_away(alloc: Global, node: &mut Node, conn: u64, stream: u32) -> Result<(), NoMemory>
    ensures { OnOk result (node.new ≡ spec.over_limit conn stream node.old) }
{
    node.stirred.add(conn)?;
    node.ends.reset(alloc, conn, stream, 7)?;
    collect(alloc, node, conn)
}

fn agent_in(
    alloc: Global,
    node: &mut Node,
    conn: u64,
    stream: u32,
    identifiers: Identifiers,
) -> Result<(), NoMemory>
    ensures { OnOk result (node.new ≡ spec.service_in conn stream Agent identifiers node.old) }
{
    if has_no_link(node) {
        turn_away(alloc, node, conn, stream)
    } else {
        link_up(alloc, node, conn, stream, identifiers)
    }
}

fn client_in(alloc: Global, node: &mut Node, conn: u64, stream: u32) -> Result<(), NoMemory>
    ensures { OnOk result (node.new ≡ spec.service_in conn stream Proxy [] node.old) }
{
    if has_no_front(node) {
        turn_away(alloc, node, conn, stream)
    } else {
        front_up(alloc, node, conn, stream)
    }
}

fn call_in(
    alloc: Global,
    node: &mut Node,
    conn: u64,
    stream: u32,
    call: Call,
) -> Result<(), NoMemory>
    ensures { OnOk result (node.new ≡ spec.service_in conn stream call.service call.identifiers node.old) }
{
    match call.service {
        Service::Agent => agent_in(alloc, node, conn, stream, call.identifiers),
        Service::Proxy => client_in(alloc, node, conn, stream),
    }
}

/// A path names the service of the other kind of connections.
fn is_other(for_agents: bool, service: Option<Service>) -> bool
    ensures { result ≡ spec.is_other for_agents service }
{
    match service {
        Some(Service::Agent) => !for_agents,
        Some(Service::Proxy) => for_agents,
        None => false,
    }
}

#[tactic(auto, unfolding(crate::specs::Callers::call_for))]
fn read(alloc: Global, for_agents: bool, headers: &Headers) -> Result<Call, CallError>
    ensures { IsCallAnswer (spec.call_for for_agents headers.now) result }
{
    if is_other(for_agents, service_in_path(headers)) {
        Err(CallError::Fault(CallFault::Path))
    } else {
        read_call(alloc, headers)
    }
}

fn come(
    alloc: Global,
    node: &mut Node,
    conn: u64,
    stream: u32,
    for_agents: bool,
    headers: &Headers,
) -> Result<(), NoMemory>
    ensures { OnOk result (node.new ≡ spec.call_came conn stream (spec.call_for for_agents headers.now) node.old) }
{
    match read(alloc, for_agents, headers) {
        Ok(call) => call_in(alloc, node, conn, stream, call),
        Err(CallError::Fault(fault)) => refuse(alloc, node, conn, stream, fault),
        Err(CallError::NoMemory) => Err(NoMemory),
    }
}

/// Whose calls the streams of a connection are.
fn for_agents(node: &Node, conn: u64) -> Option<bool>
    ensures { result ≡ spec.for_agents_in (at node.now.ends conn) }
{
    match node.ends.get(conn) {
        Some(End::Streams { for_agents, .. }) => Some(*for_agents),
        Some(End::Connect { .. }) => None,
        None => None,
    }
}

/// A head came on a new stream.
pub fn opened(
    alloc: Global,
    node: &mut Node,
    conn: u64,
    stream: u32,
    headers: &Headers,
) -> Result<(), NoMemory>
    ensures { OnOk result (node.new ≡ spec.opened_by (spec.for_agents_in (at node.old.ends conn)) conn stream headers.now node.old) }
{
    match for_agents(node, conn) {
        Some(for_agents) => come(alloc, node, conn, stream, for_agents, headers),
        None => Ok(()),
    }
}
