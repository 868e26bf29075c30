//! An app comes.

ghost use Rattle.std.specs.Prelude.{◌≡◌, false, true, None, IfOk, OnOk, MatchOption};
ghost use Rattle.kn_h2_state.specs.Calls.{next_number};
ghost use Rattle.kn_ends.specs.Carriers.{can_begin};
ghost use Rattle.kn_client_node.specs.Streams as streams;
ghost use Rattle.kn_client_node.specs.Nodes as spec;
ghost use Rattle.kn_client_node.specs.Calls as call;
ghost use Rattle.kn_client_node.specs.Calls.{App};

use crate::ending::Ending;
use crate::node::Node;
use crate::outputs::event;
use crate::sending::{QUEUE_LIMIT, queue_len};
use crate::side::Side;
use crate::texts;
use crate::tunnel::Tunnel;
use kn_edge_core::ClientEvent;
use kn_ends::{Carrier, Who, begin, is_live};
use kn_grpc::{Service, call_head};
use kn_h2_state::ByteQueue;
use kn_io::{NoMemory, Text};
use std::alloc::Global;

/// The number of no app: 2^63 - 1.
const NO_APP: u64 = 9_223_372_036_854_775_807;

/// The app is told why it is closed at once.
fn refuse(alloc: Global, node: &mut Node, conn: u64, error: &str) -> Result<(), NoMemory>
    ensures { OnOk result (node.new ≡ call.refused conn error.now node.old) }
{
    let error = Text::of(alloc, error)?;
    node.ended.push(Ending {
        conn,
        early: true,
        error,
    })
}

fn seat(alloc: Global, node: &mut Node, conn: u64, app: u64) -> Result<(), NoMemory>
    ensures { OnOk result (node.new ≡ call.seated conn app node.old) }
{
    let side = Side {
        app: Some(app),
        out: ByteQueue::new(alloc),
        ended: false,
    };
    node.sides.insert(conn, side)?;
    node.by_app.insert(app, Tunnel { conn, up: false })
}

/// The app draws the next number, and the core hears of it.
fn accept(alloc: Global, node: &mut Node, conn: u64, address: &str) -> Result<(), NoMemory>
    requires { call.has_no_number node.old ≡ false }
    ensures { OnOk result (node.new ≡ call.accepted conn address.now node.old) }
{
    let app = node.core.top_app() + 1;
    seat(alloc, node, conn, app)?;
    let address = Text::of(alloc, address)?;
    event(alloc, node, ClientEvent::AppUp { app, address })
}

/// The next stream begins with a call, unless the connection takes none.
fn begin_stream(
    alloc: Global,
    carrier: &mut Carrier,
    authority: &str,
) -> Result<Option<u32>, NoMemory>
    ensures { IfOk result (λ begun. MatchOption begun
        ((can_begin carrier.old ≡ false) × (carrier.new ≡ carrier.old))
        (λ n. (can_begin carrier.old ≡ true) × (n ≡ next_number carrier.old.conn.state) × (carrier.new ≡ streams.with_stream authority.now carrier.old))) }
{
    let head = call_head(alloc, Service::Proxy, authority, "", "")?;
    begin(carrier, alloc, &head, Who::Server)
}

/// The first app on a stream begins it.
fn begin_with(alloc: Global, node: &mut Node, conn: u64, address: &str) -> Result<(), NoMemory>
    requires number { call.has_no_number node.old ≡ false }
    requires none { node.old.stream ≡ None }
    ensures { OnOk result (node.new ≡ call.app_by (call.place_refusal node.old) conn address.now node.old) }
{
    match begin_stream(alloc, &mut node.carrier, node.authority.as_str())? {
        Some(stream) => {
            node.stream = Some(stream);
            accept(alloc, node, conn, address)
        }
        None => refuse(alloc, node, conn, texts::too_many_streams()),
    }
}

fn come_numbered(alloc: Global, node: &mut Node, conn: u64, address: &str) -> Result<(), NoMemory>
    requires { call.has_no_number node.old ≡ false }
    ensures { OnOk result (node.new ≡ call.app_by (call.place_refusal node.old) conn address.now node.old) }
{
    match node.stream {
        Some(_stream) => accept(alloc, node, conn, address),
        None => begin_with(alloc, node, conn, address),
    }
}

fn has_no_number(node: &Node) -> bool
    ensures { result ≡ call.has_no_number node.now }
{
    node.core.top_app() + 1 == NO_APP
}

fn come_idle(alloc: Global, node: &mut Node, conn: u64, address: &str) -> Result<(), NoMemory>
    ensures { OnOk result (node.new ≡ call.app_by (call.place_refusal node.old) conn address.now node.old) }
{
    if has_no_number(node) {
        refuse(alloc, node, conn, texts::too_many_streams())
    } else {
        come_numbered(alloc, node, conn, address)
    }
}

/// More waits for the stream, with what is kept behind its queue, than the queue takes.
fn is_busy(node: &Node) -> bool
    ensures { result ≡ spec.is_full (call.backlog node.now) }
{
    let held = queue_len(node);
    if held > QUEUE_LIMIT {
        true
    } else {
        node.behind.exceeds(QUEUE_LIMIT - held)
    }
}

fn come_live(alloc: Global, node: &mut Node, conn: u64, address: &str) -> Result<(), NoMemory>
    ensures { OnOk result (node.new ≡ call.app_by (call.queue_refusal node.old) conn address.now node.old) }
{
    if is_busy(node) {
        refuse(alloc, node, conn, texts::client_busy())
    } else {
        come_idle(alloc, node, conn, address)
    }
}

fn come(alloc: Global, node: &mut Node, conn: u64, address: &str) -> Result<(), NoMemory>
    ensures { OnOk result (node.new ≡ call.app_by (call.app_refusal node.old) conn address.now node.old) }
{
    if is_live(&node.carrier) {
        come_live(alloc, node, conn, address)
    } else {
        refuse(alloc, node, conn, texts::server_lost())
    }
}

/// An app came, and asks for an address.
#[tactic(auto, unfolding(crate::specs::Calls::called, crate::specs::Calls::app_came))]
pub fn app_came(alloc: Global, node: &mut Node, conn: u64, address: &str) -> Result<(), NoMemory>
    ensures { OnOk result (node.new ≡ call.called (App conn address.now) node.old) }
{
    node.top = conn;
    come(alloc, node, conn, address)
}
