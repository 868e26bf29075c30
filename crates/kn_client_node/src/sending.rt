//! Packets to the server.

ghost use Rattle.std.specs.Prelude.{◌≡◌, ◌∷◌, [], ◌++◌, OnOk, IfOk};
ghost use Rattle.kn_grpc.specs.Packets.{framed};
ghost use Rattle.kn_client_node.specs.Nodes as spec;
ghost use Rattle.kn_client_node.specs.Steps as step;

use crate::node::Node;
use kn_ends::{Carrier, queue};
use kn_grpc::frame;
use kn_io::{Blob, NoMemory};
use kn_packet::{Packet, encoded_len, is_encodable};
use std::alloc::Global;

/// The longest message.
const MESSAGE_LIMIT: usize = 4_194_304;

/// While more bytes wait on the stream, packets wait behind them.
pub const QUEUE_LIMIT: usize = 5_242_880;

fn waiting(carrier: &Carrier, stream: Option<u32>) -> usize
    ensures { result ≡ spec.waiting carrier.now stream }
{
    match stream {
        Some(stream) => carrier.conn.queued(stream),
        None => 0,
    }
}

/// How many bytes wait on the stream to the server.
pub fn queue_len(node: &Node) -> usize
    ensures { result ≡ spec.queue_len node.now }
{
    waiting(&node.carrier, node.stream)
}

/// The queue to the server takes no more.
pub fn is_full(node: &Node) -> bool
    ensures { result ≡ spec.is_full (spec.queue_len node.now) }
{
    queue_len(node) > QUEUE_LIMIT
}

/// A packet that is queued now goes behind the queue.
fn waits_behind(node: &Node) -> bool
    ensures { result ≡ spec.waits_behind node.now }
{
    !node.behind.is_empty() || is_full(node)
}

/// A packet as the stream carries it.
pub fn framed(alloc: Global, packet: &Packet) -> Result<Blob, NoMemory>
    ensures { IfOk result (λ bytes. bytes ≡ framed packet.now) }
{
    if !is_encodable(packet) {
        return Err(NoMemory);
    }
    if encoded_len(packet) > MESSAGE_LIMIT {
        return Err(NoMemory);
    }
    frame(alloc, packet)
}

fn send_on(carrier: &mut Carrier, stream: Option<u32>, bytes: &[u8]) -> Result<(), NoMemory>
    ensures { OnOk result (carrier.new ≡ spec.sent_on stream bytes.now carrier.old) }
{
    match stream {
        Some(stream) => queue(carrier, stream, bytes),
        None => Ok(()),
    }
}

fn send_bytes(node: &mut Node, bytes: Blob) -> Result<(), NoMemory>
    ensures { OnOk result (node.new ≡ spec.bytes_to_server bytes node.old) }
{
    if waits_behind(node) {
        node.behind.push(bytes)
    } else {
        send_on(&mut node.carrier, node.stream, bytes.as_slice())
    }
}

/// A packet goes to the queue, or behind it.
pub fn to_server(alloc: Global, node: &mut Node, packet: &Packet) -> Result<(), NoMemory>
    ensures { OnOk result (node.new ≡ spec.to_server packet.now node.old) }
{
    let bytes = framed(alloc, packet)?;
    send_bytes(node, bytes)
}

/// The queue takes what waits behind it.
pub fn can_admit(node: &Node) -> bool
    ensures { result ≡ step.can_admit node.now }
{
    !node.behind.is_empty() && !is_full(node)
}

/// The first packet behind the queue goes to it.
#[tactic(auto, unfolding(crate::specs::Steps::admit))]
pub fn admit(node: &mut Node) -> Result<(), NoMemory>
    ensures { OnOk result (node.new ≡ step.admit node.old.behind node.old) }
{
    match node.behind.pop() {
        Some(bytes) => send_on(&mut node.carrier, node.stream, bytes.as_slice()),
        None => Ok(()),
    }
}
