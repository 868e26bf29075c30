//! Pauses, and what is to be handled next.

ghost use Rattle.std.specs.Prelude.{◌≡◌, List, ℕ, None, Some, IfOk, MatchOption};
ghost use Rattle.kn_packet.specs.Messages.{message};
ghost use Rattle.kn_grpc.specs.Packets.{first_of, packet_in, whole_or_bad};
ghost use Rattle.kn_edge_core.specs.AgentTables.{connection_at};
ghost use Rattle.kn_agent_node.specs.Steps as step;

use crate::arrival::Arrival;
use crate::node::Node;
use crate::sending::is_full;
use kn_ends::Inlet;
use kn_grpc::{Front, packet_as_spelled};
use kn_io::NoMemory;
use kn_packet::{PacketRef, own, view};
use std::alloc::Global;

/// From over this count of unwritten bytes of its destination on Data waits.
const UNWRITTEN_LIMIT: usize = 65_536;

fn unwritten_at(node: &Node, connect_id: &i64) -> usize
    ensures { result ≡ step.unwritten_in (connection_at connect_id.now node.now.core.connections) }
{
    match node.core.unwritten_of(*connect_id) {
        Some(count) => count,
        None => 0,
    }
}

/// Data waits for its destination.
fn data_waits(node: &Node, packet: &PacketRef<'_>) -> bool
    ensures { result ≡ step.data_waits node.now (message packet.now) }
{
    match packet {
        PacketRef::Data { connect_id, .. } => unwritten_at(node, connect_id) > UNWRITTEN_LIMIT,
        PacketRef::DialReq { .. } => false,
        PacketRef::DialRsp { .. } => false,
        PacketRef::CloseReq { .. } => false,
        PacketRef::CloseRsp { .. } => false,
        PacketRef::DialCls { .. } => false,
        PacketRef::Drain => false,
        PacketRef::Other { .. } => false,
    }
}

/// A packet waits.
fn waits(node: &Node, packet: &PacketRef<'_>) -> bool
    ensures { result ≡ step.waits node.now (message packet.now) }
{
    is_full(node) || data_waits(node, packet)
}

/// The packet that a message reads as.
fn packet_of(bytes: &[u8]) -> Option<PacketRef<'_>>
    ensures { MatchOption result (packet_in bytes.now ≡ None) (λ packet. packet_in bytes.now ≡ Some (message packet)) }
{
    packet_as_spelled();
    match view(bytes) {
        Ok(packet) => Some(packet),
        Err(_fault) => None,
    }
}

fn packet_arrival(
    alloc: Global,
    node: &Node,
    packet: PacketRef<'_>,
) -> Result<Option<Arrival>, NoMemory>
    ensures { IfOk result (λ found. found ≡ step.packet_unless (step.waits node.now (message packet.entry)) (message packet.entry)) }
{
    if waits(node, &packet) {
        return Ok(None);
    }
    let packet = own(alloc, packet)?;
    Ok(Some(Arrival::Packet { packet }))
}

fn message_arrival(
    alloc: Global,
    node: &Node,
    ended: bool,
    bytes: &[u8],
) -> Result<Option<Arrival>, NoMemory>
    ensures { (rest : List ℕ) → IfOk result (λ found. found ≡ step.front node.now ended (whole_or_bad (packet_in bytes.now) rest)) }
{
    let _ended = ended;
    match packet_of(bytes) {
        Some(packet) => packet_arrival(alloc, node, packet),
        None => Ok(Some(Arrival::Bad)),
    }
}

#[tactic(auto, unfolding(kn_grpc::specs::Packets::first_of))]
fn inlet_arrival(alloc: Global, node: &Node, inlet: &Inlet) -> Result<Option<Arrival>, NoMemory>
    ensures { IfOk result (λ found. found ≡ step.front node.now inlet.now.ended (first_of inlet.now.messages.kept)) }
{
    match inlet.messages.first() {
        Front::Less => Ok(end_arrival(inlet.ended)),
        Front::Whole { message } => message_arrival(alloc, node, inlet.ended, message),
        Front::Bad { reason: _ } => Ok(Some(Arrival::Bad)),
    }
}

fn end_arrival(ended: bool) -> Option<Arrival>
    ensures { result ≡ step.end_of ended }
{
    if ended { Some(Arrival::End) } else { None }
}

/// What is to be handled at the front of the stream.
#[tactic(auto, unfolding(crate::specs::Steps::arrival))]
pub fn arrival(alloc: Global, node: &Node) -> Result<Option<Arrival>, NoMemory>
    ensures { IfOk result (λ found. found ≡ step.arrival node.now) }
{
    match node.carrier.inlets.get(node.stream) {
        Some(inlet) => inlet_arrival(alloc, node, inlet),
        None => Ok(None),
    }
}
