//! Pauses, and what is to be handled next.

ghost use Rattle.std.specs.Prelude.{◌≡◌, List, ℕ, None, Some, IfOk, MatchOption};
ghost use Rattle.kn_packet.specs.Messages.{message};
ghost use Rattle.kn_grpc.specs.Packets.{first_of, packet_in, whole_or_bad};
ghost use Rattle.kn_client_node.specs.Nodes as spec;
ghost use Rattle.kn_client_node.specs.Steps as step;

use crate::arrival::Arrival;
use crate::node::Node;
use crate::sending::is_full;
use kn_edge_core::ClientCore;
use kn_ends::Inlet;
use kn_grpc::{Front, packet_as_spelled};
use kn_io::NoMemory;
use kn_packet::{PacketRef, own, view};
use std::alloc::Global;

/// While more bytes are to be written to an app, data for it waits.
const UNWRITTEN_LIMIT: usize = 65_536;

fn is_long_for(core: &ClientCore, app: u64) -> bool
    ensures { result ≡ spec.is_long_for (spec.app_of_number core.now app) }
{
    match core.unwritten_of(app) {
        Some(count) => count > UNWRITTEN_LIMIT,
        None => false,
    }
}

/// Data of a connectID waits for its app.
fn is_long_at(core: &ClientCore, connect_id: &i64) -> bool
    ensures { result ≡ spec.is_long_at core.now connect_id.now }
{
    match core.taker_of(*connect_id) {
        Some(app) => is_long_for(core, app),
        None => false,
    }
}

fn data_waits(core: &ClientCore, packet: &PacketRef<'_>) -> bool
    ensures { result ≡ spec.data_waits core.now (message packet.now) }
{
    match packet {
        PacketRef::Data { connect_id, .. } => is_long_at(core, connect_id),
        PacketRef::DialReq { .. } => false,
        PacketRef::DialRsp { .. } => false,
        PacketRef::CloseReq { .. } => false,
        PacketRef::CloseRsp { .. } => false,
        PacketRef::DialCls { .. } => false,
        PacketRef::Drain => false,
        PacketRef::Other { .. } => false,
    }
}

/// A packet waits.
fn waits(node: &Node, packet: &PacketRef<'_>) -> bool
    ensures { result ≡ spec.waits node.now (message packet.now) }
{
    is_full(node) || data_waits(&node.core, packet)
}

/// The packet that a message reads as.
fn packet_of(bytes: &[u8]) -> Option<PacketRef<'_>>
    ensures { MatchOption result (packet_in bytes.now ≡ None) (λ packet. packet_in bytes.now ≡ Some (message packet)) }
{
    packet_as_spelled();
    match view(bytes) {
        Ok(packet) => Some(packet),
        Err(_fault) => None,
    }
}

fn packet_arrival(
    alloc: Global,
    node: &Node,
    packet: PacketRef<'_>,
) -> Result<Option<Arrival>, NoMemory>
    ensures { IfOk result (λ found. found ≡ step.packet_unless (spec.waits node.now (message packet.entry)) (message packet.entry)) }
{
    if waits(node, &packet) {
        return Ok(None);
    }
    let packet = own(alloc, packet)?;
    Ok(Some(Arrival::Packet { packet }))
}

fn message_arrival(
    alloc: Global,
    node: &Node,
    ended: bool,
    bytes: &[u8],
) -> Result<Option<Arrival>, NoMemory>
    ensures { (rest : List ℕ) → IfOk result (λ found. found ≡ step.front node.now ended (whole_or_bad (packet_in bytes.now) rest)) }
{
    let _ended = ended;
    match packet_of(bytes) {
        Some(packet) => packet_arrival(alloc, node, packet),
        None => Ok(Some(Arrival::Bad)),
    }
}

fn end_arrival(ended: bool) -> Option<Arrival>
    ensures { result ≡ step.end_of ended }
{
    if ended { Some(Arrival::End) } else { None }
}

#[tactic(auto, unfolding(kn_grpc::specs::Packets::first_of))]
fn inlet_arrival(alloc: Global, node: &Node, inlet: &Inlet) -> Result<Option<Arrival>, NoMemory>
    ensures { IfOk result (λ found. found ≡ step.front node.now inlet.now.ended (first_of inlet.now.messages.kept)) }
{
    match inlet.messages.first() {
        Front::Less => Ok(end_arrival(inlet.ended)),
        Front::Whole { message } => message_arrival(alloc, node, inlet.ended, message),
        Front::Bad { reason: _ } => Ok(Some(Arrival::Bad)),
    }
}

fn arrival_on(alloc: Global, node: &Node, stream: u32) -> Result<Option<Arrival>, NoMemory>
    ensures { IfOk result (λ found. found ≡ step.front_in node.now (step.inlet_of node.now.carrier (Some stream))) }
{
    match node.carrier.inlets.get(stream) {
        Some(inlet) => inlet_arrival(alloc, node, inlet),
        None => Ok(None),
    }
}

/// What is to be handled at the front of the stream.
#[tactic(auto, unfolding(crate::specs::Steps::arrival))]
pub fn arrival(alloc: Global, node: &Node) -> Result<Option<Arrival>, NoMemory>
    ensures { IfOk result (λ found. found ≡ step.arrival node.now) }
{
    match node.stream {
        Some(stream) => arrival_on(alloc, node, stream),
        None => Ok(None),
    }
}
