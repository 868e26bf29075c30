//! What arrived is handled, and the link is lost.

ghost use Rattle.std.specs.Prelude.{◌≡◌, OnOk};
ghost use Rattle.kn_agent_node.specs.Steps as step;

use crate::arrival::Arrival;
use crate::node::Node;
use crate::outputs::{event, event_if_fits};
use kn_edge_core::AgentEvent;
use kn_ends::{PacketQueue, deafen, reset, take};
use kn_io::NoMemory;
use kn_packet::Packet;
use std::alloc::Global;

fn dial_requests(packet: &Packet) -> u64
    ensures { result ≡ step.dial_requests packet.now }
{
    match packet {
        Packet::DialReq { .. } => 1,
        Packet::DialRsp { .. } => 0,
        Packet::CloseReq { .. } => 0,
        Packet::CloseRsp { .. } => 0,
        Packet::Data { .. } => 0,
        Packet::DialCls { .. } => 0,
        Packet::Drain => 0,
        Packet::Other { .. } => 0,
    }
}

/// A whole message is taken from the stream, and its packet handled.
fn handle_packet(alloc: Global, node: &mut Node, packet: Packet) -> Result<(), NoMemory>
    ensures { OnOk result (node.new ≡ step.handle_packet packet node.old) }
{
    take(&mut node.carrier, alloc, node.stream)?;
    node.handled = node.handled.saturating_add(1);
    node.asked = node.asked.saturating_add(dial_requests(&packet));
    event_if_fits(alloc, node, AgentEvent::Packet(packet))
}

/// What arrived is handled.
#[tactic(auto, unfolding(crate::specs::Steps::handle))]
pub fn handle(alloc: Global, node: &mut Node, arrival: Arrival) -> Result<(), NoMemory>
    ensures { OnOk result (node.new ≡ step.handle arrival node.old) }
{
    match arrival {
        Arrival::End => {
            node.losing = true;
            Ok(())
        }
        Arrival::Packet { packet } => handle_packet(alloc, node, packet),
        Arrival::Bad => {
            node.losing = true;
            reset(&mut node.carrier, alloc, node.stream, 1)
        }
    }
}

/// The link is lost.
#[tactic(auto, unfolding(crate::specs::Steps::lose))]
pub fn lose(alloc: Global, node: &mut Node) -> Result<(), NoMemory>
    ensures { OnOk result (node.new ≡ step.lose node.old) }
{
    deafen(&mut node.carrier, node.stream)?;
    node.losing = false;
    node.behind = PacketQueue::new(alloc);
    event(alloc, node, AgentEvent::LinkLost)
}
