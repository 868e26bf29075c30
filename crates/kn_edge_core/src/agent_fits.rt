ghost use Rattle.std.specs.Prelude.{IsTrue, ◌↔◌};
ghost use Rattle.kn_edge_core.specs.AgentTables.{connection_at};
ghost use Rattle.kn_edge_core.specs.Agent as spec;

use crate::agent_event::AgentEvent;
use crate::agent_state::AgentState;
use kn_packet::Packet;

// Whether the count of a destination's unwritten bytes has room for more.
fn has_room(state: &AgentState, connect_id: &i64, count: usize) -> bool
    ensures { IsTrue result ↔ spec.HasRoom count (connection_at connect_id.now state.now.connections) }
{
    match state.connections.find(connect_id) {
        Some(connection) => count <= usize::MAX - connection.unwritten,
        None => true,
    }
}

// Whether so many bytes were to be written to a destination.
fn were_unwritten(state: &AgentState, connect_id: &i64, count: usize) -> bool
    ensures { IsTrue result ↔ spec.WereUnwritten count (connection_at connect_id.now state.now.connections) }
{
    match state.connections.find(connect_id) {
        Some(connection) => count <= connection.unwritten,
        None => true,
    }
}

fn packet_fits(state: &AgentState, packet: &Packet) -> bool
    ensures { IsTrue result ↔ spec.FitsPacket state.now packet.now }
{
    match packet {
        Packet::Data {
            connect_id,
            error: _,
            bytes,
        } => has_room(state, connect_id, bytes.len()),
        Packet::DialReq { .. } => true,
        Packet::DialRsp { .. } => true,
        Packet::CloseReq { .. } => true,
        Packet::CloseRsp { .. } => true,
        Packet::DialCls { .. } => true,
        Packet::Drain => true,
        Packet::Other { .. } => true,
    }
}

/// Whether an event may come.
pub(crate) fn event_fits(state: &AgentState, event: &AgentEvent) -> bool
    ensures { IsTrue result ↔ spec.Fits state.now event.now }
{
    match event {
        AgentEvent::Packet(packet) => packet_fits(state, packet),
        AgentEvent::DestWrote { connect_id, count } => were_unwritten(state, connect_id, *count),
        AgentEvent::DialUp { .. } => true,
        AgentEvent::DialRefused { .. } => true,
        AgentEvent::DestBytes { .. } => true,
        AgentEvent::DestEnd { .. } => true,
        AgentEvent::DestFailed { .. } => true,
        AgentEvent::LinkLost => true,
        AgentEvent::DrainNow => true,
    }
}
