//! What arrived is handled, and the stream is over.

ghost use Rattle.std.specs.Prelude.{◌≡◌, OnOk};
ghost use Rattle.kn_ends.specs.Carriers.{reset_stream};
ghost use Rattle.kn_client_node.specs.Nodes as spec;
ghost use Rattle.kn_client_node.specs.Steps as step;

use crate::apps::tunnel_up;
use crate::arrival::Arrival;
use crate::node::Node;
use crate::outputs::{event, event_if_fits};
use crate::texts::end_text;
use kn_edge_core::{AppState, ClientCore, ClientEvent};
use kn_ends::{PacketQueue, deafen, is_live, reset, take};
use kn_io::{NoMemory, Text};
use kn_packet::Packet;
use std::alloc::Global;

fn if_dialling(app: u64, state: Option<AppState>) -> Option<u64>
    ensures { result ≡ spec.if_dialling app state }
{
    match state {
        Some(AppState::Dialling) => Some(app),
        Some(AppState::Open) => None,
        Some(AppState::Closing) => None,
        Some(AppState::Lingering) => None,
        None => None,
    }
}

/// The app that waits for a reply with this random.
fn asker(core: &ClientCore, random: &i64) -> Option<u64>
    ensures { result ≡ spec.asker core.now random.now }
{
    if *random < 0 {
        None
    } else {
        let app = *random as u64;
        if_dialling(app, core.state_of(app))
    }
}

fn without_error(error: &Text, app: Option<u64>) -> Option<u64>
    ensures { result ≡ spec.without_error error.now app }
{
    if error.is_empty() { app } else { None }
}

/// The app whose tunnel a packet opens.
fn opened_by(core: &ClientCore, packet: &Packet) -> Option<u64>
    ensures { result ≡ spec.opened_by core.now packet.now }
{
    match packet {
        Packet::DialRsp {
            error,
            connect_id: _,
            random,
        } => without_error(error, asker(core, random)),
        Packet::DialReq { .. } => None,
        Packet::CloseReq { .. } => None,
        Packet::CloseRsp { .. } => None,
        Packet::Data { .. } => None,
        Packet::DialCls { .. } => None,
        Packet::Drain => None,
        Packet::Other { .. } => None,
    }
}

#[tactic(auto, unfolding(crate::specs::Nodes::packet_event))]
fn packet_event(alloc: Global, node: &mut Node, packet: Packet) -> Result<(), NoMemory>
    ensures { OnOk result (node.new ≡ spec.packet_event packet node.old) }
{
    let opened = opened_by(&node.core, &packet);
    tunnel_up(&mut node.by_app, opened);
    event_if_fits(alloc, node, ClientEvent::Packet(packet))
}

/// A whole message is taken from the stream, and its packet handled.
fn handle_packet(
    alloc: Global,
    node: &mut Node,
    stream: u32,
    packet: Packet,
) -> Result<(), NoMemory>
    ensures { OnOk result (node.new ≡ step.handle_packet stream packet node.old) }
{
    take(&mut node.carrier, alloc, stream)?;
    node.handled = node.handled.saturating_add(1);
    packet_event(alloc, node, packet)
}

/// A message that is bad.
fn handle_bad(alloc: Global, node: &mut Node, stream: u32) -> Result<(), NoMemory>
    ensures { OnOk result (node.new ≡ spec.stream_over stream (step.on_carrier (reset_stream stream 1) node.old)) }
{
    reset(&mut node.carrier, alloc, stream, 1)?;
    stream_over(alloc, node, stream)
}

/// What arrived is handled.
#[tactic(auto, unfolding(crate::specs::Steps::handle))]
pub fn handle(alloc: Global, node: &mut Node, stream: u32, arrival: Arrival) -> Result<(), NoMemory>
    ensures { OnOk result (node.new ≡ step.handle stream arrival node.old) }
{
    match arrival {
        Arrival::End => stream_over(alloc, node, stream),
        Arrival::Packet { packet } => handle_packet(alloc, node, stream, packet),
        Arrival::Bad => handle_bad(alloc, node, stream),
    }
}

/// What arrived is handled, where a stream stands.
pub fn handle_at(alloc: Global, node: &mut Node, arrival: Arrival) -> Result<(), NoMemory>
    ensures { OnOk result (node.new ≡ step.handle_at node.old.stream arrival node.old) }
{
    match node.stream {
        Some(stream) => handle(alloc, node, stream, arrival),
        None => Ok(()),
    }
}

/// Nothing more of the stream is handled, and what waits for it is dropped.
fn leave_stream(alloc: Global, node: &mut Node, stream: u32) -> Result<(), NoMemory>
    ensures { OnOk result (node.new ≡ spec.without_stream stream node.old) }
{
    deafen(&mut node.carrier, stream)?;
    node.stream = None;
    node.behind = PacketQueue::new(alloc);
    Ok(())
}

/// The stream to the server is over: each app is told why.
#[tactic(auto, unfolding(crate::specs::Nodes::stream_over))]
pub fn stream_over(alloc: Global, node: &mut Node, stream: u32) -> Result<(), NoMemory>
    ensures { OnOk result (node.new ≡ spec.stream_over stream node.old) }
{
    let error = Text::of(alloc, end_text(is_live(&node.carrier)))?;
    leave_stream(alloc, node, stream)?;
    event(alloc, node, ClientEvent::StreamEnded { error })?;
    reset(&mut node.carrier, alloc, stream, 8)
}

/// The same, where a stream stands.
pub fn any_stream_over(alloc: Global, node: &mut Node) -> Result<(), NoMemory>
    ensures { OnOk result (node.new ≡ spec.any_stream_over node.old.stream node.old) }
{
    match node.stream {
        Some(stream) => stream_over(alloc, node, stream),
        None => Ok(()),
    }
}
