ghost use Rattle.std.specs.Prelude.{◌+◌, ◌<◌, ◌^◌, IsTrue, ◌↔◌};
ghost use Rattle.kn_tables.specs.Lists.{first_where};
ghost use Rattle.kn_edge_core.specs.ClientTables.{is_app, is_open_at};
ghost use Rattle.kn_edge_core.specs.Client as spec;

use crate::client_event::ClientEvent;
use crate::client_state::ClientState;
use kn_packet::Packet;

/// The number that no app has: their numbers are below 2^63 − 1.
const LAST_NUMBER: u64 = 9_223_372_036_854_775_807;

// Whether two counts together are one.
fn is_room(unwritten: usize, count: usize) -> bool
    ensures { IsTrue result ↔ (unwritten + count < 2 ^ 64) }
{
    count <= usize::MAX - unwritten
}

// Whether the count of an app's unwritten bytes has room for more.
fn has_room(state: &ClientState, connect_id: &i64, count: usize) -> bool
    ensures { IsTrue result ↔ spec.HasRoom count (first_where (is_open_at connect_id.now) state.now.apps) }
{
    match state.apps.first_open(connect_id) {
        Some(app) => is_room(app.unwritten, count),
        None => true,
    }
}

// Whether so many bytes were to be written to an app.
fn were_unwritten(state: &ClientState, app: u64, count: usize) -> bool
    ensures { IsTrue result ↔ spec.WereUnwritten count (first_where (is_app app) state.now.apps) }
{
    match state.apps.find(app) {
        Some(found) => count <= found.unwritten,
        None => true,
    }
}

fn packet_fits(state: &ClientState, packet: &Packet) -> bool
    ensures { IsTrue result ↔ spec.FitsPacket state.now packet.now }
{
    match packet {
        Packet::Data {
            connect_id,
            error: _,
            bytes,
        } => has_room(state, connect_id, bytes.len()),
        Packet::DialReq { .. } => true,
        Packet::DialRsp { .. } => true,
        Packet::CloseReq { .. } => true,
        Packet::CloseRsp { .. } => true,
        Packet::DialCls { .. } => true,
        Packet::Drain => true,
        Packet::Other { .. } => true,
    }
}

// Whether an app's number is the next one.
fn is_next(state: &ClientState, app: u64) -> bool
    ensures { IsTrue result ↔ ((state.now.top_app < app) × (app < 9223372036854775807)) }
{
    state.top_app < app && app < LAST_NUMBER
}

/// Whether an event may come.
pub(crate) fn event_fits(state: &ClientState, event: &ClientEvent) -> bool
    ensures { IsTrue result ↔ spec.Fits state.now event.now }
{
    match event {
        ClientEvent::AppUp { app, .. } => is_next(state, *app),
        ClientEvent::AppWrote { app, count } => were_unwritten(state, *app, *count),
        ClientEvent::Packet(packet) => packet_fits(state, packet),
        ClientEvent::AppBytes { .. } => true,
        ClientEvent::AppEnd { .. } => true,
        ClientEvent::AppFailed { .. } => true,
        ClientEvent::StreamEnded { .. } => true,
    }
}
