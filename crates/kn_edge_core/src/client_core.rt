ghost use Rattle.std.specs.Prelude.{◌≡◌, ◌++◌, length, IsTrue, ◌↔◌, OnOk};
ghost use Rattle.std.specs.Option.{option_map};
ghost use Rattle.kn_tables.specs.Lists.{first_where};
ghost use Rattle.kn_edge_core.specs.ClientTables.{is_app, is_open_at};
ghost use Rattle.kn_edge_core.specs.Client as spec;
ghost use Rattle.kn_edge_core.specs.Sound.{IsClientSound};

use crate::app::AppState;
use crate::app_events::{app_bytes, app_ended, app_failed, app_up, app_wrote};
use crate::apps::Apps;
use crate::client_event::{ClientEvent, ClientOut};
use crate::client_fits::event_fits;
use crate::client_packets::{close_came, data_came, reply_came};
use crate::client_state::ClientState;
use crate::stream_end::stream_ended;
use kn_io::NoMemory;
use kn_packet::Packet;
use std::alloc::Global;
use std::marker::Model;

/// A client as a machine without sockets: each event of its server or its apps gives outputs in order.
/// Contracts see its state. After an `Err` it is safe to use and keeps its limits, and nothing else is said.
#[derive(Drop)]
pub struct ClientCore {
    state: ClientState,
}

impl Model for ClientCore {
    ghost use Rattle.kn_edge_core.specs.declared.client_state.ClientState.{ClientState};
    ghost use Rattle.kn_edge_core.specs.Sound.{IsClientSound};

    ghost Value = { ClientState };

    ghost view = { λ c. c.state };

    ghost invariant = { λ c. IsClientSound c.state };
}

// A packet of the server.
fn packet_came(
    state: &mut ClientState,
    packet: Packet,
    outs: &mut Vec<ClientOut>,
) -> Result<(), NoMemory>
    requires sound { IsClientSound state.old }
    requires fits { spec.FitsPacket state.old packet }
    ensures sound { IsClientSound state.new }
    ensures state { OnOk result (state.new ≡ (spec.packet_came state.old packet).state) }
    ensures outs { OnOk result (outs.new.items ≡ outs.old.items ++ (spec.packet_came state.old packet).outs) }
{
    match packet {
        Packet::DialRsp {
            error,
            connect_id,
            random,
        } => reply_came(state, error, &connect_id, &random, outs),
        Packet::Data {
            connect_id,
            error: _,
            bytes,
        } => data_came(state, &connect_id, bytes, outs),
        Packet::CloseRsp { error, connect_id } => close_came(state, &connect_id, error, outs),
        Packet::DialReq { .. } => Ok(()),
        Packet::CloseReq { .. } => Ok(()),
        Packet::DialCls { .. } => Ok(()),
        Packet::Drain => Ok(()),
        Packet::Other { .. } => Ok(()),
    }
}

// An event, over the state itself.
fn handle(
    alloc: Global,
    state: &mut ClientState,
    event: ClientEvent,
    outs: &mut Vec<ClientOut>,
) -> Result<(), NoMemory>
    requires sound { IsClientSound state.old }
    requires fits { spec.Fits state.old event }
    ensures sound { IsClientSound state.new }
    ensures state { OnOk result (state.new ≡ (spec.step state.old event).state) }
    ensures outs { OnOk result (outs.new.items ≡ outs.old.items ++ (spec.step state.old event).outs) }
{
    match event {
        ClientEvent::AppUp { app, address } => app_up(alloc, state, app, address, outs),
        ClientEvent::AppBytes { app, bytes } => app_bytes(alloc, state, app, bytes, outs),
        ClientEvent::AppEnd { app } => app_ended(alloc, state, app, outs),
        ClientEvent::AppFailed { app } => app_failed(alloc, state, app, outs),
        ClientEvent::AppWrote { app, count } => app_wrote(state, app, count, outs),
        ClientEvent::Packet(packet) => packet_came(state, packet, outs),
        ClientEvent::StreamEnded { error } => stream_ended(alloc, state, error.as_str(), outs),
    }
}

impl ClientCore {
    /// A client with no app. Takes no memory.
    pub fn new(alloc: Global) -> ClientCore
        ensures { result ≡ spec.start }
    {
        ClientCore {
            state: ClientState {
                apps: Apps::new(alloc),
                top_app: 0,
            },
        }
    }

    /// Whether an event may come now: the test for what `step` requires.
    pub fn fits(&self, event: &ClientEvent) -> bool
        ensures { IsTrue result ↔ spec.Fits self.now event.now }
    {
        event_fits(&self.state, event)
    }

    /// Handles an event, and adds its outputs in order. `AppUp` needs a number above `top_app()` and of at most
    /// 2^63 − 2. An app took no more bytes than were to be written to it, and bytes for one may come only while
    /// their count has room; `taker_of` and `unwritten_of` tell it. An event of an unknown app changes nothing.
    pub fn step(
        &mut self,
        alloc: Global,
        event: ClientEvent,
        outs: &mut Vec<ClientOut>,
    ) -> Result<(), NoMemory>
        requires { spec.Fits self.old event }
        ensures state { OnOk result (self.new ≡ (spec.step self.old event).state) }
        ensures outs { OnOk result (outs.new.items ≡ outs.old.items ++ (spec.step self.old event).outs) }
    {
        handle(alloc, &mut self.state, event, outs)
    }

    /// How many apps there are. Takes constant time.
    pub fn apps(&self) -> usize
        ensures { result ≡ length self.now.apps }
    {
        self.state.apps.len()
    }

    /// Where the tunnel of an app stands.
    pub fn state_of(&self, app: u64) -> Option<AppState>
        ensures { result ≡ option_map (λ a. a.state) (first_where (is_app app) self.now.apps) }
    {
        match self.state.apps.find(app) {
            Some(found) => Some(found.state),
            None => None,
        }
    }

    /// How many bytes are still to be written to an app.
    pub fn unwritten_of(&self, app: u64) -> Option<usize>
        ensures { result ≡ option_map (λ a. a.unwritten) (first_where (is_app app) self.now.apps) }
    {
        match self.state.apps.find(app) {
            Some(found) => Some(found.unwritten),
            None => None,
        }
    }

    /// The app that data of a connectID is for.
    pub fn taker_of(&self, connect_id: i64) -> Option<u64>
        ensures { result ≡ option_map (λ a. a.number) (first_where (is_open_at connect_id) self.now.apps) }
    {
        match self.state.apps.first_open(&connect_id) {
            Some(found) => Some(found.number),
            None => None,
        }
    }

    /// The greatest number that an app ever had, or 0.
    pub fn top_app(&self) -> u64
        ensures value { result ≡ self.now.top_app }
        ensures sound { IsClientSound self.now }
    {
        self.state.top_app
    }
}
