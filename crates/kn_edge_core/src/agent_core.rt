ghost use Rattle.std.specs.Prelude.{◌≡◌, ◌++◌, length, IsTrue, ◌↔◌, OnOk};
ghost use Rattle.std.specs.Option.{option_map};
ghost use Rattle.kn_tables.specs.Lists.{first_where};
ghost use Rattle.kn_edge_core.specs.AgentTables.{is_dial, connection_at};
ghost use Rattle.kn_edge_core.specs.Agent as spec;
ghost use Rattle.kn_edge_core.specs.Sound.{IsAgentSound};

use crate::agent_dials::{dial_refused, dial_requested, dial_up};
use crate::agent_event::{AgentEvent, AgentOut};
use crate::agent_fits::event_fits;
use crate::agent_state::AgentState;
use crate::connection::DestState;
use crate::connections::Connections;
use crate::destinations::{
    close_requested, data_came, dest_bytes, dest_ended, dest_failed, dest_wrote,
};
use crate::dials::Dials;
use crate::link_loss::{drain_now, link_lost};
use kn_io::NoMemory;
use kn_packet::Packet;
use std::alloc::Global;
use std::marker::Model;

/// An agent as a machine without sockets: each event of its server or its destinations gives outputs in order.
/// Contracts see its state. After an `Err` it is safe to use and keeps its limits, and nothing else is said.
#[derive(Drop)]
pub struct AgentCore {
    state: AgentState,
}

impl Model for AgentCore {
    ghost use Rattle.kn_edge_core.specs.declared.agent_state.AgentState.{AgentState};
    ghost use Rattle.kn_edge_core.specs.Sound.{IsAgentSound};

    ghost Value = { AgentState };

    ghost view = { λ c. c.state };

    ghost invariant = { λ c. IsAgentSound c.state };
}

// A packet of the server.
fn packet_came(
    alloc: Global,
    state: &mut AgentState,
    packet: Packet,
    outs: &mut Vec<AgentOut>,
) -> Result<(), NoMemory>
    requires sound { IsAgentSound state.old }
    requires fits { spec.FitsPacket state.old packet }
    ensures sound { IsAgentSound state.new }
    ensures state { OnOk result (state.new ≡ (spec.packet_came state.old packet).state) }
    ensures outs { OnOk result (outs.new.items ≡ outs.old.items ++ (spec.packet_came state.old packet).outs) }
{
    match packet {
        Packet::DialReq {
            protocol,
            address,
            random,
        } => dial_requested(alloc, state, protocol, address, &random, outs),
        Packet::Data {
            connect_id,
            error: _,
            bytes,
        } => data_came(state, &connect_id, bytes, outs),
        Packet::CloseReq { connect_id } => close_requested(alloc, state, &connect_id, outs),
        Packet::DialRsp { .. } => Ok(()),
        Packet::CloseRsp { .. } => Ok(()),
        Packet::DialCls { .. } => Ok(()),
        Packet::Drain => Ok(()),
        Packet::Other { .. } => Ok(()),
    }
}

// An event while the link is there.
fn handle(
    alloc: Global,
    state: &mut AgentState,
    event: AgentEvent,
    outs: &mut Vec<AgentOut>,
) -> Result<(), NoMemory>
    requires sound { IsAgentSound state.old }
    requires fits { spec.Fits state.old event }
    ensures sound { IsAgentSound state.new }
    ensures state { OnOk result (state.new ≡ (spec.linked_step state.old event).state) }
    ensures outs { OnOk result (outs.new.items ≡ outs.old.items ++ (spec.linked_step state.old event).outs) }
{
    match event {
        AgentEvent::Packet(packet) => packet_came(alloc, state, packet, outs),
        AgentEvent::DialUp { ticket } => dial_up(alloc, state, ticket, outs),
        AgentEvent::DialRefused { ticket } => dial_refused(alloc, state, ticket, outs),
        AgentEvent::DestBytes { connect_id, bytes } => {
            dest_bytes(alloc, state, &connect_id, bytes, outs)
        }
        AgentEvent::DestEnd { connect_id } => dest_ended(alloc, state, &connect_id, outs),
        AgentEvent::DestWrote { connect_id, count } => {
            dest_wrote(alloc, state, &connect_id, count, outs)
        }
        AgentEvent::DestFailed { connect_id } => dest_failed(alloc, state, &connect_id, outs),
        AgentEvent::LinkLost => link_lost(state, outs),
        AgentEvent::DrainNow => drain_now(state, outs),
    }
}

impl AgentCore {
    /// An agent with no dial and no connection. The first ticket and the first connectID are 1. Takes no memory.
    pub fn new(alloc: Global) -> AgentCore
        ensures { result ≡ spec.start }
    {
        AgentCore {
            state: AgentState {
                dials: Dials::new(alloc),
                connections: Connections::new(alloc),
                next_ticket: 1,
                next_connect_id: 1,
                drained: false,
                lost: false,
            },
        }
    }

    /// Whether an event may come now: the test for what `step` requires.
    pub fn fits(&self, event: &AgentEvent) -> bool
        ensures { IsTrue result ↔ spec.Fits self.now event.now }
    {
        event_fits(&self.state, event)
    }

    /// Handles an event, and adds its outputs in order. A destination took no more bytes than were to be written
    /// to it, and bytes for one may come only while their count has room; `unwritten_of` tells it. An event of an
    /// unknown dial or connection changes nothing, and after `LinkLost` none changes anything.
    pub fn step(
        &mut self,
        alloc: Global,
        event: AgentEvent,
        outs: &mut Vec<AgentOut>,
    ) -> Result<(), NoMemory>
        requires { spec.Fits self.old event }
        ensures state { OnOk result (self.new ≡ (spec.step self.old event).state) }
        ensures outs { OnOk result (outs.new.items ≡ outs.old.items ++ (spec.step self.old event).outs) }
    {
        if self.state.lost {
            Ok(())
        } else {
            handle(alloc, &mut self.state, event, outs)
        }
    }

    /// How many dials it makes. Takes constant time.
    pub fn dials(&self) -> usize
        ensures { result ≡ length self.now.dials }
    {
        self.state.dials.len()
    }

    /// How many connections it has. Takes constant time.
    pub fn connections(&self) -> usize
        ensures { result ≡ length self.now.connections }
    {
        self.state.connections.len()
    }

    /// The number by which the server knows the answer to a dial.
    pub fn random_of(&self, ticket: u64) -> Option<i64>
        ensures { result ≡ option_map (λ d. d.random) (first_where (is_dial ticket) self.now.dials) }
    {
        match self.state.dials.find(ticket) {
            Some(dial) => Some(dial.random),
            None => None,
        }
    }

    /// Whether a connection carries data or lingers.
    pub fn state_of(&self, connect_id: i64) -> Option<DestState>
        ensures { result ≡ option_map (λ c. c.state) (connection_at connect_id self.now.connections) }
    {
        match self.state.connections.find(&connect_id) {
            Some(connection) => Some(connection.state),
            None => None,
        }
    }

    /// How many bytes are still to be written to a destination.
    pub fn unwritten_of(&self, connect_id: i64) -> Option<usize>
        ensures { result ≡ option_map (λ c. c.unwritten) (connection_at connect_id self.now.connections) }
    {
        match self.state.connections.find(&connect_id) {
            Some(connection) => Some(connection.unwritten),
            None => None,
        }
    }

    /// The number that the next connection draws, from 1 on and at most 2^63 − 1, which no connection draws.
    pub fn next_connect_id(&self) -> u64
        ensures value { result ≡ self.now.next_connect_id }
        ensures sound { IsAgentSound self.now }
    {
        self.state.next_connect_id
    }
}
