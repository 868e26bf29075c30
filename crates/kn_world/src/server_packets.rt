//! What the server does with a packet of a link or a client, and with a loss.
ghost use Rattle.std.specs.Prelude.{◌≡◌, OnOk};
ghost use Rattle.kn_world.specs.ServerPackets as spec;

use crate::handing::settle;
use crate::numbered::Numbered;
use crate::numbers::number_of;
use crate::parts::{App, Client, Home};
use crate::server_steps::step;
use crate::state::State;
use crate::{agents, clients};
use kn_io::NoMemory;
use kn_packet::Packet;
use kn_server_core::ServerEvent;
use std::alloc::Global;

// An app, if it came by CONNECT, else 0.
fn if_by_connect(apps: &Numbered<App>, app: u64) -> u64
    ensures { result ≡ spec.if_by_connect app apps.now }
{
    match apps.get(app) {
        Some(found) => match found.home {
            Home::Connect => app,
            Home::Client { .. } => 0,
        },
        None => 0,
    }
}

fn app_of_dial(state: &State, dial: u64) -> u64
    ensures { result ≡ spec.app_of_dial dial state.now }
{
    match state.dials.get(dial) {
        Some(found) => if_by_connect(&state.apps, found.app),
        None => 0,
    }
}

// The app by CONNECT whose dial an agent's packet answers, 0 where there is none.
fn answered_by(state: &State, packet: &Packet) -> u64
    ensures { result ≡ spec.answered_by packet.now state.now }
{
    match packet {
        Packet::DialRsp {
            error: _,
            connect_id: _,
            random,
        } => app_of_dial(state, number_of(random)),
        Packet::DialReq { .. } => 0,
        Packet::CloseReq { .. } => 0,
        Packet::CloseRsp { .. } => 0,
        Packet::Data { .. } => 0,
        Packet::DialCls { .. } => 0,
        Packet::Drain => 0,
        Packet::Other { .. } => 0,
    }
}

/// The server takes a packet of a link. Of an app by CONNECT that this answers it takes what it kept.
pub fn take_of_link(
    alloc: Global,
    state: &mut State,
    link: u64,
    packet: Packet,
) -> Result<(), NoMemory>
    ensures { OnOk result (state.new ≡ spec.takes_of_link packet link state.old) }
{
    let answered = answered_by(state, &packet);
    step(alloc, state, 0, ServerEvent::LinkPacket { link, packet })?;
    settle(alloc, state, answered)
}

// The app that asks for a dial, 0 where a packet asks for none.
fn asker(clients: &Numbered<Client>, client: u64, packet: &Packet) -> u64
    ensures { result ≡ spec.asker packet.now client clients.now }
{
    match packet {
        Packet::DialReq {
            protocol: _,
            address: _,
            random,
        } => clients::app_at(clients, client, number_of(random)),
        Packet::DialRsp { .. } => 0,
        Packet::CloseReq { .. } => 0,
        Packet::CloseRsp { .. } => 0,
        Packet::Data { .. } => 0,
        Packet::DialCls { .. } => 0,
        Packet::Drain => 0,
        Packet::Other { .. } => 0,
    }
}

/// The server takes a packet of a client.
pub fn take_of_client(
    alloc: Global,
    state: &mut State,
    client: u64,
    packet: Packet,
) -> Result<(), NoMemory>
    ensures { OnOk result (state.new ≡ spec.takes_of_client packet client state.old) }
{
    let app = asker(&state.clients, client, &packet);
    let front = clients::front_of(&state.clients, client);
    step(
        alloc,
        state,
        app,
        ServerEvent::FrontPacket { front, packet },
    )
}

/// The server loses the connection of an agent.
pub fn lose_link(alloc: Global, state: &mut State, link: u64) -> Result<(), NoMemory>
    ensures { OnOk result (state.new ≡ spec.loses_link link state.old) }
{
    agents::lose_at_server(alloc, &mut state.agents, link);
    step(alloc, state, 0, ServerEvent::LinkLost { link })
}

/// The server loses the connection of a client.
pub fn lose_front(alloc: Global, state: &mut State, client: u64) -> Result<(), NoMemory>
    ensures { OnOk result (state.new ≡ spec.loses_front client state.old) }
{
    let front = clients::front_of(&state.clients, client);
    clients::lose_at_server(alloc, &mut state.clients, client);
    step(alloc, state, 0, ServerEvent::FrontLost { front })
}
