//! What apps take, and what a client does with a packet of the server.
ghost use Rattle.std.specs.Prelude.{◌≡◌, min, OnOk};
ghost use Rattle.kn_world.specs.AppSteps as spec;

use crate::handing::settle;
use crate::numbered::Numbered;
use crate::numbers::number_of;
use crate::parts::{App, Client, Home};
use crate::state::State;
use crate::{apps, client_steps, clients, doors};
use kn_edge_core::{AppState, ClientEvent};
use kn_io::NoMemory;
use kn_packet::Packet;
use std::alloc::Global;

/// Whether there are bytes for an app to take.
pub fn has_left(clients: &Numbered<Client>, app: &App) -> bool
    ensures { result ≡ spec.has_left app.now.home app.now clients.now }
{
    match app.home {
        Home::Client { client, number } => clients::unwritten_at(clients, client, number) > 0,
        Home::Connect => doors::has_left(app),
    }
}

// A client's app takes so many bytes.
fn wrote(
    alloc: Global,
    state: &mut State,
    app: u64,
    client: u64,
    number: u64,
    count: usize,
) -> Result<(), NoMemory>
    ensures { OnOk result (state.new ≡ spec.wrote client number count app state.old) }
{
    apps::take(&mut state.apps, app, count);
    client_steps::step(
        alloc,
        state,
        client,
        ClientEvent::AppWrote { app: number, count },
    )
}

// An app takes at most so many bytes.
fn took(
    alloc: Global,
    state: &mut State,
    app: u64,
    home: Home,
    count: usize,
) -> Result<(), NoMemory>
    ensures { OnOk result (state.new ≡ spec.took home count app state.old) }
{
    match home {
        Home::Client { client, number } => {
            let most = clients::unwritten_at(&state.clients, client, number);
            wrote(alloc, state, app, client, number, count.min(most))
        }
        Home::Connect => {
            apps::take_at_door(&mut state.apps, app, count);
            Ok(())
        }
    }
}

/// An app takes at most so many bytes.
pub fn take(alloc: Global, state: &mut State, app: u64, count: usize) -> Result<(), NoMemory>
    ensures { OnOk result (state.new ≡ spec.takes app count state.old) }
{
    match state.apps.get(app) {
        Some(found) => {
            let home = found.home;
            took(alloc, state, app, home, count)
        }
        None => Ok(()),
    }
}

fn is_free(state: &State, app: u64) -> bool
    ensures { result ≡ spec.is_free app state.now }
{
    match state.apps.get(app) {
        Some(found) => !found.side.held,
        None => false,
    }
}

/// An app that is not held takes all there is.
pub fn take_freely(alloc: Global, state: &mut State, app: u64) -> Result<(), NoMemory>
    ensures { OnOk result (state.new ≡ spec.takes_freely app state.old) }
{
    if is_free(state, app) {
        take(alloc, state, app, usize::MAX)
    } else {
        Ok(())
    }
}

// The app whose dial a packet of the server answers, 0 where it answers none.
fn answered_by(clients: &Numbered<Client>, client: u64, packet: &Packet) -> u64
    ensures { result ≡ spec.answered_by packet.now client clients.now }
{
    match packet {
        Packet::DialRsp {
            error: _,
            connect_id: _,
            random,
        } => clients::app_at(clients, client, number_of(random)),
        Packet::DialReq { .. } => 0,
        Packet::CloseReq { .. } => 0,
        Packet::CloseRsp { .. } => 0,
        Packet::Data { .. } => 0,
        Packet::DialCls { .. } => 0,
        Packet::Drain => 0,
        Packet::Other { .. } => 0,
    }
}

// The app that a packet of the server has bytes for, 0 where there is none.
fn written_by(clients: &Numbered<Client>, client: u64, packet: &Packet) -> u64
    ensures { result ≡ spec.written_by packet.now client clients.now }
{
    match packet {
        Packet::Data {
            connect_id,
            error: _,
            bytes: _,
        } => clients::taker_at(clients, client, connect_id),
        Packet::DialReq { .. } => 0,
        Packet::DialRsp { .. } => 0,
        Packet::CloseReq { .. } => 0,
        Packet::CloseRsp { .. } => 0,
        Packet::DialCls { .. } => 0,
        Packet::Drain => 0,
        Packet::Other { .. } => 0,
    }
}

fn state_of(state: &State, app: u64) -> Option<AppState>
    ensures { result ≡ spec.state_of app state.now }
{
    match state.apps.get(app) {
        Some(found) => clients::state_of(&state.clients, found.home),
        None => None,
    }
}

// An app whose dial was answered without an error is open, and what it sent before goes to its client.
fn open(alloc: Global, state: &mut State, app: u64) -> Result<(), NoMemory>
    ensures { OnOk result (state.new ≡ spec.opens app state.old) }
{
    let found = state_of(state, app);
    apps::note_open(&mut state.apps, app, found);
    settle(alloc, state, app)
}

/// A client takes a packet of the server. An app that it opens gives its bytes, one that it has bytes for takes
/// them.
pub fn take_packet(
    alloc: Global,
    state: &mut State,
    client: u64,
    packet: Packet,
) -> Result<(), NoMemory>
    ensures { OnOk result (state.new ≡ spec.takes_packet packet client state.old) }
{
    let answered = answered_by(&state.clients, client, &packet);
    let written = written_by(&state.clients, client, &packet);
    client_steps::step(alloc, state, client, ClientEvent::Packet(packet))?;
    open(alloc, state, answered)?;
    take_freely(alloc, state, written)
}
