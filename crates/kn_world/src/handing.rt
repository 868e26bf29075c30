//! Bytes and ends of apps that their nodes are given: a client, or the server where an app came by CONNECT.
ghost use Rattle.std.specs.Prelude.{◌≡◌, OnOk};
ghost use Rattle.kn_world.specs.Handing as spec;

use crate::numbered::Numbered;
use crate::parts::{App, Client, Home, Stage};
use crate::pieces::{PIECE, first_piece, pieces};
use crate::state::State;
use crate::{apps, client_steps, clients, server_steps};
use kn_edge_core::{AppState, ClientEvent};
use kn_io::{Blob, NoMemory};
use kn_server_core::ServerEvent;
use std::alloc::Global;

fn hand_to(
    alloc: Global,
    state: &mut State,
    app: u64,
    home: Home,
    bytes: Blob,
) -> Result<(), NoMemory>
    ensures { OnOk result (state.new ≡ spec.hands_to home bytes app state.old) }
{
    match home {
        Home::Client { client, number } => client_steps::step(
            alloc,
            state,
            client,
            ClientEvent::AppBytes { app: number, bytes },
        ),
        Home::Connect => apps::keep(alloc, &mut state.apps, app, bytes),
    }
}

fn hand_piece(alloc: Global, state: &mut State, app: u64) -> Result<(), NoMemory>
    ensures { OnOk result (state.new ≡ spec.hands_piece app state.old) }
{
    match state.apps.get(app) {
        Some(found) => {
            let home = found.home;
            let bytes = first_piece(alloc, &found.side.sending)?;
            apps::hand(&mut state.apps, app, PIECE);
            hand_to(alloc, state, app, home, bytes)
        }
        None => Ok(()),
    }
}

fn hand_pieces(alloc: Global, state: &mut State, app: u64, count: usize) -> Result<(), NoMemory>
    ensures { OnOk result (state.new ≡ spec.hands_pieces count app state.old) }
{
    let mut left = count;
    'pieces: while left > 0 {
        hand_piece(alloc, state, app)?;
        left -= 1;
    }
    Ok(())
}

// While the dial is awaited the server keeps bytes until it has 16,384 of them.
fn early_pieces(app: &App) -> usize
    ensures { result ≡ spec.early_pieces app.now }
{
    if app.side.sending.passed_count() < PIECE {
        pieces(app.side.sending.waiting_count()).min(1)
    } else {
        0
    }
}

fn open_pieces(app: &App) -> usize
    ensures { result ≡ spec.open_pieces app.now }
{
    pieces(app.side.sending.waiting_count())
}

fn pieces_by(app: &App) -> usize
    ensures { result ≡ spec.pieces_by app.now.stage app.now }
{
    match app.stage {
        Stage::Dialling => early_pieces(app),
        Stage::Open => open_pieces(app),
        Stage::Refused => 0,
        Stage::Ended => 0,
    }
}

fn door_pieces(app: &App) -> usize
    ensures { result ≡ spec.door_pieces app.now }
{
    if app.door.closing { 0 } else { pieces_by(app) }
}

fn client_pieces(clients: &Numbered<Client>, client: u64, number: u64, count: usize) -> usize
    ensures { result ≡ spec.client_pieces client number count clients.now }
{
    match clients::state_at(clients, client, number) {
        Some(AppState::Open) => pieces(count),
        Some(AppState::Dialling) => 0,
        Some(AppState::Closing) => 0,
        Some(AppState::Lingering) => 0,
        None => 0,
    }
}

// How many pieces an app's node takes from it.
fn pieces_wanted(clients: &Numbered<Client>, app: &App) -> usize
    ensures { result ≡ spec.pieces_wanted app.now.home app.now clients.now }
{
    match app.home {
        Home::Client { client, number } => {
            client_pieces(clients, client, number, app.side.sending.waiting_count())
        }
        Home::Connect => door_pieces(app),
    }
}

fn count_wanted(state: &State, app: u64) -> usize
    ensures { result ≡ spec.count_wanted app state.now }
{
    match state.apps.get(app) {
        Some(found) => pieces_wanted(&state.clients, found),
        None => 0,
    }
}

// The server takes the first packet that an app by CONNECT gave it.
fn server_hears(alloc: Global, state: &mut State, app: u64) -> Result<(), NoMemory>
    ensures { OnOk result (state.new ≡ spec.server_hears app state.old) }
{
    let front = apps::front_of(&state.apps, app);
    match apps::pop_kept(&mut state.apps, app) {
        Some(packet) => {
            server_steps::step(alloc, state, 0, ServerEvent::FrontPacket { front, packet })
        }
        None => Ok(()),
    }
}

fn server_hears_all(
    alloc: Global,
    state: &mut State,
    app: u64,
    count: usize,
) -> Result<(), NoMemory>
    ensures { OnOk result (state.new ≡ spec.server_hears_all count app state.old) }
{
    let mut left = count;
    'packets: while left > 0 {
        server_hears(alloc, state, app)?;
        left -= 1;
    }
    Ok(())
}

fn is_end_due(state: &State, app: u64) -> bool
    ensures { result ≡ spec.is_end_due app state.now }
{
    match state.apps.get(app) {
        Some(found) => {
            found.side.ended && !found.side.end_given && found.side.sending.waiting_count() == 0
        }
        None => false,
    }
}

// The app's end of its connection with the server is closed, and the server loses its front.
fn leave_door(alloc: Global, state: &mut State, app: u64) -> Result<(), NoMemory>
    ensures { OnOk result (state.new ≡ spec.leaves_door app state.old) }
{
    let front = apps::front_of(&state.apps, app);
    apps::leave_door(alloc, &mut state.apps, app);
    server_steps::step(alloc, state, 0, ServerEvent::FrontLost { front })
}

fn give_end_to(alloc: Global, state: &mut State, app: u64, home: Home) -> Result<(), NoMemory>
    ensures { OnOk result (state.new ≡ spec.gives_end_to home app state.old) }
{
    match home {
        Home::Client { client, number } => {
            client_steps::step(alloc, state, client, ClientEvent::AppEnd { app: number })
        }
        Home::Connect => leave_door(alloc, state, app),
    }
}

fn give_end(alloc: Global, state: &mut State, app: u64) -> Result<(), NoMemory>
    ensures { OnOk result (state.new ≡ spec.gives_end app state.old) }
{
    match state.apps.get(app) {
        Some(found) => {
            let home = found.home;
            apps::note_end_given(&mut state.apps, app);
            give_end_to(alloc, state, app, home)
        }
        None => Ok(()),
    }
}

fn end_if_due(alloc: Global, state: &mut State, app: u64) -> Result<(), NoMemory>
    ensures { OnOk result (state.new ≡ spec.ends_if_due app state.old) }
{
    if is_end_due(state, app) {
        give_end(alloc, state, app)
    } else {
        Ok(())
    }
}

/// What an app sent goes to its node while this takes it, and its end behind the last byte. The server takes
/// what it kept of an app by CONNECT once its dial is answered.
pub fn settle(alloc: Global, state: &mut State, app: u64) -> Result<(), NoMemory>
    ensures { OnOk result (state.new ≡ spec.settles app state.old) }
{
    let count = count_wanted(state, app);
    hand_pieces(alloc, state, app, count)?;
    let kept = apps::kept_count(&state.apps, app);
    server_hears_all(alloc, state, app, kept)?;
    end_if_due(alloc, state, app)
}
