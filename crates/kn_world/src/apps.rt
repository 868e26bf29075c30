//! Apps, by their numbers.
ghost use Rattle.std.specs.Prelude.{◌≡◌, OnOk};
ghost use Rattle.kn_connect.specs.Replies.{IsReplyStatus};
ghost use Rattle.kn_world.specs.Numbers.{nth, change};
ghost use Rattle.kn_world.specs.Apps as spec;

use crate::doors;
use crate::numbered::Numbered;
use crate::packets::Packets;
use crate::parts::{App, Stage};
use kn_edge_core::AppState;
use kn_io::{Blob, NoMemory, Text};
use kn_packet::Packet;
use std::alloc::Global;

/// An app's dial drew its number.
pub fn note_dial(apps: &mut Numbered<App>, app: u64, dial: u64)
    ensures { apps.new ≡ change (spec.with_dial dial) app apps.old }
{
    if let Some(app) = apps.get_mut(app) {
        app.dial = dial;
    }
}

fn open_if(app: &mut App, state: Option<AppState>)
    ensures { app.new ≡ spec.opened_if state app.old }
{
    match state {
        Some(AppState::Open) => {
            app.stage = Stage::Open;
        }
        Some(AppState::Dialling) => {}
        Some(AppState::Closing) => {}
        Some(AppState::Lingering) => {}
        None => {}
    }
}

/// Notes that an app's dial was answered without an error, where its client says so.
pub fn note_open(apps: &mut Numbered<App>, app: u64, state: Option<AppState>)
    ensures { apps.new ≡ change (spec.opened_if state) app apps.old }
{
    if let Some(app) = apps.get_mut(app) {
        open_if(app, state);
    }
}

/// The client writes bytes to an app, which has still to take them.
pub fn write(apps: &mut Numbered<App>, app: u64, bytes: Blob) -> Result<(), NoMemory>
    ensures { OnOk result (apps.new ≡ change (spec.written bytes) app apps.old) }
{
    match apps.get_mut(app) {
        Some(app) => app.side.coming.append(bytes.as_slice()),
        None => Ok(()),
    }
}

/// An app of a client takes so many bytes.
pub fn take(apps: &mut Numbered<App>, app: u64, count: usize)
    ensures { apps.new ≡ change (spec.took count) app apps.old }
{
    if let Some(app) = apps.get_mut(app) {
        app.side.coming.pass(count);
    }
}

/// An app by CONNECT takes so many bytes.
pub fn take_at_door(apps: &mut Numbered<App>, app: u64, count: usize)
    ensures { apps.new ≡ change (spec.took_at_door count) app apps.old }
{
    if let Some(app) = apps.get_mut(app) {
        doors::take(app, count);
    }
}

fn leave_as(app: &mut App, error: Text)
    ensures { app.new ≡ spec.left_as app.old.stage error app.old }
{
    match app.stage {
        Stage::Dialling => leave_dialling(app, error),
        Stage::Open => leave(app, error),
        Stage::Refused => {}
        Stage::Ended => {}
    }
}

fn leave(app: &mut App, error: Text)
    ensures { app.new ≡ spec.left_open error app.old }
{
    app.stage = Stage::Ended;
    app.error = error;
}

fn leave_dialling(app: &mut App, error: Text)
    ensures { app.new ≡ spec.left_dialling error app.old }
{
    if error.is_empty() {
        app.stage = Stage::Ended;
        app.error = error;
    } else {
        app.stage = Stage::Refused;
        app.error = error;
    }
}

/// A client's app leaves, and is told an error or the empty text.
pub fn end(apps: &mut Numbered<App>, app: u64, error: Text)
    ensures { apps.new ≡ change (spec.left error) app apps.old }
{
    if let Some(app) = apps.get_mut(app) {
        leave_as(app, error);
    }
}

/// A packet of the server comes to an app by CONNECT.
pub fn hear(
    alloc: Global,
    apps: &mut Numbered<App>,
    app: u64,
    packet: &Packet,
) -> Result<(), NoMemory>
    ensures { OnOk result (apps.new ≡ change (spec.heard packet.now) app apps.old) }
{
    match apps.get_mut(app) {
        Some(app) => doors::hear_here(alloc, app, packet),
        None => Ok(()),
    }
}

/// An app sends bytes.
pub fn send(apps: &mut Numbered<App>, app: u64, bytes: &[u8]) -> Result<(), NoMemory>
    ensures { OnOk result (apps.new ≡ change (spec.sent bytes.now) app apps.old) }
{
    match apps.get_mut(app) {
        Some(app) => app.side.sending.append(bytes),
        None => Ok(()),
    }
}

/// So many bytes of an app go to its node.
pub fn hand(apps: &mut Numbered<App>, app: u64, count: usize)
    ensures { apps.new ≡ change (spec.handed count) app apps.old }
{
    if let Some(app) = apps.get_mut(app) {
        app.side.sending.pass(count);
    }
}

/// An app ends its sending.
pub fn end_sending(apps: &mut Numbered<App>, app: u64)
    ensures { apps.new ≡ change spec.ended app apps.old }
{
    if let Some(app) = apps.get_mut(app) {
        app.side.ended = true;
    }
}

/// An app's client is told that it ended its sending.
pub fn note_end_given(apps: &mut Numbered<App>, app: u64)
    ensures { apps.new ≡ change spec.end_told app apps.old }
{
    if let Some(app) = apps.get_mut(app) {
        app.side.end_given = true;
    }
}

/// An app takes nothing from now on, or takes freely again.
pub fn hold(apps: &mut Numbered<App>, app: u64, held: bool)
    ensures { apps.new ≡ change (spec.holding held) app apps.old }
{
    if let Some(app) = apps.get_mut(app) {
        app.side.held = held;
    }
}

/// The number of the front of an app by CONNECT, 0 where it has none.
pub fn front_of(apps: &Numbered<App>, app: u64) -> u64
    ensures { result ≡ spec.front_of (nth app apps.now) }
{
    match apps.get(app) {
        Some(app) => app.door.number,
        None => 0,
    }
}

/// The server is given bytes of an app by CONNECT, which it has still to take.
pub fn keep(alloc: Global, apps: &mut Numbered<App>, app: u64, bytes: Blob) -> Result<(), NoMemory>
    ensures { OnOk result (apps.new ≡ change (spec.kept bytes) app apps.old) }
{
    match apps.get_mut(app) {
        Some(app) => doors::keep(alloc, app, bytes),
        None => Ok(()),
    }
}

/// How many packets of an app by CONNECT the server may take.
pub fn kept_count(apps: &Numbered<App>, app: u64) -> usize
    ensures { result ≡ spec.kept_count (nth app apps.now) }
{
    match apps.get(app) {
        Some(app) => doors::kept_count(app),
        None => 0,
    }
}

/// The first packet that an app by CONNECT gave the server is taken off.
pub fn pop_kept(apps: &mut Numbered<App>, app: u64) -> Option<Packet>
    ensures first { result ≡ spec.first_kept (nth app apps.old) }
    ensures rest { apps.new ≡ change spec.rest_kept app apps.old }
{
    match apps.get_mut(app) {
        Some(app) => app.door.early.pop(),
        None => None,
    }
}

/// The head of an app's request is whole.
pub fn read_head(
    apps: &mut Numbered<App>,
    app: u64,
    front: u64,
    early: &[u8],
    rest: &[u8],
) -> Result<(), NoMemory>
    ensures { OnOk result (apps.new ≡ change (spec.head_read front early.now rest.now) app apps.old) }
{
    match apps.get_mut(app) {
        Some(app) => doors::read_head(app, front, early, rest),
        None => Ok(()),
    }
}

/// The server keeps the early bytes of an app, unless its dial was refused at once.
pub fn keep_early(
    alloc: Global,
    apps: &mut Numbered<App>,
    app: u64,
    early: Blob,
) -> Result<(), NoMemory>
    ensures { OnOk result (apps.new ≡ change (spec.early_kept early) app apps.old) }
{
    match apps.get_mut(app) {
        Some(app) => doors::keep_early(alloc, app, early),
        None => Ok(()),
    }
}

/// An app by CONNECT is refused with the reply of a status.
pub fn refuse(
    alloc: Global,
    apps: &mut Numbered<App>,
    app: u64,
    status: u32,
) -> Result<(), NoMemory>
    requires { IsReplyStatus status }
    ensures { OnOk result (apps.new ≡ change (spec.refused status) app apps.old) }
{
    match apps.get_mut(app) {
        Some(app) => doors::refuse(alloc, app, status),
        None => Ok(()),
    }
}

// What an app that closes its end has come to: one that was refused stays so.
fn left_stage(stage: Stage) -> Stage
    ensures { result ≡ spec.left_stage stage }
{
    match stage {
        Stage::Dialling => Stage::Ended,
        Stage::Open => Stage::Ended,
        Stage::Refused => Stage::Refused,
        Stage::Ended => Stage::Ended,
    }
}

/// An app by CONNECT closes its end of the connection.
pub fn leave_door(alloc: Global, apps: &mut Numbered<App>, app: u64)
    ensures { apps.new ≡ change spec.left_door app apps.old }
{
    if let Some(app) = apps.get_mut(app) {
        app.stage = left_stage(app.stage);
        app.door.at_server = false;
        app.door.early = Packets::new(alloc);
    }
}
