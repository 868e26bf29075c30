//! Apps by CONNECT, as the server's packets reach them at once.
ghost use Rattle.std.specs.Prelude.{◌≡◌, ◌+◌, length, OnOk};
ghost use Rattle.kn_connect.specs.Replies.{IsReplyStatus};
ghost use Rattle.kn_connect.specs.Statuses.{reply_length};
ghost use Rattle.kn_world.specs.Doors as spec;

use crate::numbers::signed;
use crate::packets::Packets;
use crate::parts::{App, Stage};
use kn_connect::{error_status, reply_len, status_line};
use kn_io::{Blob, NoMemory, Text};
use kn_packet::Packet;
use std::alloc::Global;

// How many bytes the reply of a status has.
fn reply_count(status: u32) -> u8
    requires { IsReplyStatus status }
    ensures { result ≡ reply_length status }
{
    reply_len(status) as u8
}

fn is_empty(app: &App) -> bool
    ensures { result ≡ spec.is_empty app.now }
{
    app.door.reply == 0 && app.side.coming.waiting_count() == 0
}

/// Whether there are bytes for an app to take, which one that has left does not.
pub fn has_left(app: &App) -> bool
    ensures { result ≡ spec.has_left app.now.stage app.now }
{
    match app.stage {
        Stage::Dialling => !is_empty(app),
        Stage::Open => !is_empty(app),
        Stage::Refused => !is_empty(app),
        Stage::Ended => false,
    }
}

/// The app has left once the server has ended the tunnel and all is taken.
fn leave_emptied(app: &mut App)
    ensures { app.new ≡ spec.emptied app.old }
{
    if app.door.closing && is_empty(app) {
        app.stage = Stage::Ended;
    }
}

// The app takes so many bytes, those of the reply first.
fn take_some(app: &mut App, count: usize)
    ensures { app.new ≡ spec.took count app.old }
{
    let replied = count.min(app.door.reply as usize);
    app.door.reply -= replied as u8;
    app.side.coming.pass(count - replied);
    leave_emptied(app);
}

/// The app takes at most so many bytes, unless it has left.
pub fn take(app: &mut App, count: usize)
    ensures { app.new ≡ spec.took_at app.old.stage count app.old }
{
    match app.stage {
        Stage::Dialling => take_some(app, count),
        Stage::Open => take_some(app, count),
        Stage::Refused => take_some(app, count),
        Stage::Ended => {}
    }
}

fn take_all(app: &mut App)
    ensures { app.new ≡ spec.took_all app.old }
{
    app.door.reply = 0;
    let count = app.side.coming.waiting_count();
    app.side.coming.pass(count);
    leave_emptied(app);
}

/// The app takes all there is, unless it is held.
fn take_freely(app: &mut App)
    ensures { app.new ≡ spec.took_freely app.old.side.held app.old }
{
    if app.side.held {
        leave_emptied(app);
    } else {
        take_all(app);
    }
}

/// The app is refused with the reply of a status.
pub fn refuse(alloc: Global, app: &mut App, status: u32) -> Result<(), NoMemory>
    requires { IsReplyStatus status }
    ensures { OnOk result (app.new ≡ spec.refused status app.old) }
{
    app.error = Text::of(alloc, status_line(status))?;
    app.stage = Stage::Refused;
    app.door.early = Packets::new(alloc);
    app.door.reply = reply_count(status);
    take_freely(app);
    Ok(())
}

fn open(app: &mut App)
    ensures { app.new ≡ spec.opened app.old }
{
    app.stage = Stage::Open;
    app.door.reply = reply_count(200);
    take_freely(app);
}

fn answered(alloc: Global, app: &mut App, error: &str) -> Result<(), NoMemory>
    ensures { OnOk result (app.new ≡ spec.answered error.now app.old) }
{
    if error.is_empty() {
        open(app);
        Ok(())
    } else {
        refuse(alloc, app, error_status(error))
    }
}

fn get(app: &mut App, bytes: &Blob) -> Result<(), NoMemory>
    ensures { OnOk result (app.new ≡ spec.got bytes.now app.old) }
{
    app.side.coming.append(bytes.as_slice())?;
    take_freely(app);
    Ok(())
}

fn close(app: &mut App)
    ensures { app.new ≡ spec.closed app.old }
{
    app.door.closing = true;
    take_freely(app);
}

fn hear(alloc: Global, app: &mut App, packet: &Packet) -> Result<(), NoMemory>
    ensures { OnOk result (app.new ≡ spec.heard packet.now app.old) }
{
    match packet {
        Packet::DialRsp {
            error,
            connect_id: _,
            random: _,
        } => answered(alloc, app, error.as_str()),
        Packet::Data {
            connect_id: _,
            error: _,
            bytes,
        } => get(app, bytes),
        Packet::CloseRsp { .. } => {
            close(app);
            Ok(())
        }
        Packet::DialReq { .. } => Ok(()),
        Packet::CloseReq { .. } => Ok(()),
        Packet::DialCls { .. } => Ok(()),
        Packet::Drain => Ok(()),
        Packet::Other { .. } => Ok(()),
    }
}

/// Whether a packet is a refusal, or the end of the tunnel.
fn finishes(packet: &Packet) -> bool
    ensures { result ≡ spec.finishes packet.now }
{
    match packet {
        Packet::DialRsp {
            error,
            connect_id: _,
            random: _,
        } => !error.is_empty(),
        Packet::CloseRsp { .. } => true,
        Packet::Data { .. } => false,
        Packet::DialReq { .. } => false,
        Packet::CloseReq { .. } => false,
        Packet::DialCls { .. } => false,
        Packet::Drain => false,
        Packet::Other { .. } => false,
    }
}

// A refusal ends an open tunnel like a close.
fn hear_open(alloc: Global, app: &mut App, packet: &Packet) -> Result<(), NoMemory>
    ensures { OnOk result (app.new ≡ spec.heard_open packet.now app.old) }
{
    if finishes(packet) {
        close(app);
        Ok(())
    } else {
        hear(alloc, app, packet)
    }
}

fn hear_late(app: &mut App, packet: &Packet)
    ensures { app.new ≡ spec.heard_late packet.now app.old }
{
    app.door.closing = app.door.closing || finishes(packet);
}

fn hear_by(alloc: Global, app: &mut App, packet: &Packet) -> Result<(), NoMemory>
    ensures { OnOk result (app.new ≡ spec.heard_by app.old.stage packet.now app.old) }
{
    match app.stage {
        Stage::Dialling => hear(alloc, app, packet),
        Stage::Open => hear_open(alloc, app, packet),
        Stage::Refused => Ok(()),
        Stage::Ended => {
            hear_late(app, packet);
            Ok(())
        }
    }
}

/// A packet of the server comes to an app by CONNECT, unless the tunnel has ended.
pub fn hear_here(alloc: Global, app: &mut App, packet: &Packet) -> Result<(), NoMemory>
    ensures { OnOk result (app.new ≡ spec.heard_at app.old.stage packet.now app.old) }
{
    if app.door.closing {
        Ok(())
    } else {
        hear_by(alloc, app, packet)
    }
}

// Bytes that the app gave the server, as a packet of its dial.
fn data_of(alloc: Global, dial: u64, bytes: Blob) -> Packet
    ensures { result ≡ spec.data_of dial bytes }
{
    Packet::Data {
        connect_id: signed(dial),
        error: Text::new(alloc),
        bytes,
    }
}

/// The server is given bytes that it has still to take.
pub fn keep(alloc: Global, app: &mut App, bytes: Blob) -> Result<(), NoMemory>
    ensures { OnOk result (app.new ≡ spec.kept bytes app.old) }
{
    let packet = data_of(alloc, app.dial, bytes);
    app.door.early.push(packet)
}

/// How many packets the server may take of those that it was given: all, once the dial is answered.
pub fn kept_count(app: &App) -> usize
    ensures { result ≡ spec.kept_count app.now.stage app.now }
{
    match app.stage {
        Stage::Open => app.door.early.len(),
        Stage::Dialling => 0,
        Stage::Refused => 0,
        Stage::Ended => 0,
    }
}

/// The head of the request is whole: the early bytes behind it are given to the server, and the rest waits.
pub fn read_head(app: &mut App, front: u64, early: &[u8], rest: &[u8]) -> Result<(), NoMemory>
    ensures { OnOk result (app.new ≡ spec.head_read front early.now rest.now app.old) }
{
    app.door.number = front;
    app.door.at_server = true;
    app.side.sending.append(early)?;
    app.side.sending.pass(early.len());
    app.side.sending.append(rest)
}

fn keep_some(alloc: Global, app: &mut App, early: Blob) -> Result<(), NoMemory>
    ensures { OnOk result (app.new ≡ spec.kept_some early app.old) }
{
    if early.is_empty() {
        Ok(())
    } else {
        keep(alloc, app, early)
    }
}

/// The server keeps the early bytes, unless the dial was refused at once.
pub fn keep_early(alloc: Global, app: &mut App, early: Blob) -> Result<(), NoMemory>
    ensures { OnOk result (app.new ≡ spec.early_kept app.old.stage early app.old) }
{
    match app.stage {
        Stage::Dialling => keep_some(alloc, app, early),
        Stage::Open => keep_some(alloc, app, early),
        Stage::Refused => Ok(()),
        Stage::Ended => Ok(()),
    }
}
