//! What changes at a connection by CONNECT.

ghost use Rattle.std.specs.Prelude.{◌≡◌, ◌≤◌, ◌++◌, [], length, true, OnOk};
ghost use Rattle.kn_connect.specs.Replies.{IsReplyStatus};
ghost use Rattle.kn_server_node.specs.Doors as spec;
ghost use Rattle.kn_ends.specs.Queues.{is_empty};

use crate::door::Door;
use kn_connect::{ConnectFront, error_status, reply};
use kn_h2_state::ByteQueue;
use kn_io::{Blob, NoMemory};
use kn_packet::Packet;
use std::alloc::Global;

/// One before its first byte. Takes no memory.
pub fn fresh(alloc: Global) -> Door
    ensures { result ≡ spec.fresh_door }
{
    Door {
        head: ConnectFront::new(alloc),
        front: None,
        dial: None,
        early: Blob::new(alloc),
        out: ByteQueue::new(alloc),
        status: 0,
        shuts: false,
        lost: false,
    }
}

/// A refusal is replied to, after which the connection is closed.
#[tactic(auto, unfolding(crate::specs::Doors::refused))]
pub fn refuse(door: &mut Door, alloc: Global, status: u32) -> Result<(), NoMemory>
    requires { IsReplyStatus status }
    ensures { OnOk result (door.new ≡ spec.refused status door.old) }
{
    door.out.append(reply(status).as_bytes())?;
    door.early = Blob::new(alloc);
    door.status = status;
    door.shuts = true;
    Ok(())
}

/// Its head was whole: it is a front, and what follows the head is early.
pub fn begin(door: &mut Door, front: u64, early: Blob)
    ensures { door.new ≡ spec.begun front early door.old }
{
    door.front = Some(front);
    door.early = early;
}

#[tactic(auto, unfolding(crate::specs::Doors::opened))]
fn open(door: &mut Door, connect_id: &i64) -> Result<(), NoMemory>
    ensures { OnOk result (door.new ≡ spec.opened connect_id.now door.old) }
{
    door.out.append(reply(200).as_bytes())?;
    door.dial = Some(*connect_id);
    door.status = 200;
    Ok(())
}

/// Its dial was answered.
fn answer(door: &mut Door, alloc: Global, error: &str, connect_id: &i64) -> Result<(), NoMemory>
    ensures { OnOk result (door.new ≡ spec.replied error.now connect_id.now door.old) }
{
    if error.is_empty() {
        open(door, connect_id)
    } else {
        refuse(door, alloc, error_status(error))
    }
}

/// A packet comes for its front.
pub fn give(door: &mut Door, alloc: Global, packet: &Packet) -> Result<(), NoMemory>
    ensures { OnOk result (door.new ≡ spec.given packet.now door.old) }
{
    match packet {
        Packet::DialRsp {
            error,
            connect_id,
            ..
        } => answer(door, alloc, error.as_str(), connect_id),
        Packet::Data { bytes, .. } => door.out.append(bytes.as_slice()),
        Packet::DialReq { .. } => Ok(()),
        Packet::CloseReq { .. } => Ok(()),
        Packet::CloseRsp { .. } => Ok(()),
        Packet::DialCls { .. } => Ok(()),
        Packet::Drain => Ok(()),
        Packet::Other { .. } => Ok(()),
    }
}

/// The front of a door that gets this packet is lost.
pub fn ends_front(packet: &Packet) -> bool
    ensures { result ≡ spec.ends_front packet.now }
{
    match packet {
        Packet::DialRsp { error, .. } => !error.is_empty(),
        Packet::CloseRsp { .. } => true,
        Packet::DialReq { .. } => false,
        Packet::CloseReq { .. } => false,
        Packet::Data { .. } => false,
        Packet::DialCls { .. } => false,
        Packet::Drain => false,
        Packet::Other { .. } => false,
    }
}

/// Its front ended: what waits for the socket still goes.
pub fn end(door: &mut Door, alloc: Global)
    ensures { door.new ≡ spec.ended door.old }
{
    door.early = Blob::new(alloc);
    door.shuts = true;
}

/// It was lost.
pub fn lose(door: &mut Door, alloc: Global)
    ensures { door.new ≡ spec.lost door.old }
{
    door.early = Blob::new(alloc);
    door.out = ByteQueue::new(alloc);
    door.lost = true;
}

/// So many bytes went to its socket.
pub fn took(door: &mut Door, count: usize)
    requires { count ≤ length door.old.out }
    ensures { door.new ≡ spec.took count door.old }
{
    door.out.advance(count);
}

/// Nothing comes of it any more.
pub fn is_over(door: &Door) -> bool
    ensures { result ≡ spec.is_over door.now }
{
    door.lost || (door.shuts && door.out.is_empty())
}

/// Bytes of it are wanted, as far as it is concerned.
pub fn has_room(door: &Door) -> bool
    ensures { result ≡ spec.has_room door.now }
{
    !(door.lost || door.shuts) && door.early.len() < 16384
}
