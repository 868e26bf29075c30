//! What stands outside of the nodes: apps and destinations that send, and those that take.

use crate::side::{PIECE, Side, front};
use kn_io::NoMemory;
use std::alloc::Global;

/// One that sends, and how many bytes it has still to send.
#[derive(Clone, Copy, Drop)]
pub struct Sender {
    pub conn: u64,
    pub left: u64,
}

/// A piece of what there is to send.
pub fn piece(alloc: Global) -> Result<Vec<u8>, NoMemory> {
    let mut bytes = Vec::new(alloc);
    for _ in 0..PIECE {
        bytes.push(b'x')?;
    }
    Ok(bytes)
}

/// So many bytes, as far as a piece has them.
fn size_of(left: u64) -> usize {
    if left < PIECE as u64 {
        left as usize
    } else {
        PIECE
    }
}

/// Sends a piece to the node, if there is one and the node wants it; whether it did.
fn send<S: Side>(
    alloc: Global,
    node: &mut S,
    sender: &mut Sender,
    bytes: &[u8],
) -> Result<bool, NoMemory> {
    let piece = front(bytes, size_of(sender.left));
    let count = piece.len();
    if node.feed(alloc, sender.conn, piece)? {
        sender.left = sender.left.saturating_sub(count as u64);
        Ok(true)
    } else {
        Ok(false)
    }
}

/// Each sends a piece, if it can; whether one did.
pub fn send_all<S: Side>(
    alloc: Global,
    node: &mut S,
    senders: &mut Vec<Sender>,
    bytes: &[u8],
) -> Result<bool, NoMemory> {
    let mut moved = false;
    for sender in senders.iter_mut() {
        let sent = send(alloc, node, sender, bytes)?;
        moved = moved || sent;
    }
    Ok(moved)
}

/// Takes all that waits on a connection; how many bytes it was.
fn take<S: Side>(alloc: Global, node: &mut S, conn: u64) -> Result<u64, NoMemory> {
    let count = node.due(conn).len();
    if count > 0 {
        node.pass_on(alloc, conn, count)?;
    }
    Ok(count as u64)
}

/// Takes all that waits on these connections; how many bytes it was.
pub fn take_all<S: Side>(alloc: Global, node: &mut S, conns: &[u64]) -> Result<u64, NoMemory> {
    let mut count = 0u64;
    for conn in conns {
        let taken = take(alloc, node, *conn)?;
        count = count.saturating_add(taken);
    }
    Ok(count)
}
