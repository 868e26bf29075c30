//! What stands outside of the nodes at a connection: an app, a destination, or one that asks by CONNECT.

use crate::side::{Side, front};
use kn_io::NoMemory;
use std::alloc::Global;

/// The bytes of the largest piece that a node takes.
const LARGEST: usize = 16_384;

#[derive(Drop)]
pub struct Peer {
    conn: u64,
    /// What it sends, and how much of it was sent.
    bytes: Vec<u8>,
    sent: usize,
    /// What it got.
    got: Vec<u8>,
}

impl Peer {
    pub fn new(alloc: Global, conn: u64, bytes: Vec<u8>) -> Peer {
        Peer {
            conn,
            bytes,
            sent: 0,
            got: Vec::new(alloc),
        }
    }

    /// What it sends.
    pub fn bytes(&self) -> &[u8] {
        self.bytes.as_slice()
    }

    /// What it got.
    pub fn got(&self) -> &[u8] {
        self.got.as_slice()
    }

    fn left(&self) -> &[u8] {
        match self.bytes.get(self.sent..) {
            Some(left) => left,
            None => &[],
        }
    }

    /// Sends a piece to its node, if that wants it; whether it did.
    fn send<S: Side>(&mut self, alloc: Global, node: &mut S) -> Result<bool, NoMemory> {
        let piece = front(self.left(), LARGEST);
        let count = piece.len();
        if node.feed(alloc, self.conn, piece)? {
            self.sent = self.sent.saturating_add(count);
            Ok(true)
        } else {
            Ok(false)
        }
    }

    /// Takes a piece from its node; whether there was one.
    fn receive<S: Side>(&mut self, alloc: Global, node: &mut S) -> Result<bool, NoMemory> {
        let piece = front(node.due(self.conn), LARGEST);
        let count = piece.len();
        self.got.extend_from_slice(piece)?;
        node.pass_on(alloc, self.conn, count)?;
        Ok(count > 0)
    }
}

/// Each peer sends a piece and takes one; whether one came or went.
pub fn exchange<S: Side>(
    alloc: Global,
    node: &mut S,
    peers: &mut Vec<Peer>,
) -> Result<bool, NoMemory> {
    let mut moved = false;
    for peer in peers.iter_mut() {
        let sent = peer.send(alloc, node)?;
        let received = peer.receive(alloc, node)?;
        moved = moved || sent || received;
    }
    Ok(moved)
}

/// So many bytes that are other for each seed.
pub fn sample(alloc: Global, seed: u64, count: usize) -> Result<Vec<u8>, NoMemory> {
    let mut bytes = Vec::new(alloc);
    let mut state = seed;
    for _byte in 0..count {
        state = state.wrapping_mul(48_271).wrapping_add(11) % 2_147_483_647;
        bytes.push((state % 251) as u8)?;
    }
    Ok(bytes)
}
