ghost use Rattle.std.specs.Prelude.{◌≡◌, ◌≤◌, ◌==◌, ℕ, List, [], ◌++◌, length, drop, OnOk, OnErr};

use bytes::BytesMut;
use kn_io::NoMemory;
use std::alloc::Global;
use std::marker::Model;

/// The most room that a queue keeps while it is empty.
const KEPT_ROOM: usize = 65_536;

/// A queue of bytes that is written at its end and read at its front. Contracts see it as the list.
#[derive(Drop)]
pub struct ByteQueue {
    bytes: BytesMut,
}

impl Model for ByteQueue {
    ghost Value = { List ℕ };

    ghost view = { λ q. q.bytes.items };
}

impl ByteQueue {
    /// No bytes. Takes no memory.
    pub fn new(alloc: Global) -> ByteQueue
        ensures { result ≡ [] }
    {
        ByteQueue {
            bytes: BytesMut::new(alloc),
        }
    }

    pub fn len(&self) -> usize
        ensures { result ≡ length self.now }
    {
        self.bytes.len()
    }

    pub fn is_empty(&self) -> bool
        ensures { result ≡ (length self.now == 0) }
    {
        self.bytes.is_empty()
    }

    pub fn as_slice(&self) -> &[u8]
        ensures { result.now ≡ self.now }
    {
        self.bytes.as_slice()
    }

    /// Adds a copy of the bytes at the end. An `Err` changes nothing.
    pub fn append(&mut self, bytes: &[u8]) -> Result<(), NoMemory>
        ensures ok { OnOk result (self.new ≡ self.old ++ bytes.now) }
        ensures err { OnErr result (self.new ≡ self.old) }
    {
        self.bytes.extend_from_slice(bytes)?;
        Ok(())
    }

    /// Adds a copy of bytes that stand in two places at the end. An `Err` changes nothing.
    pub fn append_two(&mut self, front: &[u8], rest: &[u8]) -> Result<(), NoMemory>
        ensures ok { OnOk result (self.new ≡ self.old ++ (front.now ++ rest.now)) }
        ensures err { OnErr result (self.new ≡ self.old) }
    {
        let before = self.bytes.len();
        self.bytes.extend_from_slice(front)?;
        match self.bytes.extend_from_slice(rest) {
            Ok(()) => Ok(()),
            Err(_error) => {
                self.bytes.truncate(before);
                Err(NoMemory)
            }
        }
    }

    /// Takes the first bytes away, and moves none. A queue that has become empty keeps no large room.
    pub fn advance(&mut self, count: usize)
        requires { count ≤ length self.old }
        ensures { self.new ≡ drop count self.old }
    {
        if count == self.bytes.len() {
            self.rest();
        } else {
            self.bytes.advance(count);
        }
    }

    /// Takes all bytes away, and their room where it is large.
    fn rest(&mut self)
        ensures { self.new ≡ [] }
    {
        self.bytes.clear();
        if self.bytes.capacity() > KEPT_ROOM {
            self.clear();
        }
    }

    /// Takes all bytes away, and their room.
    pub fn clear(&mut self)
        ensures { self.new ≡ [] }
    {
        let alloc = *self.bytes.allocator();
        self.bytes = BytesMut::new(alloc);
    }
}
