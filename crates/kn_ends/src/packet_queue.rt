ghost use Rattle.std.specs.Prelude.{◌≡◌, ◌+◌, ◌≤◌, [], ◌∷◌, ◌++◌, nat_lt, MatchOption, OnOk, OnErr};
ghost use Rattle.kn_ends.specs.Queues.{is_empty, total};

use kn_io::{Blob, NoMemory};
use std::alloc::Global;
use std::collections::VecDeque;
use std::marker::Model;

/// Framed packets that wait, the first in front. Contracts see the list of their bytes.
#[derive(Drop)]
pub struct PacketQueue {
    inner: VecDeque<Blob>,
}

impl Model for PacketQueue {
    ghost use Rattle.std.specs.Prelude.{List, ℕ};

    ghost Value = { List (List ℕ) };

    ghost view = { λ q. q.inner.items };
}

impl PacketQueue {
    /// None. Takes no memory.
    pub fn new(alloc: Global) -> PacketQueue
        ensures { result ≡ [] }
    {
        PacketQueue {
            inner: VecDeque::new(alloc),
        }
    }

    pub fn is_empty(&self) -> bool
        ensures { result ≡ is_empty self.now }
    {
        match self.inner.front() {
            Some(_first) => false,
            None => true,
        }
    }

    /// Puts a packet behind the others. An `Err` changes nothing.
    pub fn push(&mut self, packet: Blob) -> Result<(), NoMemory>
        ensures ok { OnOk result (self.new ≡ self.old ++ packet ∷ []) }
        ensures err { OnErr result (self.new ≡ self.old) }
    {
        self.inner.push_back(packet)?;
        Ok(())
    }

    /// Takes the first.
    pub fn pop(&mut self) -> Option<Blob>
        ensures { MatchOption result ((self.old ≡ []) × (self.new ≡ [])) (λ packet. self.old ≡ packet ∷ self.new) }
    {
        self.inner.pop_front()
    }

    /// All bytes together are more than so many.
    pub fn exceeds(&self, limit: usize) -> bool
        ensures { result ≡ nat_lt limit (total self.now) }
    {
        let mut left = limit;
        for index in 0..self.inner.len() {
            let len = self.inner[index].len();
            if len > left {
                return true;
            }
            left -= len;
        }
        false
    }
}
