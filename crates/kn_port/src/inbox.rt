ghost use Rattle.std.specs.Prelude.{◌≡◌, ◌≤◌, ◌++◌, [], length, drop, OnOk, OnErr};

use kn_io::{Blob, NoMemory};
use std::alloc::Global;
use std::marker::Model;

/// Bytes that came and were not read yet. Contracts see them as a list.
#[derive(Drop)]
pub(crate) struct Inbox {
    bytes: Blob,
    place: usize,
}

impl Model for Inbox {
    ghost use Rattle.std.specs.Prelude.{ℕ, List, ◌≤◌, drop, length};

    ghost Value = { List ℕ };

    ghost view = { λ b. drop b.place b.bytes };

    ghost invariant = { λ b. b.place ≤ length b.bytes };
}

impl Inbox {
    /// No bytes. Takes no memory.
    pub(crate) fn new(alloc: Global) -> Inbox
        ensures { result ≡ [] }
    {
        Inbox {
            bytes: Blob::new(alloc),
            place: 0,
        }
    }

    pub(crate) fn rest(&self) -> &[u8]
        ensures { result.now ≡ self.now }
    {
        &self.bytes.as_slice()[self.place..]
    }

    /// Bytes come behind the others. An `Err` changes nothing.
    pub(crate) fn append(&mut self, bytes: &[u8]) -> Result<(), NoMemory>
        ensures ok { OnOk result (self.new ≡ self.old ++ bytes.now) }
        ensures err { OnErr result (self.new ≡ self.old) }
    {
        self.bytes.append(bytes)
    }

    /// The first bytes were read.
    pub(crate) fn skip(&mut self, count: usize)
        requires { count ≤ length self.old }
        ensures { self.new ≡ drop count self.old }
    {
        let _held = self.bytes.len();
        self.place += count;
    }
}
