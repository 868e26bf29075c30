ghost use Rattle.std.specs.Prelude.{◌≡◌, ◌==◌, ◌++◌, length, OnOk};
ghost use Rattle.kn_world.specs.Flows as spec;

use kn_io::{Blob, NoMemory};
use std::alloc::Global;
use std::marker::Model;

/// Bytes on their way between a side of a tunnel and its node. Contracts see those that passed and those that
/// wait.
#[derive(Drop)]
pub struct Flow {
    bytes: Blob,
    /// How many of them passed.
    place: usize,
}

impl Model for Flow {
    ghost use Rattle.std.specs.Prelude.{◌≤◌, length, take, drop};
    ghost use Rattle.kn_world.specs.Flows.{Passing};

    ghost Value = { Passing };

    ghost view = { λ f. record { passed = take f.place f.bytes; waiting = drop f.place f.bytes } };

    ghost invariant = { λ f. f.place ≤ length f.bytes };
}

impl Flow {
    /// No bytes. Takes no memory.
    pub fn new(alloc: Global) -> Flow
        ensures { result ≡ spec.no_bytes }
    {
        Flow {
            bytes: Blob::new(alloc),
            place: 0,
        }
    }

    /// Bytes come, behind those that wait.
    pub fn append(&mut self, bytes: &[u8]) -> Result<(), NoMemory>
        ensures { OnOk result (self.new ≡ spec.with_more bytes.now self.old) }
    {
        self.bytes.append(bytes)
    }

    /// So many of the bytes that wait pass, or all where they are fewer.
    pub fn pass(&mut self, count: usize)
        ensures { self.new ≡ spec.passed_on count self.old }
    {
        let left = self.bytes.len() - self.place;
        self.place += count.min(left);
    }

    /// All bytes, those that passed first.
    pub fn all(&self) -> &[u8]
        ensures { result.now ≡ self.now.passed ++ self.now.waiting }
    {
        self.bytes.as_slice()
    }

    pub fn passed(&self) -> &[u8]
        ensures { result.now ≡ self.now.passed }
    {
        &self.bytes.as_slice()[..self.place]
    }

    pub fn waiting(&self) -> &[u8]
        ensures { result.now ≡ self.now.waiting }
    {
        &self.bytes.as_slice()[self.place..]
    }

    pub fn passed_count(&self) -> usize
        ensures { result ≡ length self.now.passed }
    {
        self.place
    }

    pub fn waiting_count(&self) -> usize
        ensures { result ≡ length self.now.waiting }
    {
        self.bytes.len() - self.place
    }
}
