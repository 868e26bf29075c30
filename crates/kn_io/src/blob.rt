ghost use Rattle.std.specs.Prelude.{◌≡◌, ℕ, ◌==◌, List, [], ◌++◌, length, IfOk, OnOk, OnErr};

use crate::NoMemory;
use std::alloc::Global;
use std::marker::Model;

/// An owned list of bytes. Contracts see it as the list.
#[derive(Drop)]
pub struct Blob {
    inner: Vec<u8>,
}

impl Model for Blob {
    ghost Value = { List ℕ };

    ghost view = { λ b. b.inner.items };
}

impl Blob {
    /// No bytes. Takes no memory.
    pub fn new(alloc: Global) -> Blob
        ensures { result ≡ [] }
    {
        Blob {
            inner: Vec::new(alloc),
        }
    }

    /// A copy of the bytes.
    pub fn of(alloc: Global, bytes: &[u8]) -> Result<Blob, NoMemory>
        ensures { IfOk result (λ blob. blob ≡ bytes.now) }
    {
        Ok(Blob {
            inner: Vec::from_slice(alloc, bytes)?,
        })
    }

    pub fn as_slice(&self) -> &[u8]
        ensures { result.now ≡ self.now }
    {
        self.inner.as_slice()
    }

    pub fn len(&self) -> usize
        ensures { result ≡ length self.now }
    {
        self.inner.len()
    }

    pub fn is_empty(&self) -> bool
        ensures { result ≡ (length self.now == 0) }
    {
        self.inner.is_empty()
    }

    /// Adds a copy of the bytes at the end. An `Err` changes nothing.
    pub fn append(&mut self, bytes: &[u8]) -> Result<(), NoMemory>
        ensures ok { OnOk result (self.new ≡ self.old ++ bytes.now) }
        ensures err { OnErr result (self.new ≡ self.old) }
    {
        self.inner.extend_from_slice(bytes)?;
        Ok(())
    }
}
