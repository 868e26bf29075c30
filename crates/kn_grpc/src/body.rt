ghost use Rattle.std.specs.Prelude.{◌≡◌, ◌==◌, [], ◌++◌, length, OnOk, OnErr};

use kn_io::NoMemory;
use std::alloc::Global;
use std::marker::Model;

/// The most room that is kept for the next message.
const KEPT_ROOM: usize = 65_536;

/// What came of a message behind its head. Contracts see it as the list of bytes.
#[derive(Drop)]
pub struct Body {
    inner: Vec<u8>,
}

impl Model for Body {
    ghost use Rattle.std.specs.Prelude.{ℕ, List};

    ghost Value = { List ℕ };

    ghost view = { λ b. b.inner.items };
}

impl Body {
    /// No bytes. Takes no memory.
    pub fn new(alloc: Global) -> Body
        ensures { result ≡ [] }
    {
        Body {
            inner: Vec::new(alloc),
        }
    }

    pub fn as_slice(&self) -> &[u8]
        ensures { result.now ≡ self.now }
    {
        self.inner.as_slice()
    }

    pub fn len(&self) -> usize
        ensures { result ≡ length self.now }
    {
        self.inner.len()
    }

    pub fn is_empty(&self) -> bool
        ensures { result ≡ (length self.now == 0) }
    {
        self.inner.is_empty()
    }

    /// Adds a copy of the bytes at the end. The room grows with what came. An `Err` changes nothing.
    pub fn append(&mut self, bytes: &[u8]) -> Result<(), NoMemory>
        ensures ok { OnOk result (self.new ≡ self.old ++ bytes.now) }
        ensures err { OnErr result (self.new ≡ self.old) }
    {
        self.inner.extend_from_slice(bytes)?;
        Ok(())
    }

    /// Takes all bytes away, and their room where it is large.
    pub fn clear(&mut self, alloc: Global)
        ensures { self.new ≡ [] }
    {
        if self.inner.capacity() > KEPT_ROOM {
            self.inner = Vec::new(alloc);
        } else {
            self.inner.clear();
        }
    }
}
