ghost use Rattle.std.specs.Prelude.{◌≡◌, ◌++◌, [], ◌∷◌, take, OnOk, OnErr};

use crate::Ready;
use kn_io::NoMemory;
use std::alloc::Global;
use std::marker::Model;

/// What a wait named, in order. Contracts see the list.
#[derive(Drop)]
pub struct Woken {
    inner: Vec<Ready>,
}

impl Model for Woken {
    ghost use Rattle.std.specs.Prelude.{List};
    ghost use Rattle.kn_port.specs.declared.names.Ready.{Ready};

    ghost Value = { List Ready };

    ghost view = { λ w. w.inner.items };
}

impl Woken {
    /// Nothing was named. Takes no memory.
    pub fn new(alloc: Global) -> Woken
        ensures { result ≡ [] }
    {
        Woken {
            inner: Vec::new(alloc),
        }
    }

    pub fn as_slice(&self) -> &[Ready]
        ensures { result.now ≡ self.now }
    {
        self.inner.as_slice()
    }

    /// Names one more. An `Err` changes nothing.
    pub fn add(&mut self, ready: Ready) -> Result<(), NoMemory>
        ensures ok { OnOk result (self.new ≡ self.old ++ ready ∷ []) }
        ensures err { OnErr result (self.new ≡ self.old) }
    {
        self.inner.push(ready)?;
        Ok(())
    }

    /// Forgets what was named, and keeps the room.
    pub fn clear(&mut self)
        ensures { self.new ≡ [] }
    {
        self.inner.clear();
    }

    /// Forgets all but the first names.
    pub(crate) fn cut(&mut self, count: usize)
        ensures { self.new ≡ take count self.old }
    {
        self.inner.truncate(count);
    }
}
