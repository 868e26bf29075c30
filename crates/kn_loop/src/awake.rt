ghost use Rattle.std.specs.Prelude.{◌≡◌, ℕ, ◌==◌, ◌<◌, ◌||◌, ◌&&◌, not, [], ◌∷◌, length, Bool, true, false, None, Some, Option, OnOk, OnErr, MatchOption, IfNone, ◌⊎◌};
ghost use Rattle.kn_loop.specs.Kept.{is_in, NoTwice};

use kn_io::NoMemory;
use std::alloc::Global;
use std::collections::BTreeSet;
use std::marker::Model;

/// Connections that may have something to do. Contracts see the rising list of their numbers.
#[derive(Drop)]
pub struct Awake {
    inner: BTreeSet<u64>,
}

impl Model for Awake {
    ghost use Rattle.std.specs.Prelude.{ℕ, List};

    ghost Value = { List ℕ };

    ghost view = { λ a. a.inner.keys };
}

impl Awake {
    pub fn new(alloc: Global) -> Awake
        ensures { result ≡ [] }
    {
        Awake {
            inner: BTreeSet::new(alloc),
        }
    }

    pub fn add(&mut self, conn: u64) -> Result<(), NoMemory>
        ensures ok { OnOk result ((c : ℕ) → is_in self.new c ≡ (conn == c || is_in self.old c)) }
        ensures err { OnErr result (self.new ≡ self.old) }
    {
        self.inner.insert(conn)?;
        Ok(())
    }

    pub fn is_empty(&self) -> bool
        ensures { result ≡ (length self.now == 0) }
    {
        self.inner.is_empty()
    }

    /// None is there twice.
    pub(crate) fn holds(&self)
        ensures { NoTwice self.now }
    {
        let _count = self.inner.len();
    }

    /// Takes out the least.
    pub fn pop(&mut self) -> Option<u64>
        ensures { MatchOption result ((self.old ≡ []) × (self.new ≡ [])) (λ n. self.old ≡ n ∷ self.new) }
    {
        self.inner.pop_first()
    }
}
