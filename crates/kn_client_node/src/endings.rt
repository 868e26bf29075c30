ghost use Rattle.std.specs.Prelude.{◌≡◌, [], ◌∷◌, ◌++◌, MatchOption, OnOk, OnErr};

use crate::ending::Ending;
use kn_io::NoMemory;
use std::alloc::Global;
use std::collections::VecDeque;
use std::marker::Model;

/// What was told to apps that left, and was not handed out yet, the first in front. Contracts see the list.
#[derive(Drop)]
pub struct Endings {
    inner: VecDeque<Ending>,
}

impl Model for Endings {
    ghost use Rattle.std.specs.Prelude.{List};
    ghost use Rattle.kn_client_node.specs.declared.ending.Ending.{Ending};

    ghost Value = { List Ending };

    ghost view = { λ q. q.inner.items };
}

impl Endings {
    /// None. Takes no memory.
    pub fn new(alloc: Global) -> Endings
        ensures { result ≡ [] }
    {
        Endings {
            inner: VecDeque::new(alloc),
        }
    }

    /// Puts one behind the others. An `Err` changes nothing.
    pub fn push(&mut self, ending: Ending) -> Result<(), NoMemory>
        ensures ok { OnOk result (self.new ≡ self.old ++ ending ∷ []) }
        ensures err { OnErr result (self.new ≡ self.old) }
    {
        self.inner.push_back(ending)?;
        Ok(())
    }

    /// Takes the first.
    pub fn pop(&mut self) -> Option<Ending>
        ensures { MatchOption result ((self.old ≡ []) × (self.new ≡ [])) (λ ending. self.old ≡ ending ∷ self.new) }
    {
        self.inner.pop_front()
    }
}
