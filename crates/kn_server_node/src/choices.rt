ghost use Rattle.std.specs.Prelude.{◌≡◌, [], ◌∷◌, MatchOption, OnOk, OnErr};
ghost use Rattle.kn_server_node.specs.Choices.{noted};

use crate::chosen::Chosen;
use kn_io::NoMemory;
use std::alloc::Global;
use std::collections::VecDeque;
use std::marker::Model;

/// Choices that were made and not handed out yet, the first in front. Contracts see the list.
#[derive(Drop)]
pub struct Choices {
    inner: VecDeque<Chosen>,
}

impl Model for Choices {
    ghost use Rattle.std.specs.Prelude.{List};
    ghost use Rattle.kn_server_node.specs.declared.chosen.Chosen.{Chosen};

    ghost Value = { List Chosen };

    ghost view = { λ q. q.inner.items };
}

impl Choices {
    /// None. Takes no memory.
    pub fn new(alloc: Global) -> Choices
        ensures { result ≡ [] }
    {
        Choices {
            inner: VecDeque::new(alloc),
        }
    }

    /// Puts one, if there is one, behind the others. An `Err` changes nothing.
    pub fn note(&mut self, chosen: Option<Chosen>) -> Result<(), NoMemory>
        ensures ok { OnOk result (self.new ≡ noted chosen self.old) }
        ensures err { OnErr result (self.new ≡ self.old) }
    {
        match chosen {
            Some(chosen) => {
                self.inner.push_back(chosen)?;
                Ok(())
            }
            None => Ok(()),
        }
    }

    /// Takes the first.
    pub fn pop(&mut self) -> Option<Chosen>
        ensures { MatchOption result ((self.old ≡ []) × (self.new ≡ [])) (λ chosen. self.old ≡ chosen ∷ self.new) }
    {
        self.inner.pop_front()
    }
}
