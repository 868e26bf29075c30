ghost use Rattle.std.specs.Prelude.{◌≡◌, [], ◌∷◌, ◌++◌, MatchOption, OnOk, OnErr};
ghost use Rattle.kn_ends.specs.Queues.{is_empty};
ghost use Rattle.kn_ends.specs.Queues.{tagged};

use crate::heard::Heard;
use kn_h2_state::Events;
use kn_io::NoMemory;
use std::alloc::Global;
use std::collections::VecDeque;
use std::marker::Model;

/// What connections told, the next one in front. Contracts see the list.
#[derive(Drop)]
pub struct Told {
    inner: VecDeque<Heard>,
}

impl Model for Told {
    ghost use Rattle.std.specs.Prelude.{List};
    ghost use Rattle.kn_ends.specs.declared.heard.Heard.{Heard};

    ghost Value = { List Heard };

    ghost view = { λ q. q.inner.items };
}

impl Told {
    /// Nothing. Takes no memory.
    pub fn new(alloc: Global) -> Told
        ensures { result ≡ [] }
    {
        Told {
            inner: VecDeque::new(alloc),
        }
    }

    pub fn is_empty(&self) -> bool
        ensures { result ≡ is_empty self.now }
    {
        match self.inner.front() {
            Some(_first) => false,
            None => true,
        }
    }

    /// Puts one behind the others. An `Err` changes nothing.
    pub fn push(&mut self, heard: Heard) -> Result<(), NoMemory>
        ensures ok { OnOk result (self.new ≡ self.old ++ heard ∷ []) }
        ensures err { OnErr result (self.new ≡ self.old) }
    {
        self.inner.push_back(heard)?;
        Ok(())
    }

    /// Takes the first.
    pub fn pop(&mut self) -> Option<Heard>
        ensures { MatchOption result ((self.old ≡ []) × (self.new ≡ [])) (λ heard. self.old ≡ heard ∷ self.new) }
    {
        self.inner.pop_front()
    }

    /// Puts what a connection told behind the others.
    pub fn append(&mut self, conn: u64, events: Events) -> Result<(), NoMemory>
        ensures { OnOk result (self.new ≡ self.old ++ tagged conn events) }
    {
        let mut rest = events;
        while let Some(event) = rest.pop() {
            self.push(Heard { conn, event })?;
        }
        Ok(())
    }
}
