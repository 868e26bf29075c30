ghost use Rattle.std.specs.Prelude.{◌≡◌, [], ◌∷◌, ◌++◌, MatchOption, OnOk, OnErr};

use crate::event::H2Event;
use kn_io::NoMemory;
use std::alloc::Global;
use std::collections::VecDeque;
use std::marker::Model;

/// Events that were not told yet, the next one in front. Contracts see it as the list.
#[derive(Drop)]
pub struct Events {
    inner: VecDeque<H2Event>,
}

impl Model for Events {
    ghost use Rattle.std.specs.Prelude.{List};
    ghost use Rattle.kn_h2_state.specs.declared.event.H2Event.{H2Event};

    ghost Value = { List H2Event };

    ghost view = { λ q. q.inner.items };
}

impl Events {
    /// No event. Takes no memory.
    pub fn new(alloc: Global) -> Events
        ensures { result ≡ [] }
    {
        Events {
            inner: VecDeque::new(alloc),
        }
    }

    /// Puts an event behind the others. An `Err` changes nothing.
    pub fn push(&mut self, event: H2Event) -> Result<(), NoMemory>
        ensures ok { OnOk result (self.new ≡ self.old ++ event ∷ []) }
        ensures err { OnErr result (self.new ≡ self.old) }
    {
        self.inner.push_back(event)?;
        Ok(())
    }

    /// Takes the first event.
    pub fn pop(&mut self) -> Option<H2Event>
        ensures { MatchOption result ((self.old ≡ []) × (self.new ≡ [])) (λ event. self.old ≡ event ∷ self.new) }
    {
        self.inner.pop_front()
    }
}
