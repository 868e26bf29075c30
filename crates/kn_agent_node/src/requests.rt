ghost use Rattle.std.specs.Prelude.{◌≡◌, [], ◌∷◌, ◌++◌, filter, MatchOption, OnOk, OnErr};
ghost use Rattle.kn_agent_node.specs.Waiting.{is_other_dial};

use crate::request::Request;
use kn_io::NoMemory;
use std::alloc::Global;
use std::collections::VecDeque;
use std::marker::Model;

/// Dials that wait to be handed out, the next one first. Contracts see the list.
#[derive(Drop)]
pub struct Requests {
    inner: VecDeque<Request>,
}

impl Model for Requests {
    ghost use Rattle.std.specs.Prelude.{List};
    ghost use Rattle.kn_agent_node.specs.declared.request.Request.{Request};

    ghost Value = { List Request };

    ghost view = { λ q. q.inner.items };
}

impl Requests {
    /// None. Takes no memory.
    pub fn new(alloc: Global) -> Requests
        ensures { result ≡ [] }
    {
        Requests {
            inner: VecDeque::new(alloc),
        }
    }

    /// Puts one behind the others. An `Err` changes nothing.
    pub fn push(&mut self, request: Request) -> Result<(), NoMemory>
        ensures ok { OnOk result (self.new ≡ self.old ++ request ∷ []) }
        ensures err { OnErr result (self.new ≡ self.old) }
    {
        self.inner.push_back(request)?;
        Ok(())
    }

    /// Takes the first.
    pub fn pop(&mut self) -> Option<Request>
        ensures { MatchOption result ((self.old ≡ []) × (self.new ≡ [])) (λ request. self.old ≡ request ∷ self.new) }
    {
        self.inner.pop_front()
    }

    /// Takes the dial of a ticket out, if it waits.
    pub fn remove(&mut self, ticket: u64)
        ensures { self.new ≡ filter (is_other_dial ticket) self.old }
    {
        self.inner.retain(|one| one.ticket != ticket);
    }
}
