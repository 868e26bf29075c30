ghost use Rattle.std.specs.Prelude.{◌≡◌, [], ◌∷◌, None, length, OnOk, OnErr, MatchOption};
ghost use Rattle.kn_tables.specs.Lists.{first_where};
ghost use Rattle.kn_edge_core.specs.AgentTables.{is_dial, with_dial, without_dial};

use crate::dial::Dial;
use kn_io::NoMemory;
use std::alloc::Global;
use std::collections::BTreeMap;
use std::marker::Model;

/// The dials that an agent makes. Contracts see the list of them by rising ticket. Each call takes a time that
/// is logarithmic in the number of dials.
#[derive(Drop)]
pub struct Dials {
    by_ticket: BTreeMap<u64, Dial>,
}

impl Model for Dials {
    ghost use Rattle.std.specs.Prelude.{List};
    ghost use Rattle.kn_edge_core.specs.declared.dial.Dial.{Dial};

    ghost Value = { List Dial };

    ghost use Rattle.kn_edge_core.specs.Keeping.{dial_rows, DialsAreKept};

    ghost view = { dial_rows };

    ghost invariant = { DialsAreKept };
}

impl Dials {
    /// No dial. Takes no memory.
    pub fn new(alloc: Global) -> Dials
        ensures { result ≡ [] }
    {
        Dials {
            by_ticket: BTreeMap::new(alloc),
        }
    }

    /// Adds a dial of a new ticket. An `Err` changes nothing.
    pub fn insert(&mut self, dial: Dial) -> Result<(), NoMemory>
        requires { first_where (is_dial dial.ticket) self.old ≡ None }
        ensures ok { OnOk result (self.new ≡ with_dial dial self.old) }
        ensures err { OnErr result (self.new ≡ self.old) }
    {
        self.by_ticket.insert(dial.ticket, dial)?;
        Ok(())
    }

    /// The dial of a ticket.
    pub fn find(&self, ticket: u64) -> Option<Dial>
        ensures { result ≡ first_where (is_dial ticket) self.now }
    {
        self.by_ticket.get(&ticket).copied()
    }

    /// Takes the dial of a ticket out. Takes no memory.
    pub fn remove(&mut self, ticket: u64)
        ensures { self.new ≡ without_dial ticket self.old }
    {
        self.by_ticket.remove(&ticket);
    }

    /// Takes the dial of the least ticket out. Takes no memory.
    pub fn take_first(&mut self) -> Option<Dial>
        ensures first { MatchOption result (self.old ≡ []) (λ d. self.old ≡ d ∷ self.new) }
        ensures rest { MatchOption result (self.new ≡ []) (λ d. self.old ≡ d ∷ self.new) }
    {
        match self.by_ticket.pop_first() {
            Some((_, dial)) => Some(dial),
            None => None,
        }
    }

    /// How many dials there are.
    pub fn len(&self) -> usize
        ensures { result ≡ length self.now }
    {
        self.by_ticket.len()
    }
}
