ghost use Rattle.std.specs.Prelude.{◌≡◌, ◌+◌, ◌-◌, ◌<◌, ◌++◌, [], ◌∷◌, OnOk, OnErr, vec_len, vec_capacity};
ghost use Rattle.kn_port.specs.Journal.{shut_entries};
ghost use Rattle.kn_port.specs.Keeping.{IsPlain, Opens, is_marked, unmarked};
ghost use Rattle.kn_port.specs.Numbers.{nth};

use crate::Entry;
use kn_io::NoMemory;
use std::alloc::Global;
use std::marker::Model;

/// The calls of a port and their answers. It keeps room for the entries by which the connections at hand are
/// given up, and, once it made some, for one call.
#[derive(Drop)]
pub(crate) struct Journal {
    entries: Vec<Entry>,
    /// Of each connection whether it is at hand.
    marks: Vec<bool>,
    /// How many are.
    kept: usize,
    spare: usize,
}

impl Model for Journal {
    ghost use Rattle.std.specs.Prelude.{◌+◌, ◌≤◌, ◌≡◌, ℕ, length, vec_len, vec_capacity};
    ghost use Rattle.kn_port.specs.Keeping.{JournalState, KeepsRoom};

    ghost Value = { JournalState };

    ghost view = { λ j. record { entries = j.entries.items; drawn = length j.marks.items; spare = j.spare } };

    ghost invariant = { λ j. KeepsRoom j.entries.items (vec_len j.entries) (vec_capacity j.entries) j.marks.items (vec_len j.marks) (vec_capacity j.marks) j.kept j.spare };
}

impl Journal {
    /// No entry. Takes no memory.
    pub(crate) fn new(alloc: Global) -> Journal
        ensures { result ≡ record { entries = []; drawn = 0; spare = 0 } }
    {
        Journal {
            entries: Vec::new(alloc),
            marks: Vec::new(alloc),
            kept: 0,
            spare: 0,
        }
    }

    pub(crate) fn entries(&self) -> &[Entry]
        ensures { result.now ≡ self.now.entries }
    {
        self.entries.as_slice()
    }

    /// Makes room for the entry of one call, and for that by which its connection is given up. An `Err` changes
    /// nothing.
    pub(crate) fn make_room(&mut self) -> Result<(), NoMemory>
        ensures ok { OnOk result (self.new ≡ record self.old { spare = 2 }) }
        ensures err { OnErr result (self.new ≡ self.old) }
    {
        let room = self.kept.checked_add(2).ok_or(NoMemory)?;
        self.entries.reserve(room)?;
        self.marks.reserve(1)?;
        self.spare = 2;
        Ok(())
    }

    /// The room that was made is not used.
    pub(crate) fn give_room_up(&mut self)
        ensures { self.new ≡ record self.old { spare = 0 } }
    {
        self.spare = 0;
    }

    /// Adds an entry that gives no connection. Takes no memory.
    pub(crate) fn add(&mut self, entry: Entry)
        requires room { self.old.spare ≡ 2 }
        requires plain { IsPlain entry }
        ensures { self.new ≡ record self.old { entries = self.old.entries ++ entry ∷ []; spare = 0 } }
    {
        self.entries.push_reserved(entry);
        self.spare = 0;
    }

    /// Adds an entry that gives the next connection. Takes no memory.
    pub(crate) fn open(&mut self, entry: Entry)
        requires room { self.old.spare ≡ 2 }
        requires opens { Opens (self.old.drawn + 1) entry }
        ensures { self.new ≡ record { entries = self.old.entries ++ entry ∷ []; drawn = self.old.drawn + 1; spare = 0 } }
    {
        self.entries.push_reserved(entry);
        self.marks.push_reserved(true);
        self.kept += 1;
        self.spare = 0;
    }

    /// Adds the entry by which a connection at hand is given up; another leaves none. Takes no memory.
    pub(crate) fn shut(&mut self, conn: u64)
        ensures { self.new ≡ record self.old { entries = self.old.entries ++ shut_entries conn self.old.entries } }
    {
        if take_mark(&mut self.marks, conn) {
            self.kept -= 1;
            self.entries.push_reserved(Entry::Shut { conn });
        }
    }
}

/// Takes the mark of a connection away, and tells whether it had one.
fn take_mark(marks: &mut Vec<bool>, conn: u64) -> bool
    ensures mark { result ≡ is_marked (nth conn marks.old.items) }
    ensures marks { marks.new.items ≡ unmarked conn marks.old.items }
    ensures count { vec_len marks.new ≡ vec_len marks.old }
    ensures capacity { vec_capacity marks.new ≡ vec_capacity marks.old }
{
    if conn == 0 {
        return false;
    }
    match marks.get_mut(conn as usize - 1) {
        Some(mark) => std::mem::replace(mark, false),
        None => false,
    }
}
