ghost use Rattle.std.specs.Prelude.{◌≡◌, [], None, IsSome, length, map, OnOk, OnErr, if◌then◌else◌};
ghost use Rattle.std.specs.List.{filter};
ghost use Rattle.kn_tables.specs.Lists.{first_where, count_where, IsRising};
ghost use Rattle.kn_tables.specs.Holding.{is_held_dial, is_held, is_held_on, is_held_by, with_held, without_held, closed_at, closed_entry, by_connect_id, first_of, AreApart};

use crate::counts::{count_of, lower_for, note_for, raise_for};
use crate::held_entry::{HeldEntry, HeldState};
use crate::index::{entry_at, first_at, first_signed_at, forget_front, note_front, put};
use kn_io::NoMemory;
use std::alloc::Global;
use std::collections::BTreeMap;
use std::marker::Model;

/// The tunnels: each is a connection at an agent that a front has, had, or gave up. Contracts see the list of
/// them by rising dial number. Each call takes a time that is logarithmic in the number of entries.
#[derive(Drop)]
pub struct Held {
    by_dial: BTreeMap<u64, HeldEntry>,
    by_connect: BTreeMap<(u64, i64), u64>,
    by_front: BTreeMap<(u64, u64), u64>,
    counts: BTreeMap<u64, usize>,
}

impl Model for Held {
    ghost use Rattle.std.specs.Prelude.{List};
    ghost use Rattle.kn_tables.specs.declared.held_entry.HeldEntry.{HeldEntry};

    ghost Value = { List HeldEntry };

    ghost use Rattle.kn_tables.specs.Keeping.{held_rows, HeldIsKept};

    ghost view = { held_rows };

    ghost invariant = { HeldIsKept };
}

// An entry whose close was asked, with its front or without.
fn closed(entry: HeldEntry, keep_front: bool) -> HeldEntry
    ensures { result ≡ closed_entry keep_front entry }
{
    if keep_front {
        HeldEntry {
            state: HeldState::Closing,
            ..entry
        }
    } else {
        HeldEntry {
            state: HeldState::Closing,
            front: None,
            ..entry
        }
    }
}

// The front that goes from an entry whose close was asked.
fn front_left(entry: HeldEntry, keep_front: bool) -> Option<u64>
    ensures { result ≡ (if keep_front then None else entry.front) }
{
    if keep_front { None } else { entry.front }
}

impl Held {
    /// No entry. Takes no memory.
    pub fn new(alloc: Global) -> Held
        ensures { result ≡ [] }
    {
        Held {
            by_dial: BTreeMap::new(alloc),
            by_connect: BTreeMap::new(alloc),
            by_front: BTreeMap::new(alloc),
            counts: BTreeMap::new(alloc),
        }
    }

    /// Adds an entry whose dial is new, and whose connectID is new on its link.
    /// It takes all its memory first, so that the table is unchanged where there is none.
    pub fn insert(&mut self, entry: HeldEntry) -> Result<(), NoMemory>
        requires new_dial { first_where (is_held_dial entry.dial) self.old ≡ None }
        requires new_connect { first_where (is_held entry.link entry.connect_id) self.old ≡ None }
        ensures ok { OnOk result (self.new ≡ with_held entry self.old) }
        ensures err { OnErr result (self.new ≡ self.old) }
    {
        // A table holds fewer than 2^63 entries, so that a count of them fits.
        let _entries = self.by_dial.len();
        note_for(&mut self.counts, entry.front)?;
        let connect = (entry.link, entry.connect_id);
        self.by_connect.insert(connect, entry.dial)?;
        match note_front(&mut self.by_front, entry.front, entry.dial) {
            Ok(_) => {}
            Err(_) => {
                self.by_connect.remove(&connect);
                return Err(NoMemory);
            }
        }
        match self.by_dial.insert(entry.dial, entry) {
            Ok(_) => {}
            Err(_) => {
                self.by_connect.remove(&connect);
                forget_front(&mut self.by_front, entry.front, entry.dial);
                return Err(NoMemory);
            }
        }
        raise_for(&mut self.counts, entry.front);
        Ok(())
    }

    /// The entry of a connection of a link.
    pub fn find(&self, link: u64, connect_id: i64) -> Option<HeldEntry>
        ensures { result ≡ first_where (is_held link connect_id) self.now }
    {
        entry_at(
            &self.by_dial,
            self.by_connect.get(&(link, connect_id)).copied(),
        )
    }

    /// The entry of a dial.
    pub fn find_dial(&self, dial: u64) -> Option<HeldEntry>
        ensures { result ≡ first_where (is_held_dial dial) self.now }
    {
        self.by_dial.get(&dial).copied()
    }

    /// The entry that still has this front with the least dial number.
    pub fn first_of_front(&self, front: u64) -> Option<HeldEntry>
        ensures rising { IsRising (λ e. e.dial) self.now }
        ensures apart { AreApart self.now }
        ensures first { result ≡ first_where (is_held_by front) self.now }
    {
        entry_at(&self.by_dial, first_at(&self.by_front, front))
    }

    /// How many entries still have this front.
    pub fn count_of_front(&self, front: u64) -> usize
        ensures { result ≡ count_where (is_held_by front) self.now }
    {
        count_of(&self.counts, front)
    }

    /// The entry of this link with the least connectID.
    pub fn first_of_link(&self, link: u64) -> Option<HeldEntry>
        ensures { result ≡ first_of (by_connect_id (filter (is_held_on link) self.now)) }
    {
        entry_at(&self.by_dial, first_signed_at(&self.by_connect, link))
    }

    /// Notes of an entry that its close was asked, and takes its front from it unless it is to keep it.
    /// It takes no memory.
    pub fn close(&mut self, link: u64, connect_id: i64, keep_front: bool)
        requires { IsSome (first_where (is_held link connect_id) self.old) }
        ensures { self.new ≡ map (closed_at link connect_id keep_front) self.old }
    {
        let Some(entry) = self.find(link, connect_id) else {
            return;
        };
        let left = front_left(entry, keep_front);
        put(&mut self.by_dial, entry.dial, closed(entry, keep_front));
        forget_front(&mut self.by_front, left, entry.dial);
        lower_for(&mut self.counts, left);
    }

    /// Takes the entry of a connection of a link out. It takes no memory.
    pub fn remove(&mut self, link: u64, connect_id: i64) -> Option<HeldEntry>
        ensures found { result ≡ first_where (is_held link connect_id) self.old }
        ensures left { self.new ≡ without_held link connect_id self.old }
        ensures gone { first_where (is_held link connect_id) self.new ≡ None }
    {
        let Some(entry) = self.find(link, connect_id) else {
            return None;
        };
        self.by_connect.remove(&(entry.link, entry.connect_id));
        self.by_dial.remove(&entry.dial);
        forget_front(&mut self.by_front, entry.front, entry.dial);
        lower_for(&mut self.counts, entry.front);
        Some(entry)
    }

    /// How many entries there are.
    pub fn len(&self) -> usize
        ensures { result ≡ length self.now }
    {
        self.by_dial.len()
    }
}
