ghost use Rattle.std.specs.Prelude.{◌≡◌, [], None, length, OnOk, OnErr};
ghost use Rattle.kn_tables.specs.Lists.{first_where, count_where, IsRising};
ghost use Rattle.kn_tables.specs.Awaiting.{is_dial, is_random, is_of_front, is_of_link, with_awaited, without_dial};

use crate::awaited_entry::AwaitedEntry;
use crate::counts::{count_of, lower, raise};
use crate::index::{entry_at, first_at};
use kn_io::NoMemory;
use std::alloc::Global;
use std::collections::BTreeMap;
use std::marker::Model;

/// The dials that no agent has answered yet. Contracts see the list of them by rising dial number.
/// Each call takes a time that is logarithmic in the number of entries.
#[derive(Drop)]
pub struct Awaited {
    by_dial: BTreeMap<u64, AwaitedEntry>,
    by_random: BTreeMap<(u64, i64), u64>,
    by_front: BTreeMap<(u64, u64), u64>,
    by_link: BTreeMap<(u64, u64), u64>,
    counts: BTreeMap<u64, usize>,
}

impl Model for Awaited {
    ghost use Rattle.std.specs.Prelude.{List};
    ghost use Rattle.kn_tables.specs.declared.awaited_entry.AwaitedEntry.{AwaitedEntry};

    ghost Value = { List AwaitedEntry };

    ghost use Rattle.kn_tables.specs.Keeping.{awaited_rows, AwaitedIsKept};

    ghost view = { awaited_rows };

    ghost invariant = { AwaitedIsKept };
}

impl Awaited {
    /// No entry. Takes no memory.
    pub fn new(alloc: Global) -> Awaited
        ensures { result ≡ [] }
    {
        Awaited {
            by_dial: BTreeMap::new(alloc),
            by_random: BTreeMap::new(alloc),
            by_front: BTreeMap::new(alloc),
            by_link: BTreeMap::new(alloc),
            counts: BTreeMap::new(alloc),
        }
    }

    /// Adds an entry whose dial is new, and whose front awaits no other dial of this random.
    /// It takes all its memory first, so that the table is unchanged where there is none.
    pub fn insert(&mut self, entry: AwaitedEntry) -> Result<(), NoMemory>
        requires new_dial { first_where (is_dial entry.dial) self.old ≡ None }
        requires new_random { first_where (is_random entry.front entry.random) self.old ≡ None }
        ensures ok { OnOk result (self.new ≡ with_awaited entry self.old) }
        ensures err { OnErr result (self.new ≡ self.old) }
    {
        // A table holds fewer than 2^63 entries, so that a count of them fits.
        let _entries = self.by_dial.len();
        let count = count_of(&self.counts, entry.front);
        self.counts.insert(entry.front, count)?;
        let random = (entry.front, entry.random);
        let front = (entry.front, entry.dial);
        let link = (entry.link, entry.dial);
        self.by_random.insert(random, entry.dial)?;
        match self.by_front.insert(front, entry.dial) {
            Ok(_) => {}
            Err(_) => {
                self.by_random.remove(&random);
                return Err(NoMemory);
            }
        }
        match self.by_link.insert(link, entry.dial) {
            Ok(_) => {}
            Err(_) => {
                self.by_random.remove(&random);
                self.by_front.remove(&front);
                return Err(NoMemory);
            }
        }
        match self.by_dial.insert(entry.dial, entry) {
            Ok(_) => {}
            Err(_) => {
                self.by_random.remove(&random);
                self.by_front.remove(&front);
                self.by_link.remove(&link);
                return Err(NoMemory);
            }
        }
        raise(&mut self.counts, entry.front);
        Ok(())
    }

    /// The entry of a dial.
    pub fn find_dial(&self, dial: u64) -> Option<AwaitedEntry>
        ensures { result ≡ first_where (is_dial dial) self.now }
    {
        self.by_dial.get(&dial).copied()
    }

    /// The entry by which a front awaits this random.
    pub fn find_random(&self, front: u64, random: i64) -> Option<AwaitedEntry>
        ensures { result ≡ first_where (is_random front random) self.now }
    {
        entry_at(&self.by_dial, self.by_random.get(&(front, random)).copied())
    }

    /// The entry of this front with the least dial number.
    pub fn first_of_front(&self, front: u64) -> Option<AwaitedEntry>
        ensures rising { IsRising (λ e. e.dial) self.now }
        ensures first { result ≡ first_where (is_of_front front) self.now }
    {
        entry_at(&self.by_dial, first_at(&self.by_front, front))
    }

    /// The entry of this link with the least dial number.
    pub fn first_of_link(&self, link: u64) -> Option<AwaitedEntry>
        ensures rising { IsRising (λ e. e.dial) self.now }
        ensures first { result ≡ first_where (is_of_link link) self.now }
    {
        entry_at(&self.by_dial, first_at(&self.by_link, link))
    }

    /// How many dials this front awaits.
    pub fn count_of_front(&self, front: u64) -> usize
        ensures { result ≡ count_where (is_of_front front) self.now }
    {
        count_of(&self.counts, front)
    }

    /// Takes the entry of a dial out. It takes no memory.
    pub fn remove(&mut self, dial: u64) -> Option<AwaitedEntry>
        ensures found { result ≡ first_where (is_dial dial) self.old }
        ensures left { self.new ≡ without_dial dial self.old }
        ensures gone { first_where (is_dial dial) self.new ≡ None }
    {
        let Some(entry) = self.by_dial.remove(&dial) else {
            return None;
        };
        self.by_random.remove(&(entry.front, entry.random));
        self.by_front.remove(&(entry.front, entry.dial));
        self.by_link.remove(&(entry.link, entry.dial));
        lower(&mut self.counts, entry.front);
        Some(entry)
    }

    /// How many entries there are.
    pub fn len(&self) -> usize
        ensures { result ≡ length self.now }
    {
        self.by_dial.len()
    }
}
