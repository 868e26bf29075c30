ghost use Rattle.std.specs.Prelude.{◌≡◌, [], ◌∷◌, ◌++◌, Some, None, length, ◌+◌, IfOk, OnOk, OnErr, MatchOption};
ghost use Rattle.kn_port.specs.Numbers.{nth, put_nth};

use kn_io::NoMemory;
use std::alloc::Global;
use std::marker::Model;

/// A list whose members are numbered from 1. Contracts see the list. Each call takes constant time.
#[derive(Drop)]
pub(crate) struct Numbered<T> {
    items: Vec<T>,
}

impl<T> Model for Numbered<T> {
    ghost use Rattle.std.specs.Prelude.{List};

    ghost Value = { List T };

    ghost view = { λ n. n.items.items };
}

impl<T: Drop> Numbered<T> {
    ghost use Rattle.std.specs.Borrow.{LendsIf, sem};
    ghost use Rattle.kn_port.specs.contracts.numbered.Numbered.{the_row};

    /// No members. Takes no memory.
    pub(crate) fn new(alloc: Global) -> Numbered<T>
        ensures { result ≡ [] }
    {
        Numbered {
            items: Vec::new(alloc),
        }
    }

    /// The number that the next member has.
    pub(crate) fn next_number(&self) -> Result<u64, NoMemory>
        ensures { IfOk result (λ number. number ≡ length self.now + 1) }
    {
        let count = self.items.len() as u64;
        if count < u64::MAX {
            Ok(count + 1)
        } else {
            Err(NoMemory)
        }
    }

    /// A further member, with the next number. An `Err` changes nothing.
    pub(crate) fn push(&mut self, item: T) -> Result<(), NoMemory>
        ensures ok { OnOk result (self.new ≡ self.old ++ item ∷ []) }
        ensures err { OnErr result (self.new ≡ self.old) }
    {
        self.items.push(item)?;
        Ok(())
    }

    /// The member of a number. Of 0 there is none.
    pub(crate) fn get(&self, number: u64) -> Option<&T>
        ensures { MatchOption result (nth number self.now ≡ None) (λ x. nth number self.now ≡ Some x.now) }
    {
        if number == 0 {
            None
        } else {
            self.items.get(number as usize - 1)
        }
    }

    /// The member of a number, to be changed. Of 0 there is none.
    pub(crate) fn get_mut(&mut self, number: u64) -> Option<&mut T>
        ensures value { MatchOption result (nth number self.old ≡ None) (λ x. nth number self.old ≡ Some x.now) }
        ensures* writes_back { sem 𝓛 (LendsIf (the_row T.row) T.row self.entry result (put_nth number self.old) self.old) }
    {
        if number == 0 {
            None
        } else {
            self.items.get_mut(number as usize - 1)
        }
    }
}
