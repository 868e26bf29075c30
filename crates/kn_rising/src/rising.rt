ghost use Rattle.std.specs.Prelude.{◌≡◌, ℕ, ◌<◌, ◌≤◌, false, nat_eq, length, None, Some, MatchOption, MatchResult, OnOk, OnErr};
ghost use Rattle.std.specs.List.{list_any};
ghost use Rattle.kn_rising.specs.Members.{place_in, rank_in, at, with, without, inserted, none, AreRising, AreMembers};

use kn_io::NoMemory;
use std::alloc::Global;
use std::marker::Model;

/// Members by rising number, found by halves. Contracts see the numbers, and beside each its member.
#[derive(Drop)]
pub struct Rising<T> {
    numbers: Vec<u64>,
    items: Vec<T>,
}

impl<T> Model for Rising<T> {
    ghost use Rattle.kn_rising.specs.Members.{Members, AreMembers};

    ghost Value = { Members T };

    ghost view = { λ r. record { numbers = r.numbers.items; items = r.items.items } };

    ghost invariant = { λ r. AreMembers (record { numbers = r.numbers.items; items = r.items.items }) };
}

/// The place of a number, or else the one where it would stand.
fn search(numbers: &[u64], number: u64) -> Result<usize, usize>
    requires { AreRising numbers.now }
    ensures { MatchResult result
        (λ place. (place_in numbers.now number ≡ place) × (place < length numbers.now))
        (λ place. (place_in numbers.now number ≡ length numbers.now) × (rank_in numbers.now number ≡ place) × (place ≤ length numbers.now)) }
{
    numbers.binary_search(&number)
}

/// The place of a number, or the length where it is not there.
pub fn place_of(numbers: &[u64], number: u64) -> usize
    requires { AreRising numbers.now }
    ensures { result ≡ place_in numbers.now number }
{
    match search(numbers, number) {
        Ok(place) => place,
        Err(_place) => numbers.len(),
    }
}

impl<T: Drop> Rising<T> {
    ghost use Rattle.std.specs.Borrow.{LendsIf, sem};
    ghost use Rattle.kn_rising.specs.contracts.rising.Rising.{the_row};

    /// No members. Takes no memory.
    pub fn new(alloc: Global) -> Rising<T>
        ensures { result ≡ none }
    {
        Rising {
            numbers: Vec::new(alloc),
            items: Vec::new(alloc),
        }
    }

    /// How many there are.
    pub fn len(&self) -> usize
        ensures { result ≡ length self.now.numbers }
    {
        self.numbers.len()
    }

    /// The numbers, which rise.
    pub fn numbers(&self) -> &[u64]
        ensures { result.now ≡ self.now.numbers }
    {
        self.numbers.as_slice()
    }

    /// The members by rising number.
    pub fn items(&self) -> &[T]
        ensures { result.now ≡ self.now.items }
    {
        self.items.as_slice()
    }

    /// The member of a number.
    pub fn get(&self, number: u64) -> Option<&T>
        ensures { MatchOption result (at self.now number ≡ None) (λ x. at self.now number ≡ Some x.now) }
    {
        let place = place_of(&self.numbers, number);
        self.items.get(place)
    }

    /// The member of a number, to be changed.
    pub fn get_mut(&mut self, number: u64) -> Option<&mut T>
        ensures value { MatchOption result (at self.old number ≡ None) (λ x. at self.old number ≡ Some x.now) }
        ensures* writes_back { sem 𝓛 (LendsIf (the_row T.row) T.row self.entry result (with self.old number) self.old) }
    {
        let place = place_of(&self.numbers, number);
        self.items.get_mut(place)
    }

    /// Puts a member in its place by its number, or in the place of the one that had the number. An `Err`
    /// changes nothing.
    pub fn insert(&mut self, number: u64, item: T) -> Result<(), NoMemory>
        ensures ok { OnOk result (self.new ≡ inserted self.old number item) }
        ensures err { OnErr result (self.new ≡ self.old) }
    {
        match search(&self.numbers, number) {
            Ok(place) => {
                self.items[place] = item;
                Ok(())
            }
            Err(place) => {
                self.numbers.reserve(1)?;
                self.items.insert(place, item)?;
                self.numbers.insert(place, number)?;
                Ok(())
            }
        }
    }

    /// Takes the member of a number out, if there is one.
    pub fn remove(&mut self, number: u64)
        ensures { self.new ≡ without self.old number }
    {
        let place = place_of(&self.numbers, number);
        if place < self.numbers.len() {
            self.numbers.remove(place);
            self.items.remove(place);
        }
    }

    /// What is true of all members, for a caller's proof: their numbers rise, and a number that is not among
    /// these has no member. It does nothing.
    pub fn holds(&self)
        ensures members { AreMembers self.now }
        ensures others { (n : ℕ) → list_any (nat_eq n) self.now.numbers ≡ false → at self.now n ≡ None }
    {
        let _numbers = &self.numbers;
    }
}
