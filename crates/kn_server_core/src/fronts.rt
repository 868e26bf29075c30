ghost use Rattle.std.specs.Prelude.{◌≡◌, ◌<◌, OnOk, OnErr};
ghost use Rattle.kn_server_core.specs.FrontLists as spec;

use kn_io::NoMemory;
use std::alloc::Global;
use std::collections::BTreeSet;
use std::marker::Model;

/// The fronts that are up. Contracts see their numbers, and the greatest one that a front ever had.
#[derive(Drop)]
pub struct Fronts {
    numbers: BTreeSet<u64>,
    top: u64,
}

impl Model for Fronts {
    ghost use Rattle.kn_server_core.specs.FrontLists.{FrontList, AreWithin};

    ghost Value = { FrontList };

    ghost view = { λ f. record { fronts = f.numbers.keys; top = f.top } };

    ghost invariant = { λ f. AreWithin f.top f.numbers.keys };
}

impl Fronts {
    /// No front. Takes no memory.
    pub fn new(alloc: Global) -> Fronts
        ensures { result ≡ spec.no_fronts }
    {
        Fronts {
            numbers: BTreeSet::new(alloc),
            top: 0,
        }
    }

    /// A front comes up with a number above all earlier ones, also of fronts that are gone.
    pub fn up(&mut self, front: u64) -> Result<(), NoMemory>
        requires { self.old.top < front }
        ensures ok { OnOk result (self.new ≡ spec.with_front self.old front) }
        ensures err { OnErr result (self.new ≡ self.old) }
    {
        self.numbers.insert(front)?;
        self.top = front;
        Ok(())
    }

    /// The front is gone. An unknown front changes nothing.
    pub fn down(&mut self, front: u64)
        ensures { self.new ≡ spec.without_front self.old front }
    {
        self.numbers.remove(&front);
    }

    /// Whether a front of this number is up.
    pub fn has(&self, front: u64) -> bool
        ensures { result ≡ spec.is_up front self.now }
    {
        self.numbers.contains(&front)
    }

    /// The greatest number that a front ever had, or 0.
    pub fn top(&self) -> u64
        ensures { result ≡ self.now.top }
    {
        self.top
    }
}
