ghost use Rattle.std.specs.Prelude.{◌≡◌, [], ◌∷◌, ◌++◌, OnOk, OnErr, MatchOption};

use kn_io::NoMemory;
use std::alloc::Global;
use std::marker::Model;

/// Numbers of members of which something else is to be told, each as often as it was stirred. Contracts see the list,
/// the newest at its end.
#[derive(Drop)]
pub struct Stirred {
    numbers: Vec<u64>,
}

impl Model for Stirred {
    ghost use Rattle.std.specs.Prelude.{ℕ, List};

    ghost Value = { List ℕ };

    ghost view = { λ s. s.numbers.items };
}

impl Stirred {
    /// None. Takes no memory.
    pub fn new(alloc: Global) -> Stirred
        ensures { result ≡ [] }
    {
        Stirred {
            numbers: Vec::new(alloc),
        }
    }

    /// Puts a number behind the others. An `Err` changes nothing.
    pub fn add(&mut self, number: u64) -> Result<(), NoMemory>
        ensures ok { OnOk result (self.new ≡ self.old ++ number ∷ []) }
        ensures err { OnErr result (self.new ≡ self.old) }
    {
        self.numbers.push(number)?;
        Ok(())
    }

    /// Takes out the newest.
    pub fn pop(&mut self) -> Option<u64>
        ensures { MatchOption result ((self.old ≡ []) × (self.new ≡ [])) (λ number. self.old ≡ self.new ++ number ∷ []) }
    {
        self.numbers.pop()
    }
}
