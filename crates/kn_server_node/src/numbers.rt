ghost use Rattle.std.specs.Prelude.{◌≡◌, [], ◌∷◌, ◌++◌, true, None, OnOk, OnErr};
ghost use Rattle.kn_server_node.specs.Noting.{is_in, noted, without_number};

use kn_io::NoMemory;
use std::alloc::Global;
use std::marker::Model;

/// Some numbers, each once. Contracts see the list.
#[derive(Drop)]
pub struct Numbers {
    items: Vec<u64>,
}

impl Model for Numbers {
    ghost use Rattle.std.specs.Prelude.{ℕ, List};

    ghost Value = { List ℕ };

    ghost view = { λ n. n.items.items };
}

fn is_in(number: u64, numbers: &[u64]) -> bool
    ensures { result ≡ is_in number numbers.now }
{
    for other in numbers {
        if *other == number {
            return true;
        }
    }
    false
}

impl Numbers {
    /// None. Takes no memory.
    pub fn new(alloc: Global) -> Numbers
        ensures { result ≡ [] }
    {
        Numbers {
            items: Vec::new(alloc),
        }
    }

    pub fn as_slice(&self) -> &[u64]
        ensures { result.now ≡ self.now }
    {
        self.items.as_slice()
    }

    /// Puts a number to the others, unless it is there. An `Err` changes nothing.
    pub fn note(&mut self, number: u64) -> Result<(), NoMemory>
        ensures ok { OnOk result (self.new ≡ noted number self.old) }
        ensures err { OnErr result (self.new ≡ self.old) }
    {
        if is_in(number, &self.items) {
            return Ok(());
        }
        self.items.push(number)?;
        Ok(())
    }

    /// Takes a number out.
    pub fn remove(&mut self, number: u64)
        ensures { self.new ≡ without_number number self.old }
    {
        self.items.retain(|other| *other != number);
    }

    /// One of them.
    pub fn last(&self) -> Option<u64>
        ensures none { result ≡ None → self.now ≡ [] }
    {
        self.items.last().copied()
    }
}
