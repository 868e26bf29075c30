ghost use Rattle.std.specs.Prelude.{◌≡◌, [], ◌∷◌, ◌++◌, OnOk, OnErr};

use crate::place::Place;
use kn_io::NoMemory;
use std::alloc::Global;
use std::marker::Model;

/// Places in the order in which they were left. Contracts see the list.
#[derive(Drop)]
pub struct Places {
    items: Vec<Place>,
}

impl Model for Places {
    ghost use Rattle.std.specs.Prelude.{List};
    ghost use Rattle.kn_server_node.specs.declared.place.Place.{Place};

    ghost Value = { List Place };

    ghost view = { λ s. s.items.items };
}

impl Places {
    /// None. Takes no memory.
    pub fn new(alloc: Global) -> Places
        ensures { result ≡ [] }
    {
        Places {
            items: Vec::new(alloc),
        }
    }

    pub fn as_slice(&self) -> &[Place]
        ensures { result.now ≡ self.now }
    {
        self.items.as_slice()
    }

    /// Puts one behind the others. An `Err` changes nothing.
    pub fn push(&mut self, place: Place) -> Result<(), NoMemory>
        ensures ok { OnOk result (self.new ≡ self.old ++ place ∷ []) }
        ensures err { OnErr result (self.new ≡ self.old) }
    {
        self.items.push(place)?;
        Ok(())
    }
}
