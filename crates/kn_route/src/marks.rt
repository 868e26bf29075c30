ghost use Rattle.std.specs.Prelude.{◌≡◌, ◌<◌, ◌++◌, ◌∷◌, [], length, slice_get, OnOk};

use kn_io::NoMemory;
use std::alloc::Global;
use std::marker::Model;

/// The numbers of links, each with whether the link drains. Contracts see the list.
#[derive(Drop)]
pub struct Marks {
    list: Vec<(u64, bool)>,
}

impl Model for Marks {
    ghost use Rattle.std.specs.Prelude.{ℕ, Bool, List};

    ghost Value = { List (ℕ × Bool) };

    ghost view = { λ m. m.list.items };
}

impl Marks {
    pub(crate) fn new(alloc: Global) -> Marks
        ensures { result ≡ [] }
    {
        Marks {
            list: Vec::new(alloc),
        }
    }

    pub(crate) fn push(&mut self, link: u64, draining: bool) -> Result<(), NoMemory>
        ensures { OnOk result (self.new ≡ self.old ++ (link, draining) ∷ []) }
    {
        self.list.push((link, draining))?;
        Ok(())
    }

    /// How many links there are.
    pub fn len(&self) -> usize
        ensures { result ≡ length self.now }
    {
        self.list.len()
    }

    /// The link at an index, counted from 0, and whether it drains.
    pub fn at(&self, index: usize) -> (u64, bool)
        requires { index < length self.now }
        ensures { slice_get self.now index ≡ Some result }
    {
        self.list[index]
    }
}
