ghost use Rattle.std.specs.Prelude.{◌≡◌, ◌^◌, ◌-◌, min, IfOk};
ghost use Rattle.kn_hpack.specs.Fields.{pair, size};

use std::alloc::{AllocError, Global};
use std::marker::Model;

/// A header field: a name and a value, each any bytes.
#[derive(Drop)]
pub struct Pair {
    name: Vec<u8>,
    value: Vec<u8>,
}

impl Model for Pair {
    ghost use Rattle.kn_hpack.specs.Fields.{Field, pair};

    ghost Value = { Field };

    ghost view = { λ p. pair p.name.items p.value.items };
}

impl Pair {
    pub fn new(name: Vec<u8>, value: Vec<u8>) -> Pair
        ensures { result ≡ pair name.items value.items }
    {
        Pair { name, value }
    }

    pub fn copy_of(alloc: Global, name: &[u8], value: &[u8]) -> Result<Pair, AllocError>
        ensures { IfOk result (λ p. p ≡ pair name.now value.now) }
    {
        let name = Vec::from_slice(alloc, name)?;
        let value = Vec::from_slice(alloc, value)?;
        Ok(Pair { name, value })
    }

    pub fn name(&self) -> &[u8]
        ensures { result.now ≡ self.now.name }
    {
        self.name.as_slice()
    }

    pub fn value(&self) -> &[u8]
        ensures { result.now ≡ self.now.value }
    {
        self.value.as_slice()
    }

    /// What the field counts (RFC 7541, section 4.1), up to the type's end.
    pub fn size(&self) -> usize
        ensures { result ≡ min (size self.now) (2 ^ 64 - 1) }
    {
        self.name
            .len()
            .saturating_add(self.value.len())
            .saturating_add(32)
    }
}
