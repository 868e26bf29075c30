ghost use Rattle.std.specs.Prelude.{◌≡◌, ◌<◌, [], ◌∷◌, ◌++◌, length, slice_get, IfSome, OnOk, OnErr, ◌==◌};
ghost use Rattle.kn_hpack.specs.Fields.{pair};

use crate::field::Pair;
use kn_io::NoMemory;
use std::alloc::{AllocError, Global};
use std::marker::Model;

/// A list of header fields, in their order. Contracts see it as the list.
#[derive(Drop)]
pub struct Headers {
    fields: Vec<Pair>,
}

impl Model for Headers {
    ghost use Rattle.std.specs.Prelude.{List};
    ghost use Rattle.kn_hpack.specs.Fields.{Field};

    ghost Value = { List Field };

    ghost view = { λ h. h.fields.items };
}

impl Headers {
    /// No fields. Takes no memory.
    pub fn new(alloc: Global) -> Headers
        ensures { result ≡ [] }
    {
        Headers {
            fields: Vec::new(alloc),
        }
    }

    /// Adds a field at the end. An `Err` changes nothing.
    pub fn add(&mut self, alloc: Global, name: &[u8], value: &[u8]) -> Result<(), NoMemory>
        ensures ok { OnOk result (self.new ≡ self.old ++ pair name.now value.now ∷ []) }
        ensures err { OnErr result (self.new ≡ self.old) }
    {
        let field = Pair::copy_of(alloc, name, value)?;
        self.fields.push(field)?;
        Ok(())
    }

    /// Adds the field at the end. An `Err` changes nothing.
    pub(crate) fn push(&mut self, field: Pair) -> Result<(), AllocError>
        ensures ok { OnOk result (self.new ≡ self.old ++ field ∷ []) }
        ensures err { OnErr result (self.new ≡ self.old) }
    {
        self.fields.push(field)?;
        Ok(())
    }

    pub fn len(&self) -> usize
        ensures { result ≡ length self.now }
    {
        self.fields.len()
    }

    pub fn is_empty(&self) -> bool
        ensures { result ≡ (length self.now == 0) }
    {
        self.fields.is_empty()
    }

    pub fn name(&self, index: usize) -> &[u8]
        requires { index < length self.now }
        ensures { IfSome (slice_get self.now index) (λ f. result.now ≡ f.name) }
    {
        self.fields[index].name()
    }

    pub fn value(&self, index: usize) -> &[u8]
        requires { index < length self.now }
        ensures { IfSome (slice_get self.now index) (λ f. result.now ≡ f.value) }
    {
        self.fields[index].value()
    }
}
