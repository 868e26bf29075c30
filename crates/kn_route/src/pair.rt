ghost use Rattle.std.specs.Prelude.{◌≡◌};
ghost use Rattle.kn_route.specs.Meanings.{fits, is_default_route};
ghost use Rattle.kn_route.specs.Addresses.{address_in};

use crate::address::Address;
use crate::id_kind::IdKind;
use crate::meaning::{Meaning, meaning_of};
use kn_io::Text;
use std::marker::Model;

/// One pair of identifiers with its value read. Contracts see its kind and its value.
#[derive(Drop)]
pub(crate) struct Pair {
    kind: IdKind,
    value: Text,
    meaning: Meaning,
}

impl Model for Pair {
    ghost use Rattle.std.specs.Prelude.{◌≡◌, ℕ, List};
    ghost use Rattle.kn_route.specs.declared.id_kind.IdKind.{IdKind};
    ghost use Rattle.kn_route.specs.Meanings.{meaning_of};

    ghost Value = { IdKind × List ℕ };

    ghost view = { λ p. (p.kind, p.value) };

    ghost invariant = { λ p. p.meaning ≡ meaning_of p.kind p.value };
}

impl Pair {
    pub(crate) fn new(kind: IdKind, value: Text) -> Pair
        ensures { result ≡ (kind, value) }
    {
        let meaning = meaning_of(&kind, value.as_str());
        Pair {
            kind,
            value,
            meaning,
        }
    }

    pub(crate) fn kind(&self) -> IdKind
        ensures { result ≡ self.now.0 }
    {
        self.kind
    }

    pub(crate) fn value(&self) -> &str
        ensures { result.now ≡ self.now.1 }
    {
        self.value.as_str()
    }

    /// Whether the pair speaks of the host, whose address was read.
    pub(crate) fn fits(&self, host: &str, address: &Option<Address>) -> bool
        requires { address.now ≡ address_in host.now }
        ensures { result ≡ fits host.now self.now }
    {
        self.meaning.fits(self.value.as_str(), host, address)
    }

    pub(crate) fn is_default_route(&self) -> bool
        ensures { result ≡ is_default_route self.now }
    {
        self.meaning.is_every_dial()
    }
}
