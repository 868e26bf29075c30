ghost use Rattle.std.specs.Prelude.{◌≡◌, ◌<◌, ◌++◌, ◌∷◌, [], length, slice_get, OnOk, IsSomeAnd, MatchResult};
ghost use Rattle.kn_route.specs.Identifiers as spec;
ghost use Rattle.kn_route.specs.Meanings.{fits, is_default_route};
ghost use Rattle.kn_route.specs.Addresses.{address_in};
ghost use Rattle.std.specs.List.{list_any};

use crate::address::Address;
use crate::id_kind::IdKind;
use crate::pair::Pair;
use form_urlencoded::parse;
use kn_io::{NoMemory, Text};
use std::alloc::{AllocError, Global};
use std::marker::Model;

/// The most bytes that the text of identifiers has.
pub const IDENTIFIERS_LIMIT: usize = 10_240;

/// Why a text is no list of identifiers.
#[derive(Clone, Copy, Debug, PartialEq, Eq)]
pub enum IdFault {
    NoMemory,
    /// The text is over 10,240 bytes.
    TooLong,
    /// This pair, counted from 1, is the first whose name is of no kind.
    Kind { pair: usize },
}

impl From<NoMemory> for IdFault {
    ghost use Rattle.std.specs.Prelude.{◌≡◌};
    ghost use Rattle.kn_route.specs.declared.identifiers.IdFault.TheVariants as Fault;

    ghost from_gives = { λ _ fault. fault ≡ Fault.NoMemory };

    fn from(_error: NoMemory) -> IdFault {
        IdFault::NoMemory
    }
}

impl From<AllocError> for IdFault {
    ghost use Rattle.std.specs.Prelude.{◌≡◌};
    ghost use Rattle.kn_route.specs.declared.identifiers.IdFault.TheVariants as Fault;

    ghost from_gives = { λ _ fault. fault ≡ Fault.NoMemory };

    fn from(_error: AllocError) -> IdFault {
        IdFault::NoMemory
    }
}

/// What an agent says of itself. Contracts see the list of the pairs' kinds and values.
#[derive(Drop)]
pub struct Identifiers {
    pairs: Vec<Pair>,
}

impl Model for Identifiers {
    ghost use Rattle.std.specs.Prelude.{ℕ, List};
    ghost use Rattle.kn_route.specs.declared.id_kind.IdKind.{IdKind};

    ghost Value = { List (IdKind × List ℕ) };

    ghost view = { λ i. i.pairs.items };
}

impl Identifiers {
    /// No pairs. Takes no memory.
    pub fn new(alloc: Global) -> Identifiers
        ensures { result ≡ [] }
    {
        Identifiers {
            pairs: Vec::new(alloc),
        }
    }

    // The pair of the name and the value that stands after those that were read.
    fn next(&self, alloc: Global, name: &str, value: &str) -> Result<Pair, IdFault>
        ensures { MatchResult result
            (λ pair. spec.with_pair self.now (name.now, value.now) ≡ Ok (self.now ++ pair ∷ []))
            (spec.IsFaultOf (spec.with_pair self.now (name.now, value.now))) }
    {
        match IdKind::named(name) {
            None => Err(IdFault::Kind {
                pair: self.pairs.len() + 1,
            }),
            Some(kind) => Ok(Pair::new(kind, Text::of(alloc, value)?)),
        }
    }

    fn push(&mut self, pair: Pair) -> Result<(), NoMemory>
        ensures { OnOk result (self.new ≡ self.old ++ pair ∷ []) }
    {
        self.pairs.push(pair)?;
        Ok(())
    }

    /// Reads URL-encoded pairs of a text of any length, so it never answers `TooLong`.
    #[tactic(auto, unfolding(crate::specs::Identifiers::long_identifiers_in))]
    pub fn read_long(alloc: Global, text: &str) -> Result<Identifiers, IdFault>
        ensures { spec.IsIdentifiersAnswer (spec.long_identifiers_in text.now) result }
    {
        let mut identifiers = Identifiers::new(alloc);
        for item in parse(alloc, text.as_bytes()) {
            let (name, value) = item?;
            let pair = identifiers.next(alloc, name.as_str(), value.as_str())?;
            identifiers.push(pair)?;
        }
        Ok(identifiers)
    }

    /// Reads URL-encoded pairs.
    #[tactic(auto, unfolding(crate::specs::Identifiers::identifiers_in))]
    pub fn read(alloc: Global, text: &str) -> Result<Identifiers, IdFault>
        ensures { spec.IsIdentifiersAnswer (spec.identifiers_in text.now) result }
    {
        if text.len() > IDENTIFIERS_LIMIT {
            Err(IdFault::TooLong)
        } else {
            Identifiers::read_long(alloc, text)
        }
    }

    /// How many pairs there are.
    pub fn len(&self) -> usize
        ensures { result ≡ length self.now }
    {
        self.pairs.len()
    }

    /// The kind of the pair at an index, counted from 0.
    pub fn kind(&self, index: usize) -> IdKind
        requires { index < length self.now }
        ensures { IsSomeAnd (slice_get self.now index) (λ pair. result ≡ pair.0) }
    {
        self.pairs[index].kind()
    }

    /// The decoded value of the pair at an index, counted from 0.
    pub fn value(&self, index: usize) -> &str
        requires { index < length self.now }
        ensures { IsSomeAnd (slice_get self.now index) (λ pair. result.now ≡ pair.1) }
    {
        self.pairs[index].value()
    }

    /// Whether a pair speaks of the host, whose address was read. It takes no memory.
    pub(crate) fn fit(&self, host: &str, address: &Option<Address>) -> bool
        requires { address.now ≡ address_in host.now }
        ensures { result ≡ list_any (fits host.now) self.now }
    {
        for pair in &self.pairs {
            if pair.fits(host, address) {
                return true;
            }
        }
        false
    }

    /// Whether the agent takes every dial.
    pub(crate) fn take_every_dial(&self) -> bool
        ensures { result ≡ list_any is_default_route self.now }
    {
        for pair in &self.pairs {
            if pair.is_default_route() {
                return true;
            }
        }
        false
    }
}
