ghost use Rattle.std.specs.Prelude.{◌≡◌, IsTrue, ◌↔◌, map};
ghost use Rattle.std.specs.Char.{to_ascii_lowercase};
ghost use Rattle.kn_route.specs.Meanings as spec;
ghost use Rattle.kn_route.specs.Addresses.{address_in};

use crate::address::{Address, Range, address_of, range_of};
use crate::id_kind::IdKind;

/// What the value of a pair of identifiers was read as, once, for all dials.
#[derive(Clone, Copy, Debug)]
pub(crate) enum Meaning {
    /// Dials to this address.
    Exactly(Address),
    /// Dials to addresses of this range.
    Within(Range),
    /// Dials to the name that is the value.
    Named,
    /// Every dial.
    EveryDial,
    /// No dial.
    NoDial,
}

fn meaning_of_v4(address: Option<Address>) -> Meaning
    ensures { result ≡ spec.meaning_of_v4 address }
{
    match address {
        Some(Address::V4(number)) => Meaning::Exactly(Address::V4(number)),
        Some(Address::V6(_)) => Meaning::NoDial,
        None => Meaning::NoDial,
    }
}

fn meaning_of_v6(address: Option<Address>) -> Meaning
    ensures { result ≡ spec.meaning_of_v6 address }
{
    match address {
        Some(Address::V6(number)) => Meaning::Exactly(Address::V6(number)),
        Some(Address::V4(_)) => Meaning::NoDial,
        None => Meaning::NoDial,
    }
}

fn meaning_of_range(range: Option<Range>) -> Meaning
    ensures { result ≡ spec.meaning_of_range range }
{
    match range {
        Some(range) => Meaning::Within(range),
        None => Meaning::NoDial,
    }
}

fn meaning_of_flag(value: &str) -> Meaning
    ensures { result ≡ spec.meaning_of_flag value.now }
{
    if value == "true" {
        Meaning::EveryDial
    } else {
        Meaning::NoDial
    }
}

/// Reads the value of a pair. It takes no memory.
pub(crate) fn meaning_of(kind: &IdKind, value: &str) -> Meaning
    ensures { result ≡ spec.meaning_of kind.now value.now }
{
    match kind {
        IdKind::Ipv4 => meaning_of_v4(address_of(value)),
        IdKind::Ipv6 => meaning_of_v6(address_of(value)),
        IdKind::Host => Meaning::Named,
        IdKind::Cidr => meaning_of_range(range_of(value)),
        IdKind::Uid => Meaning::NoDial,
        IdKind::DefaultRoute => meaning_of_flag(value),
    }
}

fn is_address(own: &Address, address: &Option<Address>) -> bool
    ensures { result ≡ spec.is_some_address own.now address.now }
{
    match address {
        Some(address) => own.is_address(address),
        None => false,
    }
}

fn holds_address(range: &Range, address: &Option<Address>) -> bool
    ensures { result ≡ spec.holds_some range.now address.now }
{
    match address {
        Some(address) => range.holds(address),
        None => false,
    }
}

fn is_name(value: &str, host: &str) -> bool
    ensures { result ≡ spec.is_name value.now host.now }
{
    value.eq_ignore_ascii_case(host)
}

impl Meaning {
    /// Whether the value, which means this, speaks of the host, whose address was read.
    pub(crate) fn fits(&self, value: &str, host: &str, address: &Option<Address>) -> bool
        ensures { result ≡ spec.meets self.now value.now host.now address.now }
    {
        match self {
            Meaning::Exactly(own) => is_address(own, address),
            Meaning::Within(range) => holds_address(range, address),
            Meaning::Named => is_name(value, host),
            Meaning::EveryDial => false,
            Meaning::NoDial => false,
        }
    }

    pub(crate) fn is_every_dial(&self) -> bool
        ensures { result ≡ spec.is_every_dial self.now }
    {
        match self {
            Meaning::Exactly(_) => false,
            Meaning::Within(_) => false,
            Meaning::Named => false,
            Meaning::EveryDial => true,
            Meaning::NoDial => false,
        }
    }
}
