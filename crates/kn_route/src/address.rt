ghost use Rattle.std.specs.Prelude.{◌≡◌, ℕ, ◌/◌, ◌-◌, ◌^◌, IfSome, MatchBool};
ghost use Rattle.kn_route.specs.Addresses.{IsAddress, v4_in, v6_in, address_in};
ghost use Rattle.kn_route.specs.Ranges.{IsRange, IsPlain, range_in, bits_in};
ghost use Rattle.kn_route.specs.Ranges as spec;

use crate::cut::cut;
use std::net::{Ipv4Addr, Ipv6Addr};

/// An address as a number, the highest byte first. An address of one version equals none of the other,
/// also where an address of version 6 holds one of version 4.
#[derive(Clone, Copy, Debug, PartialEq, Eq)]
pub enum Address {
    V4(u32),
    V6(u128),
}

/// The addresses of a base's version whose first `bits` bits are those of the base.
#[derive(Clone, Copy, Debug, PartialEq, Eq)]
pub struct Range {
    pub base: Address,
    pub bits: u32,
}

fn v4_of(text: &str) -> Option<u32>
    ensures { result ≡ v4_in text.now }
{
    match text.parse::<Ipv4Addr>() {
        Ok(ip) => Some(ip.to_bits()),
        Err(_) => None,
    }
}

fn v6_of(text: &str) -> Option<u128>
    ensures { result ≡ v6_in text.now }
{
    match text.parse::<Ipv6Addr>() {
        Ok(ip) => Some(ip.to_bits()),
        Err(_) => None,
    }
}

fn read_address(text: &str) -> Option<Address>
    ensures { result ≡ address_in text.now }
{
    match v4_of(text) {
        Some(number) => Some(Address::V4(number)),
        None => match v6_of(text) {
            Some(number) => Some(Address::V6(number)),
            None => None,
        },
    }
}

/// The address that the text spells (RFC 4291, section 2.2), or none. It takes no memory.
pub fn address_of(text: &str) -> Option<Address>
    ensures value { result ≡ address_in text.now }
    ensures spelled { IfSome result (IsAddress text.now) }
    ensures only { (a : Address) → IsAddress text.now a → result ≡ Some a }
{
    read_address(text)
}

// The text begins with no sign, and with `0` only where nothing follows.
fn is_plain(digits: &[u8]) -> bool
    ensures { MatchBool result (IsPlain digits.now) (¬ (IsPlain digits.now)) }
{
    digits.len() > 0 && digits[0] != b'+' && (digits.len() == 1 || digits[0] != b'0')
}

fn byte_of(text: &str) -> Option<u8>
    requires { IsPlain text.now }
    ensures { result ≡ bits_in text.now }
{
    match text.parse::<u8>() {
        Ok(bits) => Some(bits),
        Err(_) => None,
    }
}

// A decimal number from 0 to 255 without a sign or leading zeros.
fn bits_of(text: &str) -> Option<u8>
    ensures { result ≡ bits_in text.now }
{
    if is_plain(text.as_bytes()) {
        byte_of(text)
    } else {
        None
    }
}

fn range_from(base: Option<Address>, bits: Option<u8>) -> Option<Range>
    ensures { result ≡ spec.range_from base bits }
{
    let base = base?;
    let bits = bits? as u32;
    if bits <= base.width() {
        Some(Range { base, bits })
    } else {
        None
    }
}

fn read_range(text: &str) -> Option<Range>
    ensures { result ≡ range_in text.now }
{
    match cut(text, '/') {
        Some((base, bits)) => range_from(address_of(base), bits_of(bits)),
        None => None,
    }
}

/// The range that the text spells: an address, `/`, and how many of its first bits count, a decimal
/// number without a sign or leading zeros of at most 32 or 128. It takes no memory.
pub fn range_of(text: &str) -> Option<Range>
    ensures value { result ≡ range_in text.now }
    ensures spelled { IfSome result (IsRange text.now) }
    ensures only { (r : Range) → IsRange text.now r → result ≡ Some r }
{
    read_range(text)
}

impl Address {
    ghost use Rattle.kn_route.specs.Ranges.{width_of, is_address};

    /// How many bits an address of this version has.
    pub fn width(&self) -> u32
        ensures { result ≡ width_of self.now }
    {
        match self {
            Address::V4(_) => 32,
            Address::V6(_) => 128,
        }
    }

    /// Whether the two are of one version and the same number.
    pub fn is_address(&self, other: &Address) -> bool
        ensures { result ≡ is_address self.now other.now }
    {
        match (self, other) {
            (Address::V4(own), Address::V4(number)) => own == number,
            (Address::V6(own), Address::V6(number)) => own == number,
            (Address::V4(_), Address::V6(_)) => false,
            (Address::V6(_), Address::V4(_)) => false,
        }
    }
}

// The first bits of an address of version 4, this many, as a number.
fn first_of_v4(number: u32, bits: u32) -> u32
    ensures { result ≡ number / 2 ^ (32 - bits) }
{
    number.checked_shr(32u32.saturating_sub(bits)).unwrap_or(0)
}

fn first_of_v6(number: u128, bits: u32) -> u128
    ensures { result ≡ number / 2 ^ (128 - bits) }
{
    number.checked_shr(128u32.saturating_sub(bits)).unwrap_or(0)
}

impl Range {
    ghost use Rattle.kn_route.specs.Ranges.{holds};

    /// Whether the address is of the base's version and has the base's first bits.
    pub fn holds(&self, address: &Address) -> bool
        ensures { result ≡ holds self.now address.now }
    {
        match (&self.base, address) {
            (Address::V4(base), Address::V4(number)) => {
                first_of_v4(*base, self.bits) == first_of_v4(*number, self.bits)
            }
            (Address::V6(base), Address::V6(number)) => {
                first_of_v6(*base, self.bits) == first_of_v6(*number, self.bits)
            }
            _ => false,
        }
    }
}
