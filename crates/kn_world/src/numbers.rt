//! Numbers as packets have them.
ghost use Rattle.std.specs.Prelude.{◌≡◌};
ghost use Rattle.kn_world.specs.Numbers as spec;

/// A number of a packet, 0 where it is negative.
pub fn number_of(number: &i64) -> u64
    ensures { result ≡ spec.number_of number.now }
{
    if *number < 0 { 0 } else { *number as u64 }
}

/// A number as a packet has it, 0 where it is too large for one.
pub fn signed(number: u64) -> i64
    ensures { result ≡ spec.signed number }
{
    if number < 9_223_372_036_854_775_808 {
        number as i64
    } else {
        0
    }
}

/// The number, or 0, which is none.
pub fn or_none(number: Option<u64>) -> u64
    ensures { result ≡ spec.or_none number }
{
    match number {
        Some(number) => number,
        None => 0,
    }
}
