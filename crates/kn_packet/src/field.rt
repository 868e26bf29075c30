ghost use Rattle.std.specs.Prelude.{◌≡◌, ◌<◌, MatchResult};
ghost use Rattle.kn_packet.specs.Scanning.{scanned, content_at, field_at, found, refused, reason_of_fault, reason_at_zero, value_of, delimited_of};
ghost use Rattle.kn_packet.specs.Seen.{content_seen, field_seen};

use crate::fault::PacketReason;
use crate::varint::{VarintFault, read_varint};

/// What a field holds. No field of a packet has eight or four bytes, so theirs are left out.
#[derive(Clone, Copy)]
pub enum Content<'a> {
    Varint(u64),
    Fixed64,
    Delimited(&'a [u8]),
    Fixed32,
}

#[derive(Clone, Copy)]
pub struct Field<'a> {
    pub number: u64,
    pub content: Content<'a>,
}

/// Why no whole varint stands where one is due.
fn reason_of(fault: VarintFault) -> PacketReason
    ensures { result ≡ reason_of_fault fault }
{
    match fault {
        VarintFault::Unfinished => PacketReason::Cut,
        VarintFault::TooLong => PacketReason::Varint,
    }
}

/// The reason at a field of the number 0, where this would be one at another field.
fn reason_of_zero(reason: PacketReason) -> PacketReason
    ensures { result ≡ reason_at_zero reason }
{
    match reason {
        PacketReason::Varint => PacketReason::Varint,
        PacketReason::Wire => PacketReason::Wire,
        PacketReason::Cut => PacketReason::FieldZero,
        PacketReason::FieldZero => PacketReason::FieldZero,
        PacketReason::Length => PacketReason::FieldZero,
        PacketReason::NotUtf8 => PacketReason::FieldZero,
    }
}

/// A varint.
fn read_value(bytes: &[u8]) -> Result<(Content<'_>, &[u8]), PacketReason>
    ensures { MatchResult result
        (λ x. value_of (scanned 9 bytes.now) ≡ found (content_seen x.0) x.1.now)
        (λ e. value_of (scanned 9 bytes.now) ≡ refused e) }
{
    match read_varint(bytes) {
        Ok((number, rest)) => Ok((Content::Varint(number), rest)),
        Err(fault) => Err(reason_of(fault)),
    }
}

/// Bytes behind their length.
fn read_delimited(bytes: &[u8]) -> Result<(Content<'_>, &[u8]), PacketReason>
    ensures { MatchResult result
        (λ x. delimited_of (scanned 9 bytes.now) ≡ found (content_seen x.0) x.1.now)
        (λ e. delimited_of (scanned 9 bytes.now) ≡ refused e) }
{
    match read_varint(bytes) {
        Ok((len, rest)) => {
            if (rest.len() as u64) < len {
                return Err(PacketReason::Cut);
            }
            let (body, after) = rest.split_at(len as usize);
            Ok((Content::Delimited(body), after))
        }
        Err(fault) => Err(reason_of(fault)),
    }
}

/// The content behind a tag of the wire type, and the bytes after it.
#[tactic(auto, unfolding(crate::specs::Scanning::content_at))]
fn read_content(wire: u64, bytes: &[u8]) -> Result<(Content<'_>, &[u8]), PacketReason>
    ensures { MatchResult result
        (λ x. content_at wire bytes.now ≡ found (content_seen x.0) x.1.now)
        (λ e. content_at wire bytes.now ≡ refused e) }
{
    if wire == 0 {
        return read_value(bytes);
    }
    if wire == 1 {
        if bytes.len() < 8 {
            return Err(PacketReason::Cut);
        }
        return Ok((Content::Fixed64, &bytes[8..]));
    }
    if wire == 2 {
        return read_delimited(bytes);
    }
    if wire == 5 {
        if bytes.len() < 4 {
            return Err(PacketReason::Cut);
        }
        return Ok((Content::Fixed32, &bytes[4..]));
    }
    Err(PacketReason::Wire)
}

/// The field at the front of the bytes, and the bytes after it.
#[tactic(auto, unfolding(crate::specs::Scanning::field_at))]
pub fn read_field(bytes: &[u8]) -> Result<(Field<'_>, &[u8]), PacketReason>
    ensures { MatchResult result
        (λ x. field_at bytes.now ≡ found (field_seen x.0) x.1.now)
        (λ e. field_at bytes.now ≡ refused e) }
{
    match read_varint(bytes) {
        Err(fault) => Err(reason_of(fault)),
        Ok((tag, rest)) => {
            let number = tag / 8;
            if number == 0 {
                return match read_content(tag % 8, rest) {
                    Ok(_) => Err(PacketReason::FieldZero),
                    Err(reason) => Err(reason_of_zero(reason)),
                };
            }
            match read_content(tag % 8, rest) {
                Ok((content, after)) => Ok((Field { number, content }, after)),
                Err(reason) => Err(reason),
            }
        }
    }
}
