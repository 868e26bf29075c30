ghost use Rattle.std.specs.Prelude.{◌≡◌, ◌<◌, ◌+◌, ◌++◌, ℕ, List, [], length, MatchOption, MatchResult};
ghost use Rattle.kn_packet.specs.Reading.{Joins, entry_of, IsSound, IsEntry, Entry as EntryRead};
ghost use Rattle.kn_packet.specs.Stops.{Begins, StopsAt};
ghost use Rattle.kn_packet.specs.Faults.{FirstFault, EntryFault, reason_in_payload};
ghost use Rattle.kn_packet.specs.Progress.{with_entry, with_entries};
ghost use Rattle.kn_packet.specs.Seen.{content_seen, entry_seen, values_seen};

use crate::fault::PacketReason;
use crate::field::{Content, Field, read_field};
use crate::payload::{FieldKind, Payload, kind};

/// A field that a payload knows, with its number, or one that is skipped.
#[derive(Clone, Copy)]
pub enum Entry<'a> {
    Int64(u64, u64),
    Text(u64, &'a str),
    Bytes(u64, &'a [u8]),
    Skipped,
}

/// The last values of a payload's fields, by number.
#[derive(Clone, Copy)]
pub struct Values<'a> {
    pub text1: &'a str,
    pub text2: &'a str,
    pub bytes3: &'a [u8],
    pub number1: u64,
    pub number2: u64,
    pub number3: u64,
}

/// Where reading stopped: how many bytes are left from the fault on, and the reason.
#[derive(Clone, Copy)]
pub struct Stop {
    pub left: usize,
    pub reason: PacketReason,
}

/// The reason within a payload, where this would be one within a packet.
fn reason_within(reason: PacketReason) -> PacketReason
    ensures { result ≡ reason_in_payload reason }
{
    match reason {
        PacketReason::Cut => PacketReason::Length,
        PacketReason::Varint => PacketReason::Varint,
        PacketReason::Wire => PacketReason::Wire,
        PacketReason::FieldZero => PacketReason::FieldZero,
        PacketReason::Length => PacketReason::Length,
        PacketReason::NotUtf8 => PacketReason::NotUtf8,
    }
}

/// What a field of the kind says, or `None` where it is a text that is not UTF-8.
fn entry_from<'a>(kind: FieldKind, number: u64, content: Content<'a>) -> Option<Entry<'a>>
    ensures { MatchOption result
        (¬ IsSound (entry_of kind number (content_seen content.entry)))
        (λ e. (entry_seen e ≡ entry_of kind number (content_seen content.entry))
        × IsSound (entry_seen e)) }
{
    match (kind, content) {
        (FieldKind::Int64, Content::Varint(n)) => Some(Entry::Int64(number, n)),
        (FieldKind::Bytes, Content::Delimited(body)) => Some(Entry::Bytes(number, body)),
        (FieldKind::Text, Content::Delimited(body)) => match str::from_utf8(body) {
            Ok(text) => Some(Entry::Text(number, text)),
            Err(_) => None,
        },
        _ => Some(Entry::Skipped),
    }
}

/// The values with the field's in place of an earlier one of its number.
fn put<'a>(values: Values<'a>, entry: Entry<'a>) -> Values<'a>
    ensures { values_seen result ≡ with_entry (values_seen values.entry) (entry_seen entry.entry) }
{
    match entry {
        Entry::Int64(1, n) => Values {
            number1: n,
            ..values
        },
        Entry::Int64(2, n) => Values {
            number2: n,
            ..values
        },
        Entry::Int64(3, n) => Values {
            number3: n,
            ..values
        },
        Entry::Text(1, text) => Values {
            text1: text,
            ..values
        },
        Entry::Text(2, text) => Values {
            text2: text,
            ..values
        },
        Entry::Bytes(3, body) => Values {
            bytes3: body,
            ..values
        },
        _ => values,
    }
}

/// The field of the payload at the front of the bytes, and the bytes after it.
fn read_entry(payload: Payload, bytes: &[u8]) -> Result<(Entry<'_>, &[u8]), PacketReason>
    requires { 0 < length bytes.now }
    ensures { MatchResult result
        (λ x. Begins (IsEntry payload) bytes.now (entry_seen x.0) x.1.now)
        (λ reason. EntryFault payload bytes.now [] reason) }
{
    match read_field(bytes) {
        Ok((field, rest)) => match entry_from(
            kind(payload, field.number),
            field.number,
            field.content,
        ) {
            Some(entry) => Ok((entry, rest)),
            None => Err(PacketReason::NotUtf8),
        },
        Err(reason) => Err(reason_within(reason)),
    }
}

/// The values after all fields of the payload in the bytes.
pub fn read_entries<'a>(
    payload: Payload,
    bytes: &'a [u8],
    start: Values<'a>,
) -> Result<Values<'a>, Stop>
    ensures { MatchResult result
        (λ found. (entries : List EntryRead) × Joins (IsEntry payload) bytes.now entries
        × (values_seen found ≡ with_entries (values_seen start.entry) entries))
        (λ stop. StopsAt (FirstFault (IsEntry payload) (EntryFault payload)) bytes.now stop) }
{
    let mut values = start;
    let mut rest = bytes;
    while !rest.is_empty() {
        match read_entry(payload, rest) {
            Ok((entry, after)) => {
                values = put(values, entry);
                rest = after;
            }
            Err(reason) => {
                return Err(Stop {
                    left: rest.len(),
                    reason,
                });
            }
        }
    }
    Ok(values)
}
