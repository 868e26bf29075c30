ghost use Rattle.std.specs.Prelude.{◌≡◌, ◌<◌, ◌+◌, ◌^◌, List, length, MatchResult};
ghost use Rattle.kn_packet.specs.Reading.{Joins, Part, IsPart};
ghost use Rattle.kn_packet.specs.Faults.{FirstFault, PartFault};
ghost use Rattle.kn_packet.specs.Progress.{with_part, with_parts};
ghost use Rattle.kn_packet.specs.Stops.{Begins, StopsAt};
ghost use Rattle.kn_packet.specs.Drafts.{draft_seen};

use crate::draft::{Draft, values_of};
use crate::entry::{Stop, read_entries};
use crate::field::{Content, read_field};
use crate::payload::payload_at;

/// A stop in a payload's body, as one in a packet that has these bytes behind the body.
fn before(stop: Stop, rest: &[u8]) -> Stop
    requires { stop.left + length rest.now < 2 ^ 64 }
    ensures { result ≡ record { left = stop.left + length rest.now; reason = stop.reason } }
{
    Stop {
        left: stop.left + rest.len(),
        reason: stop.reason,
    }
}

/// Reads the field of a packet at the front of the bytes into the draft, and gives the bytes after it.
fn read_part<'a>(draft: Draft<'a>, bytes: &'a [u8]) -> Result<(Draft<'a>, &'a [u8]), Stop>
    requires { 0 < length bytes.now }
    ensures { MatchResult result
        (λ x. (part : Part) × Begins IsPart bytes.now part x.1.now
        × (draft_seen x.0 ≡ with_part (draft_seen draft.entry) part))
        (λ stop. StopsAt PartFault bytes.now stop) }
{
    match read_field(bytes) {
        Err(reason) => Err(Stop {
            left: bytes.len(),
            reason,
        }),
        Ok((field, rest)) => match field.content {
            Content::Varint(n) => {
                if field.number == 1 {
                    Ok((Draft { kind: n, ..draft }, rest))
                } else {
                    Ok((draft, rest))
                }
            }
            Content::Delimited(body) => match payload_at(field.number) {
                Some(payload) => match read_entries(payload, body, values_of(payload, draft)) {
                    Ok(values) => Ok((
                        Draft {
                            kind: draft.kind,
                            payload,
                            values,
                        },
                        rest,
                    )),
                    Err(stop) => Err(before(stop, rest)),
                },
                None => Ok((draft, rest)),
            },
            Content::Fixed64 => Ok((draft, rest)),
            Content::Fixed32 => Ok((draft, rest)),
        },
    }
}

/// Reads all fields of a packet into the draft.
pub fn read_parts<'a>(bytes: &'a [u8], start: Draft<'a>) -> Result<Draft<'a>, Stop>
    ensures { MatchResult result
        (λ draft. (parts : List Part) × Joins IsPart bytes.now parts
        × (draft_seen draft ≡ with_parts (draft_seen start.entry) parts))
        (λ stop. StopsAt (FirstFault IsPart PartFault) bytes.now stop) }
{
    let mut draft = start;
    let mut rest = bytes;
    while !rest.is_empty() {
        match read_part(draft, rest) {
            Ok((next, after)) => {
                draft = next;
                rest = after;
            }
            Err(stop) => return Err(stop),
        }
    }
    Ok(draft)
}
