ghost use Rattle.kn_hpack.specs.Faults.{Gives};
ghost use Rattle.kn_hpack.specs.Strings.{text_at, string_at};

use crate::fault::{HpackReason, TextError};
use crate::huffman::read_text;
use crate::integers::integer_at;
use std::alloc::Global;

/// The text of a body, whose length stood behind the byte `first`.
#[tactic(auto, unfolding(crate::specs::Strings::text_at))]
fn text_at(alloc: Global, first: u8, body: &[u8]) -> Result<Vec<u8>, TextError>
    ensures { Gives (λ v. v.items) result (text_at first body.now) }
{
    if first < 128 {
        Ok(Vec::from_slice(alloc, body)?)
    } else {
        read_text(alloc, body)
    }
}

/// The string at the front, and the bytes after it (RFC 7541, section 5.2).
#[tactic(auto, unfolding(crate::specs::Strings::string_at))]
pub fn string_at(alloc: Global, bytes: &[u8]) -> Result<(Vec<u8>, &[u8]), TextError>
    ensures { Gives (λ x. (x.0.items, x.1.now)) result (string_at bytes.now) }
{
    match bytes {
        [] => Err(TextError::Fault(HpackReason::Cut)),
        [first, ..] => {
            let (len, rest) = integer_at(bytes, 127)?;
            let len = len as usize;
            if rest.len() < len {
                return Err(TextError::Fault(HpackReason::Cut));
            }
            let text = text_at(alloc, *first, &rest[..len])?;
            Ok((text, &rest[len..]))
        }
    }
}
