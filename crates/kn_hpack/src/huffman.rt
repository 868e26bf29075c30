ghost use Rattle.std.specs.Prelude.{ℕ, ◌≡◌, ◌<◌, List, ◌∷◌, [], IfOk, nat_lt};
ghost use Rattle.kn_hpack.specs.Faults.{Gives};
ghost use Rattle.kn_hpack.specs.Walks.{walk, text_of};
ghost use Rattle.kn_hpack.specs.Codes.{bits, bits_of};

use crate::fault::{HpackReason, TextError};
use crate::tree::child_of;
use std::alloc::Global;

/// One bit further.
#[tactic(auto, unfolding(crate::specs::Walks::walk))]
fn go_bit(text: &mut Vec<u8>, node: u16, bit: u8) -> Result<u16, TextError>
    requires node { node < 256 }
    requires bit { bit < 2 }
    ensures walks { Gives (λ n. (n, text.new.items)) result (walk node text.old.items (bit ∷ [])) }
    ensures bound { IfOk result (λ n. n < 256) }
{
    let next = child_of(node, bit);
    if next < 256 {
        return Ok(next);
    }
    if next == 512 {
        return Err(TextError::Fault(HpackReason::Eos));
    }
    text.push((next - 256) as u8)?;
    Ok(0)
}

/// The bits of a byte, the highest first.
fn go_byte(text: &mut Vec<u8>, node: u16, byte: u8) -> Result<u16, TextError>
    requires { node < 256 }
    ensures walks { Gives (λ n. (n, text.new.items)) result (walk node text.old.items (bits 8 byte)) }
    ensures bound { IfOk result (λ n. n < 256) }
{
    let mut at = node;
    for shift in (0..8u8).rev() {
        at = go_bit(text, at, (byte >> shift) % 2)?;
    }
    Ok(at)
}

/// Whether at most seven one bits lead to the node.
fn is_padding(node: u16) -> bool
    ensures { result ≡ nat_lt node 8 }
{
    node < 8
}

/// The text that Huffman codes stand for (RFC 7541, section 5.2).
#[tactic(auto, unfolding(crate::specs::Walks::text_of))]
pub fn read_text(alloc: Global, bytes: &[u8]) -> Result<Vec<u8>, TextError>
    ensures { Gives (λ v. v.items) result (text_of (bits_of bytes.now)) }
{
    let mut text = Vec::new(alloc);
    let mut at = 0;
    for byte in bytes {
        at = go_byte(&mut text, at, *byte)?;
    }
    if is_padding(at) {
        Ok(text)
    } else {
        Err(TextError::Fault(HpackReason::Padding))
    }
}
