ghost use Rattle.std.specs.Prelude.{◌≡◌, ℕ, ◌^◌, ◌<◌, ◌≤◌, List, [], ◌∷◌, ◌++◌, length, take, slice_index};
ghost use Rattle.kn_grpc.specs.Messages.{length_of};
ghost use Rattle.kn_grpc.specs.Readers.{reason_in, wants_head};

use crate::MessageReason;
use std::marker::Model;

/// The longest message that is accepted.
const LONGEST_MESSAGE: usize = 4_194_304;

/// The first bytes of a message's head, at most five. Takes no memory.
#[derive(Drop)]
pub struct Head {
    bytes: [u8; 5],
    len: usize,
}

impl Model for Head {
    ghost Value = { List ℕ };

    ghost view = { λ h. take h.len h.bytes };

    ghost invariant = { λ h. h.len ≤ 5 };
}

impl Head {
    pub fn new() -> Head
        ensures { result ≡ [] }
    {
        Head {
            bytes: [0; 5],
            len: 0,
        }
    }

    pub fn len(&self) -> usize
        ensures value { result ≡ length self.now }
        ensures bound { result ≤ 5 }
    {
        self.len
    }

    pub fn as_slice(&self) -> &[u8]
        ensures { result.now ≡ self.now }
    {
        &self.bytes[..self.len]
    }

    pub fn push(&mut self, byte: u8)
        requires { length self.old < 5 }
        ensures { self.new ≡ self.old ++ byte ∷ [] }
    {
        self.bytes[self.len] = byte;
        self.len += 1;
    }

    /// Keeps the first bytes, so many.
    pub fn cut(&mut self, len: usize)
        requires { len ≤ length self.old }
        ensures { self.new ≡ take len self.old }
    {
        self.len = len;
    }
}

/// A byte of a head, or 0 where it did not come yet.
fn byte_at(head: &[u8], index: usize) -> u8
    ensures { result ≡ slice_index head.now index }
{
    match head.get(index) {
        Some(byte) => *byte,
        None => 0,
    }
}

/// The length that a head says, where bytes that did not come yet count as 0.
#[tactic(auto, unfolding(crate::specs::Messages::length_of))]
pub fn length_of(head: &[u8]) -> usize
    ensures value { result ≡ length_of head.now }
    ensures bound { result < 2 ^ 32 }
{
    let first = byte_at(head, 1) as usize;
    let second = byte_at(head, 2) as usize;
    let third = byte_at(head, 3) as usize;
    let fourth = byte_at(head, 4) as usize;
    first * 16_777_216 + second * 65_536 + third * 256 + fourth
}

/// Why no message begins so, if none does.
pub fn reason_in(head: &[u8]) -> Option<MessageReason>
    ensures { result ≡ reason_in head.now }
{
    let flag = byte_at(head, 0);
    if flag == 0 {
        if length_of(head) > LONGEST_MESSAGE {
            Some(MessageReason::TooLong)
        } else {
            None
        }
    } else if flag == 1 {
        Some(MessageReason::Compressed)
    } else {
        Some(MessageReason::Flag)
    }
}

/// Whether a head needs more bytes.
pub fn wants_head(head: &[u8]) -> bool
    ensures { result ≡ wants_head head.now }
{
    match reason_in(head) {
        Some(_reason) => false,
        None => head.len() < 5,
    }
}
