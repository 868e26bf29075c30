ghost use Rattle.std.specs.Prelude.{◌≡◌, ◌<◌, ◌^◌, length, slice_index};
ghost use Rattle.kn_frames.specs.Frames.{length_of, stream_of, frame_of};
ghost use Rattle.kn_frames.specs.Readers.{is_too_long};

use crate::Frame;
use kn_io::Blob;

/// The longest payload that is accepted: SETTINGS_MAX_FRAME_SIZE is never raised from its initial
/// value (RFC 9113, section 6.5.2).
const LONGEST_PAYLOAD: usize = 16_384;

/// A byte of a head, or 0 where it did not come yet.
fn byte_at(head: &[u8], index: usize) -> u8
    ensures { result ≡ slice_index head.now index }
{
    match head.get(index) {
        Some(byte) => *byte,
        None => 0,
    }
}

/// The length that a head says, where bytes that did not come yet count as 0.
#[tactic(auto, unfolding(crate::specs::Frames::length_of))]
pub fn length_of(head: &[u8]) -> usize
    ensures value { result ≡ length_of head.now }
    ensures bound { result < 2 ^ 24 }
{
    let high = byte_at(head, 0) as usize;
    let middle = byte_at(head, 1) as usize;
    let low = byte_at(head, 2) as usize;
    high * 65_536 + middle * 256 + low
}

/// The head says too much, or will, whatever bytes come.
pub fn is_too_long(head: &[u8]) -> bool
    ensures { result ≡ is_too_long head.now }
{
    length_of(head) > LONGEST_PAYLOAD
}

/// The stream's number, without the reserved bit.
#[tactic(auto, unfolding(crate::specs::Frames::stream_of))]
pub fn stream_of(head: &[u8]) -> u32
    ensures value { result ≡ stream_of head.now }
    ensures bound { result < 2147483648 }
{
    let first = byte_at(head, 5) as u32 % 128;
    let second = byte_at(head, 6) as u32;
    let third = byte_at(head, 7) as u32;
    let fourth = byte_at(head, 8) as u32;
    first * 16_777_216 + second * 65_536 + third * 256 + fourth
}

/// The frame of a whole head and its payload.
pub fn frame_of(head: &[u8], payload: Blob) -> Frame
    ensures value { result ≡ frame_of head.now payload }
    ensures stream { result.stream < 2147483648 }
{
    Frame {
        kind: byte_at(head, 3),
        flags: byte_at(head, 4),
        stream: stream_of(head),
        payload,
    }
}
