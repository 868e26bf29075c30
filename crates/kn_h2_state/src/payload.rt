ghost use Rattle.std.specs.Prelude.{◌≡◌, ◌+◌, ◌-◌, ◌^◌, ◌==◌, ◌<◌, ◌≤◌, length, take, drop, slice_index, if◌then◌else◌};
ghost use Rattle.std.specs.Int.{from_be_bytes, w16, w32};
ghost use Rattle.kn_h2_state.specs.Payloads.{has, field_bytes, padding, content, number_at, increment_of, settings_of};

use crate::codes::{flags, kinds};
use kn_frames::Frame;

/// The frame has the flag, a power of two.
pub fn has(frame: &Frame, flag: u8) -> bool
    requires { 0 < flag }
    ensures { result ≡ has frame.now flag }
{
    (frame.flags / flag) % 2 == 1
}

/// How many bytes of fields stand before the content of DATA or HEADERS.
pub fn field_bytes(frame: &Frame) -> usize
    ensures value { result ≡ field_bytes frame.now }
    ensures bound { result ≤ 6 }
{
    pad_field(frame) + priority_fields(frame)
}

fn pad_field(frame: &Frame) -> usize
    ensures value { result ≡ (if has frame.now 8 then 1 else 0) }
    ensures bound { result ≤ 1 }
{
    if has(frame, flags::PADDED) { 1 } else { 0 }
}

fn priority_fields(frame: &Frame) -> usize
    ensures value { result ≡ (if frame.now.kind == 1 then (if has frame.now 32 then 5 else 0) else 0) }
    ensures bound { result ≤ 5 }
{
    if frame.kind == kinds::HEADERS {
        if has(frame, flags::PRIORITY) { 5 } else { 0 }
    } else {
        0
    }
}

/// The pad length.
pub fn padding(frame: &Frame) -> usize
    ensures value { result ≡ padding frame.now }
    ensures bound { result ≤ 255 }
{
    if has(frame, flags::PADDED) {
        first_byte(frame.payload.as_slice())
    } else {
        0
    }
}

fn first_byte(bytes: &[u8]) -> usize
    ensures value { result ≡ slice_index bytes.now 0 }
    ensures bound { result ≤ 255 }
{
    match bytes.first() {
        Some(byte) => *byte as usize,
        None => 0,
    }
}

/// The bytes after the first ones.
pub fn after(bytes: &[u8], count: usize) -> &[u8]
    ensures { result.now ≡ drop count bytes.now }
{
    if count < bytes.len() {
        &bytes[count..]
    } else {
        &[]
    }
}

/// The content of DATA, HEADERS or CONTINUATION: what stands between the fields and the padding.
#[tactic(auto, unfolding(crate::specs::Payloads::content))]
pub fn content(frame: &Frame) -> &[u8]
    ensures { result.now ≡ content frame.now }
{
    let payload = frame.payload.as_slice();
    if frame.kind == kinds::CONTINUATION {
        payload
    } else {
        without_padding(after(payload, field_bytes(frame)), padding(frame))
    }
}

fn without_padding(bytes: &[u8], count: usize) -> &[u8]
    ensures { result.now ≡ take (length bytes.now - count) bytes.now }
{
    &bytes[..bytes.len().saturating_sub(count)]
}

/// Four bytes as a number, the highest first.
pub fn number_at(payload: &[u8], place: usize) -> u32
    requires { place + 4 ≤ length payload.now }
    ensures { result ≡ number_at payload.now place }
{
    four_bytes(&payload[place..place + 4])
}

pub fn four_bytes(bytes: &[u8]) -> u32
    requires { length bytes.now ≡ 4 }
    ensures { result ≡ from_be_bytes w32 bytes.now }
{
    match bytes {
        [a, b, c, d] => u32::from_be_bytes([*a, *b, *c, *d]),
        _ => unreachable!(),
    }
}

pub fn two_bytes(bytes: &[u8]) -> u16
    requires { length bytes.now ≡ 2 }
    ensures { result ≡ from_be_bytes w16 bytes.now }
{
    match bytes {
        [a, b] => u16::from_be_bytes([*a, *b]),
        _ => unreachable!(),
    }
}

/// The increment of WINDOW_UPDATE, without the reserved bit at its top.
#[tactic(auto, unfolding(crate::specs::Payloads::increment_of))]
pub fn increment(payload: &[u8]) -> u32
    requires { 4 ≤ length payload.now }
    ensures value { result ≡ increment_of payload.now }
    ensures bound { result < 2 ^ 31 }
{
    number_at(payload, 0) % 2_147_483_648
}
