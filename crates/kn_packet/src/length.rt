ghost use Rattle.std.specs.Prelude.{◌≡◌, ℕ, List, ◌≤◌, ◌<◌, ◌+◌, ◌*◌, ◌^◌, ◌↔◌, length, IsTrue};
ghost use Rattle.kn_packet.specs.Spelling.{shortest, varint_of, number_field, int64_field, message_field, bytes_field, body_of, type_number, payload_number, spelling, HasSpelling};

use crate::packet::Packet;
use kn_io::Text;

/// The length of a shortest varint that may have so many bytes after its first.
#[tactic(auto, unfolding(crate::specs::Spelling::shortest))]
fn varint_len_within(more: u8, n: u64) -> usize
    requires { more ≤ 9 }
    ensures len { result ≡ length (shortest more n) }
    ensures bound { result ≤ more + 1 }
{
    if more == 0 {
        return 1;
    }
    if n < 128 {
        return 1;
    }
    1 + varint_len_within(more - 1, n / 128)
}

fn varint_len(n: u64) -> usize
    ensures len { result ≡ length (varint_of n) }
    ensures bound { result ≤ 10 }
{
    varint_len_within(9, n)
}

/// The length of a field of a number from 1 to 15, which is left out at 0.
fn number_len(number: u8, n: u64) -> usize
    requires { number < 16 }
    ensures len { result ≡ length (number_field number n) }
    ensures bound { result ≤ 11 }
{
    if n == 0 { 0 } else { 1 + varint_len(n) }
}

/// The length of a field of some bytes, whose number is from 1 to 15.
fn message_len(number: u8, len: usize) -> usize
    requires number { number < 16 }
    requires len { len < 2 ^ 33 }
    ensures len { (body : List ℕ) → length body ≡ len → result ≡ length (message_field number body) }
    ensures bound { result ≤ len + 11 }
{
    1 + varint_len(len as u64) + len
}

/// The length of a field of a text or bytes, which is left out where there are none.
fn bytes_len(number: u8, bytes: &[u8]) -> usize
    requires number { number < 16 }
    requires len { length bytes.now < 2 ^ 33 }
    ensures len { result ≡ length (bytes_field number bytes.now) }
    ensures bound { result ≤ length bytes.now + 11 }
{
    if bytes.len() == 0 {
        0
    } else {
        message_len(number, bytes.len())
    }
}

fn text_len(number: u8, text: &Text) -> usize
    requires number { number < 16 }
    requires len { length text.now < 2 ^ 33 }
    ensures len { result ≡ length (bytes_field number text.now) }
    ensures bound { result ≤ length text.now + 11 }
{
    bytes_len(number, text.as_str().as_bytes())
}

fn int64_len(number: u8, z: &i64) -> usize
    requires { number < 16 }
    ensures len { result ≡ length (int64_field number z.now) }
    ensures bound { result ≤ 11 }
{
    number_len(number, z.cast_unsigned())
}

/// The length of the payload's body.
pub fn body_len(packet: &Packet) -> usize
    requires { HasSpelling packet.now }
    ensures len { result ≡ length (body_of packet.now) }
    ensures bound { result < 2 ^ 33 }
{
    match packet {
        Packet::DialReq {
            protocol,
            address,
            random,
        } => text_len(1, protocol) + text_len(2, address) + int64_len(3, random),
        Packet::DialRsp {
            error,
            connect_id,
            random,
        } => text_len(1, error) + int64_len(2, connect_id) + int64_len(3, random),
        Packet::CloseReq { connect_id } => int64_len(1, connect_id),
        Packet::CloseRsp { error, connect_id } => text_len(1, error) + int64_len(2, connect_id),
        Packet::Data {
            connect_id,
            error,
            bytes,
        } => int64_len(1, connect_id) + text_len(2, error) + bytes_len(3, bytes.as_slice()),
        Packet::DialCls { random } => int64_len(1, random),
        Packet::Drain => 0,
        Packet::Other { .. } => 0,
    }
}

/// The number of the packet's type.
pub fn packet_type(packet: &Packet) -> u32
    ensures { result ≡ type_number packet.now }
{
    match packet {
        Packet::DialReq { .. } => 0,
        Packet::DialRsp { .. } => 1,
        Packet::CloseReq { .. } => 2,
        Packet::CloseRsp { .. } => 3,
        Packet::Data { .. } => 4,
        Packet::DialCls { .. } => 5,
        Packet::Drain => 6,
        Packet::Other { number } => *number,
    }
}

/// The number of the field of the packet's payload.
pub fn payload_field_number(packet: &Packet) -> Option<u8>
    ensures { result ≡ payload_number packet.now }
{
    match packet {
        Packet::DialReq { .. } => Some(2),
        Packet::DialRsp { .. } => Some(3),
        Packet::CloseReq { .. } => Some(5),
        Packet::CloseRsp { .. } => Some(6),
        Packet::Data { .. } => Some(4),
        Packet::DialCls { .. } => Some(7),
        Packet::Drain => Some(8),
        Packet::Other { .. } => None,
    }
}

/// Whether these lengths together are under 2^32.
fn are_short(one: usize, other: usize) -> bool
    ensures { IsTrue result ↔ (one + other < 2 ^ 32) }
{
    one < 1 << 32 && other < (1 << 32) - one
}

/// Whether the packet has a canonical spelling: its texts and bytes together are under 2^32 bytes, and an
/// `Other` is of no type that has a name.
pub fn is_encodable(packet: &Packet) -> bool
    ensures { IsTrue result ↔ HasSpelling packet.now }
{
    match packet {
        Packet::DialReq {
            protocol,
            address,
            ..
        } => are_short(protocol.len(), address.len()),
        Packet::DialRsp { error, .. } => are_short(error.len(), 0),
        Packet::CloseReq { .. } => true,
        Packet::CloseRsp { error, .. } => are_short(error.len(), 0),
        Packet::Data { error, bytes, .. } => are_short(error.len(), bytes.len()),
        Packet::DialCls { .. } => true,
        Packet::Drain => true,
        Packet::Other { number } => *number > 6,
    }
}

/// The length of the packet's canonical spelling.
pub fn encoded_len(packet: &Packet) -> usize
    requires { HasSpelling packet.now }
    ensures { result ≡ length (spelling packet.now) }
{
    let head = number_len(1, packet_type(packet) as u64);
    match payload_field_number(packet) {
        Some(number) => head + message_len(number, body_len(packet)),
        None => head,
    }
}
