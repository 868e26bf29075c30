ghost use Rattle.std.specs.Prelude.{◌≡◌, ◌≤◌, ◌<◌, ◌+◌, ◌*◌, ◌^◌, ◌++◌, take, length};
ghost use Rattle.kn_packet.specs.Spelling.{shortest, varint_of, tag, number_field, int64_field, message_field, bytes_field, body_of, payload_of, spelling, HasSpelling};

use crate::length::{body_len, packet_type, payload_field_number};
use crate::packet::Packet;
use kn_io::Text;

/// Writes the shortest varint that may have so many bytes after its first, and gives the place behind it.
#[tactic(auto, unfolding(crate::specs::Spelling::shortest))]
fn put_varint_within(room: &mut [u8], at: usize, more: u8, n: u64) -> usize
    requires more { more ≤ 9 }
    requires n { n < 2 * 128 ^ more }
    requires room { at + length (shortest more n) ≤ length room.old }
    ensures end { result ≡ at + length (shortest more n) }
    ensures written { take result room.new ≡ take at room.old ++ shortest more n }
{
    if more == 0 {
        room[at] = n as u8;
        return at + 1;
    }
    if n < 128 {
        room[at] = n as u8;
        return at + 1;
    }
    room[at] = (n % 128 + 128) as u8;
    put_varint_within(room, at + 1, more - 1, n / 128)
}

fn put_varint(room: &mut [u8], at: usize, n: u64) -> usize
    requires { at + length (varint_of n) ≤ length room.old }
    ensures end { result ≡ at + length (varint_of n) }
    ensures written { take result room.new ≡ take at room.old ++ varint_of n }
{
    put_varint_within(room, at, 9, n)
}

fn put_bytes(room: &mut [u8], at: usize, bytes: &[u8]) -> usize
    requires { at + length bytes.now ≤ length room.old }
    ensures end { result ≡ at + length bytes.now }
    ensures written { take result room.new ≡ take at room.old ++ bytes.now }
{
    let end = at + bytes.len();
    room[at..end].copy_from_slice(bytes);
    end
}

/// Writes the tag of a field of a number from 1 to 15.
fn put_tag(room: &mut [u8], at: usize, number: u8, wire: u8) -> usize
    requires number { number < 16 }
    requires wire { wire < 8 }
    requires room { at + length (tag number wire) ≤ length room.old }
    ensures end { result ≡ at + length (tag number wire) }
    ensures written { take result room.new ≡ take at room.old ++ tag number wire }
{
    put_varint(room, at, (number * 8 + wire) as u64)
}

/// Writes a field of a number, which is left out at 0.
fn put_number(room: &mut [u8], at: usize, number: u8, n: u64) -> usize
    requires number { number < 16 }
    requires room { at + length (number_field number n) ≤ length room.old }
    ensures end { result ≡ at + length (number_field number n) }
    ensures written { take result room.new ≡ take at room.old ++ number_field number n }
{
    if n == 0 {
        return at;
    }
    let after = put_tag(room, at, number, 0);
    put_varint(room, after, n)
}

fn put_int64(room: &mut [u8], at: usize, number: u8, z: &i64) -> usize
    requires number { number < 16 }
    requires room { at + length (int64_field number z.now) ≤ length room.old }
    ensures end { result ≡ at + length (int64_field number z.now) }
    ensures written { take result room.new ≡ take at room.old ++ int64_field number z.now }
{
    put_number(room, at, number, z.cast_unsigned())
}

/// Writes a field of bytes, which is left out where there are none.
fn put_bytes_field(room: &mut [u8], at: usize, number: u8, bytes: &[u8]) -> usize
    requires number { number < 16 }
    requires room { at + length (bytes_field number bytes.now) ≤ length room.old }
    ensures end { result ≡ at + length (bytes_field number bytes.now) }
    ensures written { take result room.new ≡ take at room.old ++ bytes_field number bytes.now }
{
    if bytes.len() == 0 {
        return at;
    }
    let tagged = put_tag(room, at, number, 2);
    let head = put_varint(room, tagged, bytes.len() as u64);
    put_bytes(room, head, bytes)
}

fn put_text(room: &mut [u8], at: usize, number: u8, text: &Text) -> usize
    requires number { number < 16 }
    requires room { at + length (bytes_field number text.now) ≤ length room.old }
    ensures end { result ≡ at + length (bytes_field number text.now) }
    ensures written { take result room.new ≡ take at room.old ++ bytes_field number text.now }
{
    put_bytes_field(room, at, number, text.as_str().as_bytes())
}

/// Writes the payload's body.
fn put_body(room: &mut [u8], at: usize, packet: &Packet) -> usize
    requires { at + length (body_of packet.now) ≤ length room.old }
    ensures end { result ≡ at + length (body_of packet.now) }
    ensures written { take result room.new ≡ take at room.old ++ body_of packet.now }
{
    match packet {
        Packet::DialReq {
            protocol,
            address,
            random,
        } => {
            let one = put_text(room, at, 1, protocol);
            let two = put_text(room, one, 2, address);
            put_int64(room, two, 3, random)
        }
        Packet::DialRsp {
            error,
            connect_id,
            random,
        } => {
            let one = put_text(room, at, 1, error);
            let two = put_int64(room, one, 2, connect_id);
            put_int64(room, two, 3, random)
        }
        Packet::CloseReq { connect_id } => put_int64(room, at, 1, connect_id),
        Packet::CloseRsp { error, connect_id } => {
            let one = put_text(room, at, 1, error);
            put_int64(room, one, 2, connect_id)
        }
        Packet::Data {
            connect_id,
            error,
            bytes,
        } => {
            let one = put_int64(room, at, 1, connect_id);
            let two = put_text(room, one, 2, error);
            put_bytes_field(room, two, 3, bytes.as_slice())
        }
        Packet::DialCls { random } => put_int64(room, at, 1, random),
        Packet::Drain => at,
        Packet::Other { .. } => at,
    }
}

/// Writes the payload behind its tag and its length, or nothing where the packet has none.
fn put_payload(room: &mut [u8], at: usize, packet: &Packet) -> usize
    requires spelled { HasSpelling packet.now }
    requires room { at + length (payload_of packet.now) ≤ length room.old }
    ensures end { result ≡ at + length (payload_of packet.now) }
    ensures written { take result room.new ≡ take at room.old ++ payload_of packet.now }
{
    match payload_field_number(packet) {
        None => at,
        Some(number) => {
            let tagged = put_tag(room, at, number, 2);
            let head = put_varint(room, tagged, body_len(packet) as u64);
            put_body(room, head, packet)
        }
    }
}

/// Writes the packet's canonical spelling, by the Protocol Buffers encoding and client.proto: fields by
/// rising number, shortest varints, scalars at their default left out, the payload always there.
pub fn encode_into(packet: &Packet, room: &mut [u8])
    requires spelled { HasSpelling packet.now }
    requires room { length room.old ≡ length (spelling packet.now) }
    ensures { room.new ≡ spelling packet.now }
{
    let head = put_number(room, 0, 1, packet_type(packet) as u64);
    let _end = put_payload(room, head, packet);
}
