//! What the server says of itself in the head of its answer.

ghost use Rattle.std.specs.Prelude.{◌≡◌, ◌≤◌, Some, IfSome};
ghost use Rattle.std.specs.Option.{option_map};
ghost use Rattle.kn_grpc.specs.Calls.{value_in};
ghost use Rattle.kn_agent_node.specs.Announced as spec;

use crate::node::Node;
use kn_hpack::Headers;
use std::str;

/// The value of the first field of this name, or nothing.
fn value_of<'a>(headers: &'a Headers, name: &[u8]) -> &'a [u8]
    ensures { result.now ≡ value_in name.now headers.now }
{
    for index in 0..headers.len() {
        if headers.name(index) == name {
            return headers.value(index);
        }
    }
    b"".as_slice()
}

/// The bytes as a text, or none.
fn text_or_none(bytes: &[u8]) -> &str
    ensures { result.now ≡ spec.text_or_none bytes.now }
{
    match str::from_utf8(bytes) {
        Ok(text) => text,
        Err(_error) => "",
    }
}

/// The server's id, once the head of its answer came.
pub fn server_id(node: &Node) -> Option<&str>
    ensures { option_map (λ text. text.now) result ≡ spec.server_id_in node.now.answer }
{
    match &node.answer {
        Some(headers) => Some(text_or_none(value_of(headers, b"serverid"))),
        None => None,
    }
}

/// One digit more, of a number up to 100.
fn with_digit(byte: u8, number: u32) -> Option<u32>
    requires { number ≤ 100 }
    ensures number { result ≡ spec.with_digit byte number }
    ensures small { IfSome result (λ n. n ≤ 100) }
{
    if 48 <= byte && byte <= 57 {
        let next = number * 10 + (byte - 48) as u32;
        if next > 100 { None } else { Some(next) }
    } else {
        None
    }
}

/// The number that digits spell, up to 100.
fn number_in(bytes: &[u8]) -> Option<u32>
    ensures { result ≡ spec.number_from (Some 0) bytes.now }
{
    let mut number = 0u32;
    for byte in bytes {
        match with_digit(*byte, number) {
            Some(next) => number = next,
            None => return None,
        }
    }
    Some(number)
}

fn count_or_one(number: Option<u32>) -> u32
    ensures { result ≡ spec.count_or_one number }
{
    match number {
        Some(number) => { if number > 0 { number } else { 1 } }
        None => 1,
    }
}

/// How many servers there are, or 1 where the server does not say it.
pub fn server_count(node: &Node) -> u32
    ensures { result ≡ spec.server_count_in node.now.answer }
{
    match &node.answer {
        Some(headers) => count_or_one(number_in(value_of(headers, b"servercount"))),
        None => 1,
    }
}
