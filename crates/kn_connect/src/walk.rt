//! A walk through a request's head (RFC 9112, sections 2.2, 3 and 5), one byte after the other.
ghost use Rattle.std.specs.Prelude.{◌≡◌, ℕ, ◌+◌, ◌<◌, ◌≤◌, List, [], ◌∷◌, ◌++◌, length, take, drop};
ghost use Rattle.kn_connect.specs.Places.{version_front, IsInEmpty, IsInMethod, IsInTarget, IsAfterTarget, IsAfterVersion, IsAfterLines, IsInName, IsInValue, half_end, EndsAt, Reaches};

use crate::bytes::{is_in_target, is_in_value, is_target, is_token};

const VERSION_FRONT: &[u8; 7] = b"HTTP/1.";

/// Where in a request's head bytes end. `half` is set after the CR of a line end.
#[derive(Clone, Copy)]
pub enum Place {
    /// In the empty lines before the method.
    Empty { half: bool },
    Method,
    /// In the target, which begins at this offset.
    Target { start: usize },
    /// After so many bytes of `HTTP/1.`.
    Version { count: usize },
    /// After the version.
    LineEnd { half: bool },
    /// At the beginning of a field line, or of the empty line that ends the head.
    Line { half: bool },
    /// In the name of a field.
    Name,
    /// After the colon of a field line.
    Value { half: bool },
}

fn in_empty(half: bool, byte: u8) -> Option<Place>
    ensures { (s : List ℕ) → IsInEmpty s half → Reaches (s ++ byte ∷ []) result }
{
    if byte == b'\n' {
        return Some(Place::Empty { half: false });
    }
    if half {
        return None;
    }
    if byte == b'\r' {
        return Some(Place::Empty { half: true });
    }
    if is_token(byte) {
        return Some(Place::Method);
    }
    None
}

fn in_method(before: &[u8], byte: u8) -> Option<Place>
    requires { IsInMethod before.now }
    ensures { Reaches (before.now ++ byte ∷ []) result }
{
    if is_token(byte) {
        return Some(Place::Method);
    }
    if byte == b' ' {
        return Some(Place::Target {
            start: before.len() + 1,
        });
    }
    None
}

/// A target is tested for UTF-8 where it ends.
fn in_target(before: &[u8], start: usize, byte: u8) -> Option<Place>
    requires within { start ≤ length before.now }
    requires place { IsInTarget before.now (drop start before.now) }
    ensures { Reaches (before.now ++ byte ∷ []) result }
{
    if is_in_target(byte) {
        return Some(Place::Target { start });
    }
    if byte != b' ' {
        return None;
    }
    if is_target(&before[start..]) {
        return Some(Place::Version { count: 0 });
    }
    None
}

fn in_version(count: usize, byte: u8) -> Option<Place>
    requires { count ≤ 7 }
    ensures { (s : List ℕ) → IsAfterTarget s (take count version_front) → Reaches (s ++ byte ∷ []) result }
{
    if count < 7 {
        if byte == VERSION_FRONT[count] {
            return Some(Place::Version { count: count + 1 });
        }
        return None;
    }
    if byte == b'0' || byte == b'1' {
        return Some(Place::LineEnd { half: false });
    }
    None
}

fn after_version(half: bool, byte: u8) -> Option<Place>
    ensures { (s : List ℕ) → IsAfterVersion s half → Reaches (s ++ byte ∷ []) result }
{
    if byte == b'\n' {
        return Some(Place::Line { half: false });
    }
    if half {
        return None;
    }
    if byte == b'\r' {
        return Some(Place::LineEnd { half: true });
    }
    None
}

fn after_lines(half: bool, byte: u8) -> Option<Place>
    ensures { (s : List ℕ) → IsAfterLines s (half_end half) → Reaches (s ++ byte ∷ []) result }
{
    if half {
        return None;
    }
    if is_token(byte) {
        return Some(Place::Name);
    }
    if byte == b'\r' {
        return Some(Place::Line { half: true });
    }
    None
}

fn in_name(byte: u8) -> Option<Place>
    ensures { (s : List ℕ) → IsInName s → Reaches (s ++ byte ∷ []) result }
{
    if is_token(byte) {
        return Some(Place::Name);
    }
    if byte == b':' {
        return Some(Place::Value { half: false });
    }
    None
}

fn in_value(half: bool, byte: u8) -> Option<Place>
    ensures { (s : List ℕ) → IsInValue s half → Reaches (s ++ byte ∷ []) result }
{
    if byte == b'\n' {
        return Some(Place::Line { half: false });
    }
    if half {
        return None;
    }
    if byte == b'\r' {
        return Some(Place::Value { half: true });
    }
    if is_in_value(byte) {
        return Some(Place::Value { half: false });
    }
    None
}

/// The place one byte further. `None` where the head is whole with the byte, or cannot go on with it.
fn step(before: &[u8], place: Place, byte: u8) -> Option<Place>
    requires { EndsAt before.now place }
    ensures { Reaches (before.now ++ byte ∷ []) result }
{
    match place {
        Place::Empty { half } => in_empty(half, byte),
        Place::Method => in_method(before, byte),
        Place::Target { start } => in_target(before, start, byte),
        Place::Version { count } => in_version(count, byte),
        Place::LineEnd { half } => after_version(half, byte),
        Place::Line { half } => after_lines(half, byte),
        Place::Name => in_name(byte),
        Place::Value { half } => in_value(half, byte),
    }
}

/// The place where the bytes end, from the place where the first `from` of them do. `None` where the head
/// is whole, or never will be.
pub fn walk(bytes: &[u8], from: usize, place: Place) -> Option<Place>
    requires within { from ≤ length bytes.now }
    requires place { EndsAt (take from bytes.now) place }
    ensures { Reaches bytes.now result }
{
    let mut reached = place;
    for at in from..bytes.len() {
        match step(&bytes[..at], reached, bytes[at]) {
            Some(next) => reached = next,
            None => return None,
        }
    }
    Some(reached)
}
