ghost use Rattle.std.specs.Prelude.{◌≡◌, ◌==◌, [], ◌∷◌, ◌≤◌, nat_le, nat_lt, not, ◌&&◌, bytes_eq, codes, if◌then◌else◌};
ghost use Rattle.std.specs.List.{list_any};
ghost use Rattle.kn_hpack.specs.Fields.{pair};
ghost use Rattle.kn_h2_state.specs.Heads.{is_pseudo, is_bad_name, times, is_late, is_unknown, request_names, needed_names, response_names, is_malformed, is_malformed_request, is_malformed_response};

use kn_hpack::Headers;

/// A pseudo header: its name begins with a colon.
fn is_pseudo(name: &[u8]) -> bool
    ensures { result ≡ is_pseudo (pair name.now []) }
{
    match name.first() {
        Some(byte) => *byte == b':',
        None => false,
    }
}

/// A letter A to Z.
fn is_upper(byte: u8) -> bool
    ensures { result ≡ (nat_le 65 byte && nat_le byte 90) }
{
    byte.is_ascii_uppercase()
}

/// A name is empty or has a letter A to Z.
fn is_bad_name(name: &[u8]) -> bool
    ensures { result ≡ is_bad_name (pair name.now []) }
{
    name.is_empty() || has_upper(name)
}

fn has_upper(name: &[u8]) -> bool
    ensures { result ≡ list_any (λ c. nat_le 65 c && nat_le c 90) name.now }
{
    name.iter().any(|byte| is_upper(*byte))
}

/// Some name is empty or has a letter A to Z.
fn has_bad_name(headers: &Headers) -> bool
    ensures { result ≡ list_any is_bad_name headers.now }
{
    for index in 0..headers.len() {
        if is_bad_name(headers.name(index)) {
            return true;
        }
    }
    false
}

fn is_request_name(name: &[u8]) -> bool
    ensures { result ≡ list_any (bytes_eq name.now) request_names }
{
    name == b":method".as_slice()
        || name == b":scheme".as_slice()
        || name == b":path".as_slice()
        || name == b":authority".as_slice()
}

fn is_unknown_in_request(name: &[u8]) -> bool
    ensures { result ≡ is_unknown request_names (pair name.now []) }
{
    is_pseudo(name) && !is_request_name(name)
}

/// Some pseudo header is none of a request's.
fn has_unknown_in_request(headers: &Headers) -> bool
    ensures { result ≡ list_any (is_unknown request_names) headers.now }
{
    for index in 0..headers.len() {
        if is_unknown_in_request(headers.name(index)) {
            return true;
        }
    }
    false
}

fn is_unknown_in_response(name: &[u8]) -> bool
    ensures { result ≡ is_unknown response_names (pair name.now []) }
{
    is_pseudo(name) && name != b":status".as_slice()
}

/// Some pseudo header is none of a response's.
fn has_unknown_in_response(headers: &Headers) -> bool
    ensures { result ≡ list_any (is_unknown response_names) headers.now }
{
    for index in 0..headers.len() {
        if is_unknown_in_response(headers.name(index)) {
            return true;
        }
    }
    false
}

fn one_if(holds: bool) -> usize
    ensures value { result ≡ (if holds then 1 else 0) }
    ensures bound { result ≤ 1 }
{
    if holds { 1 } else { 0 }
}

/// How often a name stands in a head.
fn times(headers: &Headers, name: &[u8]) -> usize
    ensures { result ≡ times name.now headers.now }
{
    let mut count = 0;
    for index in 0..headers.len() {
        count += one_if(headers.name(index) == name);
    }
    count
}

/// A pseudo header comes after another header.
fn is_late(headers: &Headers) -> bool
    ensures { result ≡ is_late headers.now }
{
    let mut other = false;
    for index in 0..headers.len() {
        let pseudo = is_pseudo(headers.name(index));
        if other && pseudo {
            return true;
        }
        other = other | !pseudo;
    }
    false
}

/// Some pseudo header of a request comes twice.
fn repeats_in_request(headers: &Headers) -> bool
    ensures { result ≡ list_any (λ name. nat_lt 1 (times name headers.now)) request_names }
{
    times(headers, b":method") > 1
        || times(headers, b":scheme") > 1
        || times(headers, b":path") > 1
        || times(headers, b":authority") > 1
}

/// Some pseudo header that a request needs is missing.
fn lacks_in_request(headers: &Headers) -> bool
    ensures { result ≡ list_any (λ name. times name headers.now == 0) needed_names }
{
    times(headers, b":method") == 0
        || times(headers, b":scheme") == 0
        || times(headers, b":path") == 0
}

/// The head is no request's (RFC 9113, section 8.3.1).
#[tactic(auto, unfolding(kn_h2_state::specs::Heads::is_malformed_request, kn_h2_state::specs::Heads::is_malformed))]
pub fn is_malformed_request(headers: &Headers) -> bool
    ensures { result ≡ is_malformed_request headers.now }
{
    has_bad_name(headers)
        || has_unknown_in_request(headers)
        || repeats_in_request(headers)
        || lacks_in_request(headers)
        || is_late(headers)
}

/// The head is no response's (RFC 9113, section 8.3.2).
#[tactic(auto, unfolding(kn_h2_state::specs::Heads::is_malformed_response, kn_h2_state::specs::Heads::is_malformed))]
pub fn is_malformed_response(headers: &Headers) -> bool
    ensures { result ≡ is_malformed_response headers.now }
{
    has_bad_name(headers)
        || has_unknown_in_response(headers)
        || times(headers, b":status") > 1
        || times(headers, b":status") == 0
        || is_late(headers)
}
