ghost use Rattle.std.specs.Prelude.{◌≡◌, ◌&&◌, bytes_eq, codes};
ghost use Rattle.kn_h2_state.specs.Heads.{is_between, has_interim_status};

use kn_hpack::Headers;

/// A status from 100 to 199.
fn is_between(value: &[u8]) -> bool
    ensures { result ≡ is_between value.now }
{
    match value {
        [first, second, third] => *first == b'1'
            && second.is_ascii_digit()
            && third.is_ascii_digit(),
        _ => false,
    }
}

fn is_informational_status(name: &[u8], value: &[u8]) -> bool
    ensures { result ≡ (bytes_eq name.now (codes ":status") && is_between value.now) }
{
    name == b":status".as_slice() && is_between(value)
}

/// One of the fields is a status from 100 to 199.
pub fn has_interim_status(headers: &Headers) -> bool
    ensures { result ≡ has_interim_status headers.now }
{
    for index in 0..headers.len() {
        if is_informational_status(headers.name(index), headers.value(index)) {
            return true;
        }
    }
    false
}
