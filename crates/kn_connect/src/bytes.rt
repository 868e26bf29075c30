//! The classes of bytes in a request's head (RFC 9110, section 5.6.2; RFC 9112, sections 3 and 5).
ghost use Rattle.std.specs.Prelude.{◌≡◌, ◌<◌, ◌↔◌, length, IsTrue, IsUtf8};
ghost use Rattle.httparse.specs.Grammar.{is_token_byte, is_uri_byte, is_value_byte};

/// Whether the byte may stand in a method or in the name of a field.
#[tactic(auto, unfolding(httparse::specs::Grammar::is_token_byte))]
pub fn is_token(byte: u8) -> bool
    ensures { result ≡ is_token_byte byte }
{
    byte.is_ascii_alphanumeric() || b"!#$%&'*+-.^_`|~".contains(&byte)
}

/// Whether the byte may stand in a request target: it is visible, or no ASCII.
pub fn is_in_target(byte: u8) -> bool
    ensures { result ≡ is_uri_byte byte }
{
    byte > b' ' && byte != 0x7f
}

/// Whether the byte may stand in the value of a field: it is visible, white space, or no ASCII.
pub fn is_in_value(byte: u8) -> bool
    ensures { result ≡ is_value_byte byte }
{
    byte == b'\t' || (byte >= b' ' && byte != 0x7f)
}

/// Whether the bytes are a whole request target: UTF-8, and at least one byte.
pub fn is_target(bytes: &[u8]) -> bool
    ensures { IsTrue result ↔ ((0 < length bytes.now) × IsUtf8 bytes.now) }
{
    !bytes.is_empty() && std::str::from_utf8(bytes).is_ok()
}
