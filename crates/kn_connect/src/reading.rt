//! A head that may be whole, read by `httparse`.
ghost use Rattle.std.specs.Prelude.{◌≡◌, ◌*◌, ◌≤◌, length, IsUtf8, IfOk};
ghost use Rattle.kn_connect.specs.Heads.{IsDecided};
ghost use Rattle.kn_connect.specs.Readings.{IsSpelled, Reads};

use httparse::spans::{EMPTY_HEADER_SPAN, HeaderSpan, RequestSpans, parse_request};
use httparse::{Error, Status};
use kn_io::{NoMemory, Text};
use std::alloc::Global;

/// What bytes are.
#[derive(Drop)]
pub enum Reading {
    /// They begin with the head of a CONNECT request, of this length.
    Connect { target: Text, len: usize },
    /// They begin with the head of a request of another method.
    Other,
    /// No bytes could follow that make them begin with a head.
    Never,
}

/// Reads bytes that either begin with a whole head or never will.
pub fn read(alloc: Global, bytes: &[u8]) -> Result<Reading, NoMemory>
    requires { IsDecided bytes.now }
    ensures { IfOk result (λ reading. Reads bytes.now reading) }
{
    let mut fields = field_room(alloc, bytes)?;
    match parse_request(bytes, &mut fields) {
        Ok(Status::Complete(head)) => whole(alloc, bytes, head),
        Ok(Status::Partial) => unreachable!("the bytes are decided"),
        Err(Error::TooManyHeaders) => unreachable!("there is room for all field lines"),
        Err(_error) => Ok(Reading::Never),
    }
}

/// Room for all field lines, of which each takes three bytes at least: 2,731 for 8,192 bytes.
fn field_room(alloc: Global, bytes: &[u8]) -> Result<Vec<HeaderSpan>, NoMemory>
    ensures { IfOk result (λ room. length bytes.now ≤ 3 * length room.items) }
{
    Ok(vec![in alloc; EMPTY_HEADER_SPAN; bytes.len() / 3 + 1]?)
}

fn whole(alloc: Global, bytes: &[u8], head: RequestSpans) -> Result<Reading, NoMemory>
    requires { IsSpelled bytes.now head }
    ensures { IfOk result (λ reading. Reads bytes.now reading) }
{
    if head.method.of(bytes) != b"CONNECT".as_slice() {
        return Ok(Reading::Other);
    }
    let target = Text::of(alloc, text_of(head.path.of(bytes)))?;
    Ok(Reading::Connect {
        target,
        len: head.len,
    })
}

fn text_of(bytes: &[u8]) -> &str
    requires { IsUtf8 bytes.now }
    ensures { result.now ≡ bytes.now }
{
    match std::str::from_utf8(bytes) {
        Ok(text) => text,
        Err(_error) => unreachable!("it is UTF-8"),
    }
}
