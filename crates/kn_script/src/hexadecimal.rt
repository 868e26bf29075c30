ghost use Rattle.std.specs.Prelude.{◌≡◌, ◌<◌, ◌++◌, IfOk, IfSome};
ghost use Rattle.kn_script.specs.Words.{hex_digit, hex_byte, bytes_of_hex};
ghost use Rattle.kn_script.specs.Script.{hex_bytes};
ghost use Rattle.kn_script.specs.Answers.{LineGives};

use crate::fault::{LineError, ScriptReason};
use kn_io::{Blob, NoMemory};
use std::alloc::Global;

fn hex_digit(byte: u8) -> Option<u8>
    ensures value { result ≡ hex_digit byte }
    ensures small { IfSome result (λ digit. digit < 16) }
{
    if b'0' <= byte && byte <= b'9' {
        Some(byte - b'0')
    } else if b'a' <= byte && byte <= b'f' {
        Some(byte - b'a' + 10)
    } else {
        None
    }
}

fn hex_byte(high: u8, low: u8) -> Option<u8>
    ensures { result ≡ hex_byte high low }
{
    match hex_digit(high) {
        None => None,
        Some(high) => {
            match hex_digit(low) {
                None => None,
                Some(low) => Some(high * 16 + low),
            }
        }
    }
}

/// The bytes that pairs of digits spell, if they do.
fn bytes_of_hex(alloc: Global, digits: &[u8]) -> Result<Option<Blob>, NoMemory>
    ensures { IfOk result (λ found. found ≡ bytes_of_hex digits.now) }
{
    let mut bytes = Blob::new(alloc);
    let mut rest = digits;
    while let [high, low, after @ ..] = rest {
        let Some(byte) = hex_byte(*high, *low) else {
            return Ok(None);
        };
        bytes.append(&[byte])?;
        rest = after;
    }
    if rest.is_empty() {
        Ok(Some(bytes))
    } else {
        Ok(None)
    }
}

/// The bytes of a word, which are at least one.
pub fn hex_bytes(alloc: Global, word: &str) -> Result<Blob, LineError>
    ensures { LineGives (hex_bytes word.now) result }
{
    if word.is_empty() {
        return Err(LineError::Fault(ScriptReason::Hex));
    }
    match bytes_of_hex(alloc, word.as_bytes()) {
        Err(_) => Err(LineError::NoMemory),
        Ok(None) => Err(LineError::Fault(ScriptReason::Hex)),
        Ok(Some(bytes)) => Ok(bytes),
    }
}
