ghost use Rattle.std.specs.Prelude.{◌≡◌, ◌<◌, ◌++◌, OnOk, false};
ghost use Rattle.std.specs.Option.{option_copied};
ghost use Rattle.std.specs.Fmt.{digit_glyph};
ghost use Rattle.kn_frames.specs.Lines.{known_name, name_of, hex_byte, labelled, line, lines};

use crate::Frame;
use itoa::Buffer;
use kn_io::{Blob, NoMemory};

/// The name of a type (RFC 9113, section 6).
#[tactic(auto, unfolding(crate::specs::Lines::known_name))]
fn known_name(kind: u8) -> Option<&'static str>
    ensures { option_copied result ≡ known_name kind }
{
    match kind {
        0 => Some("DATA"),
        1 => Some("HEADERS"),
        2 => Some("PRIORITY"),
        3 => Some("RST_STREAM"),
        4 => Some("SETTINGS"),
        5 => Some("PUSH_PROMISE"),
        6 => Some("PING"),
        7 => Some("GOAWAY"),
        8 => Some("WINDOW_UPDATE"),
        9 => Some("CONTINUATION"),
        _ => None,
    }
}

/// Writes the name of a type, or `TYPE` and its number.
#[tactic(auto, unfolding(crate::specs::Lines::name_of, crate::specs::Lines::labelled))]
fn push_name(out: &mut Blob, kind: u8) -> Result<(), NoMemory>
    ensures { OnOk result (out.new ≡ out.old ++ name_of kind) }
{
    match known_name(kind) {
        Some(name) => out.append(name.as_bytes()),
        None => push_labelled(out, b"TYPE", kind as u64),
    }
}

fn hex_digit(digit: u8) -> u8
    requires { digit < 16 }
    ensures { result ≡ digit_glyph false digit }
{
    if digit < 10 {
        b'0' + digit
    } else {
        b'a' + (digit - 10)
    }
}

/// Writes a byte as two hexadecimal digits.
#[tactic(auto, unfolding(crate::specs::Lines::hex_byte))]
fn push_hex(out: &mut Blob, byte: u8) -> Result<(), NoMemory>
    ensures { OnOk result (out.new ≡ out.old ++ hex_byte byte) }
{
    out.append(&[hex_digit(byte / 16), hex_digit(byte % 16)])
}

/// Writes a label and a number.
#[tactic(auto, unfolding(crate::specs::Lines::labelled))]
fn push_labelled(out: &mut Blob, label: &[u8], number: u64) -> Result<(), NoMemory>
    ensures { OnOk result (out.new ≡ out.old ++ labelled label.now number) }
{
    let mut buffer = Buffer::new();
    out.append(label)?;
    out.append(buffer.format(number).as_bytes())
}

/// Writes the line of a frame that stands at this offset.
#[tactic(auto, unfolding(crate::specs::Lines::line))]
fn push_line(out: &mut Blob, offset: u64, frame: &Frame) -> Result<(), NoMemory>
    ensures { OnOk result (out.new ≡ out.old ++ line offset frame.now) }
{
    push_labelled(out, b"", offset)?;
    out.append(b" ")?;
    push_name(out, frame.kind)?;
    out.append(b" flags=")?;
    push_hex(out, frame.flags)?;
    push_labelled(out, b" stream=", frame.stream as u64)?;
    push_labelled(out, b" length=", frame.payload.len() as u64)?;
    out.append(b"\n")
}

/// Writes a line for each frame, the first of which stands at this offset.
pub fn push_lines(out: &mut Blob, start: u64, frames: &[Frame]) -> Result<(), NoMemory>
    ensures { OnOk result (out.new ≡ out.old ++ lines start frames.now) }
{
    let mut offset = start;
    for frame in frames {
        push_line(out, offset, frame)?;
        offset = offset
            .saturating_add(9)
            .saturating_add(frame.payload.len() as u64);
    }
    Ok(())
}
