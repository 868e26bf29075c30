ghost use Rattle.std.specs.Prelude.{◌≡◌, ◌<◌, ◌++◌, OnOk, IfOk, string_bytes};
ghost use Rattle.kn_packet.specs.Lines.{hex_digit, hex_pair, escape, is_escaped, escaped, hex_of, labelled_text, labelled_number, labelled_hex, labelled_type, line_of};
ghost use Rattle.kn_packet.specs.Messages.{message};

use crate::packet_ref::PacketRef;
use kn_io::{NoMemory, Text};
use std::alloc::Global;

fn digit(d: u8) -> char
    requires { d < 16 }
    ensures value { result ≡ hex_digit d }
    ensures ascii { result < 128 }
{
    if d < 10 {
        (48 + d) as char
    } else {
        (87 + d) as char
    }
}

/// Adds a byte as two hexadecimal digits.
fn push_hex(out: &mut String, byte: u8) -> Result<(), NoMemory>
    ensures { OnOk result (string_bytes out.new ≡ string_bytes out.old ++ hex_pair byte) }
{
    out.push(digit(byte / 16))?;
    out.push(digit(byte % 16))?;
    Ok(())
}

fn must_escape(byte: u8) -> bool
    ensures { result ≡ is_escaped byte }
{
    byte < 32 || byte > 126 || byte == 92
}

/// Adds a byte of a text.
fn push_byte(out: &mut String, byte: u8) -> Result<(), NoMemory>
    ensures { OnOk result (string_bytes out.new ≡ string_bytes out.old ++ escape byte) }
{
    if must_escape(byte) {
        out.push_str("\\x")?;
        push_hex(out, byte)?;
        Ok(())
    } else {
        out.push(byte as char)?;
        Ok(())
    }
}

#[tactic(auto, unfolding(crate::specs::Lines::escaped))]
fn push_escaped(out: &mut String, text: &[u8]) -> Result<(), NoMemory>
    ensures { OnOk result (string_bytes out.new ≡ string_bytes out.old ++ escaped text.now) }
{
    for byte in text {
        push_byte(out, *byte)?;
    }
    Ok(())
}

#[tactic(auto, unfolding(crate::specs::Lines::hex_of))]
fn push_hexes(out: &mut String, bytes: &[u8]) -> Result<(), NoMemory>
    ensures { OnOk result (string_bytes out.new ≡ string_bytes out.old ++ hex_of bytes.now) }
{
    for byte in bytes {
        push_hex(out, *byte)?;
    }
    Ok(())
}

#[tactic(auto, unfolding(crate::specs::Lines::labelled_text))]
fn push_text(out: &mut String, label: &str, text: &str) -> Result<(), NoMemory>
    ensures { OnOk result (string_bytes out.new ≡ string_bytes out.old ++ labelled_text label.now text.now) }
{
    out.push_str(label)?;
    push_escaped(out, text.as_bytes())?;
    Ok(())
}

#[tactic(auto, unfolding(crate::specs::Lines::labelled_hex))]
fn push_bytes(out: &mut String, label: &str, bytes: &[u8]) -> Result<(), NoMemory>
    ensures { OnOk result (string_bytes out.new ≡ string_bytes out.old ++ labelled_hex label.now bytes.now) }
{
    out.push_str(label)?;
    push_hexes(out, bytes)?;
    Ok(())
}

#[tactic(auto, unfolding(crate::specs::Lines::labelled_number))]
fn push_number(alloc: Global, out: &mut String, label: &str, n: &i64) -> Result<(), NoMemory>
    ensures { OnOk result (string_bytes out.new ≡ string_bytes out.old ++ labelled_number label.now n.now) }
{
    let digits = n.to_string(alloc)?;
    out.push_str(label)?;
    out.push_str(digits.as_str())?;
    Ok(())
}

#[tactic(auto, unfolding(crate::specs::Lines::labelled_type))]
fn push_type(alloc: Global, out: &mut String, label: &str, n: &u32) -> Result<(), NoMemory>
    ensures { OnOk result (string_bytes out.new ≡ string_bytes out.old ++ labelled_type label.now n.now) }
{
    let digits = n.to_string(alloc)?;
    out.push_str(label)?;
    out.push_str(digits.as_str())?;
    Ok(())
}

/// Adds the packet's line.
fn push_line(alloc: Global, out: &mut String, packet: &PacketRef<'_>) -> Result<(), NoMemory>
    ensures { OnOk result (string_bytes out.new ≡ string_bytes out.old ++ line_of (message packet.now)) }
{
    match packet {
        PacketRef::DialReq {
            protocol,
            address,
            random,
        } => {
            push_text(out, "DIAL_REQ protocol=", *protocol)?;
            push_text(out, " address=", *address)?;
            push_number(alloc, out, " random=", random)?;
            Ok(())
        }
        PacketRef::DialRsp {
            error,
            connect_id,
            random,
        } => {
            push_text(out, "DIAL_RSP error=", *error)?;
            push_number(alloc, out, " connectID=", connect_id)?;
            push_number(alloc, out, " random=", random)?;
            Ok(())
        }
        PacketRef::CloseReq { connect_id } => {
            push_number(alloc, out, "CLOSE_REQ connectID=", connect_id)?;
            Ok(())
        }
        PacketRef::CloseRsp { error, connect_id } => {
            push_text(out, "CLOSE_RSP error=", *error)?;
            push_number(alloc, out, " connectID=", connect_id)?;
            Ok(())
        }
        PacketRef::Data {
            connect_id,
            error,
            bytes,
        } => {
            push_number(alloc, out, "DATA connectID=", connect_id)?;
            push_text(out, " error=", *error)?;
            push_bytes(out, " data=", *bytes)?;
            Ok(())
        }
        PacketRef::DialCls { random } => {
            push_number(alloc, out, "DIAL_CLS random=", random)?;
            Ok(())
        }
        PacketRef::Drain => {
            out.push_str("DRAIN")?;
            Ok(())
        }
        PacketRef::Other { number } => {
            push_type(alloc, out, "OTHER type=", number)?;
            Ok(())
        }
    }
}

/// The packet's line, without a line feed: its type, and its fields by name. In texts each byte that is
/// not printable ASCII, and each backslash, is `\x` and two hexadecimal digits.
pub fn show(alloc: Global, packet: &PacketRef<'_>) -> Result<Text, NoMemory>
    ensures { IfOk result (λ text. text ≡ line_of (message packet.now)) }
{
    let mut line = String::new(alloc);
    push_line(alloc, &mut line, packet)?;
    Text::of(alloc, line.as_str())
}
