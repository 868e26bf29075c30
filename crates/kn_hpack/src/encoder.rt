ghost use Rattle.std.specs.Prelude.{◌≡◌, ◌≤◌, ◌*◌, ◌+◌, ◌++◌, [], suc, true, false, IfOk, OnOk, OnErr, ◌∷◌, if◌then◌else◌};
ghost use Rattle.kn_hpack.specs.Fields.{pair};
ghost use Rattle.kn_hpack.specs.Encoding.{tail_of, integer_of, plain, field_text, block_of};

use crate::headers::Headers;
use crate::static_table::static_place;
use kn_io::{Blob, NoMemory};
use std::alloc::{AllocError, Global};
use std::marker::Model;

/// Continuation bytes, at most `left`.
#[tactic(auto, unfolding(crate::specs::Encoding::tail_of))]
fn push_tail(out: &mut Vec<u8>, number: usize, left: u8) -> Result<(), AllocError>
    ensures { OnOk result (out.new.items ≡ out.old.items ++ tail_of left number) }
{
    if left == 0 {
        return Ok(());
    }
    if number < 128 {
        out.push(number as u8)?;
        return Ok(());
    }
    out.push((number % 128 + 128) as u8)?;
    push_tail(out, number / 128, left - 1)?;
    Ok(())
}

/// A number behind a prefix whose largest value is `top`, and above it the pattern `kind`.
#[tactic(auto, unfolding(crate::specs::Encoding::integer_of))]
fn push_integer(out: &mut Vec<u8>, kind: u8, top: u8, number: usize) -> Result<(), AllocError>
    requires small { top ≤ 127 }
    requires byte { kind * suc top + top ≤ 255 }
    ensures { OnOk result (out.new.items ≡ out.old.items ++ integer_of kind top number) }
{
    let first = kind * (top + 1);
    if number < usize::from(top) {
        out.push(first + number as u8)?;
        return Ok(());
    }
    out.push(first + top)?;
    push_tail(out, number - usize::from(top), 10)?;
    Ok(())
}

/// A string that is not coded.
#[tactic(auto, unfolding(crate::specs::Encoding::plain))]
fn push_plain(out: &mut Vec<u8>, text: &[u8]) -> Result<(), AllocError>
    ensures { OnOk result (out.new.items ≡ out.old.items ++ plain text.now) }
{
    push_integer(out, 0, 127, text.len())?;
    out.extend_from_slice(text)?;
    Ok(())
}

/// A field: its index in the static table, or a literal without indexing.
#[tactic(auto, unfolding(crate::specs::Encoding::field_text))]
fn push_field(out: &mut Vec<u8>, name: &[u8], value: &[u8]) -> Result<(), AllocError>
    ensures { OnOk result (out.new.items ≡ out.old.items ++ field_text (pair name.now value.now)) }
{
    match static_place(name, value) {
        Some(place) => {
            push_integer(out, 1, 127, usize::from(place) + 1)?;
            Ok(())
        }
        None => {
            out.push(0)?;
            push_plain(out, name)?;
            push_plain(out, value)?;
            Ok(())
        }
    }
}

/// Writes the header blocks of one side of a connection. Contracts see it as whether it wrote one yet.
#[derive(Drop)]
pub struct Encoder {
    wrote: bool,
}

impl Model for Encoder {
    ghost use Rattle.std.specs.Prelude.{Bool};

    ghost Value = { Bool };

    ghost view = { λ e. e.wrote };
}

/// What stands before the fields: in the first block a dynamic table size update to 0.
fn start(alloc: Global, wrote: bool) -> Result<Vec<u8>, AllocError>
    ensures { IfOk result (λ v. v.items ≡ (if wrote then [] else 32 ∷ [])) }
{
    let mut out = Vec::new(alloc);
    if wrote {
        return Ok(out);
    }
    out.push(0x20)?;
    Ok(out)
}

/// The bytes of a block.
#[tactic(auto, unfolding(crate::specs::Encoding::block_of))]
fn write(alloc: Global, wrote: bool, headers: &Headers) -> Result<Vec<u8>, AllocError>
    ensures { IfOk result (λ v. v.items ≡ block_of wrote headers.now) }
{
    let mut out = start(alloc, wrote)?;
    for index in 0..headers.len() {
        push_field(&mut out, headers.name(index), headers.value(index))?;
    }
    Ok(out)
}

impl Encoder {
    pub fn new() -> Encoder
        ensures { result ≡ false }
    {
        Encoder { wrote: false }
    }

    /// The block that stands for the list. The first one begins with a dynamic table size update to 0. A
    /// field of the static table is written as its index, and each other as a literal without indexing, its
    /// name and its value as plain strings. An `Err` changes nothing.
    pub fn block(&mut self, alloc: Global, headers: &Headers) -> Result<Blob, NoMemory>
        ensures ok { IfOk result (λ b. b ≡ block_of self.old headers.now) }
        ensures wrote { OnOk result (self.new ≡ true) }
        ensures err { OnErr result (self.new ≡ self.old) }
    {
        let out = write(alloc, self.wrote, headers)?;
        let block = Blob::of(alloc, out.as_slice())?;
        self.wrote = true;
        Ok(block)
    }
}

#[cfg(test)]
mod tests {
    use super::*;
    use crate::decoder::Decoder;
    use std::test::Fail;

    #[test]
    fn two_blocks_and_their_lists(rt: HostRuntime) -> Result<(), Fail> {
        let alloc = rt.alloc();
        let mut headers = Headers::new(alloc);
        headers.add(alloc, b":method", b"GET")?;
        headers.add(alloc, b"a", b"b")?;
        headers.add(alloc, b":path", b"/x")?;
        let mut encoder = Encoder::new();
        let mut decoder = Decoder::new(alloc);
        let expected = [
            b"\x20\x82\x00\x01a\x01b\x00\x05:path\x02/x".as_slice(),
            b"\x82\x00\x01a\x01b\x00\x05:path\x02/x".as_slice(),
        ];
        for bytes in expected {
            let block = encoder.block(alloc, &headers)?;
            assert_eq!(rt; block.as_slice(), bytes);
            let list = decoder.block(alloc, block.as_slice())?;
            assert!(rt; !list.is_empty());
            assert_eq!(rt; list.len(), 3);
            assert_eq!(rt; list.name(0), b":method".as_slice());
            assert_eq!(rt; list.value(2), b"/x".as_slice());
        }
        Ok(())
    }
}
