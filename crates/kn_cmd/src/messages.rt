ghost use Rattle.std.specs.Prelude.{◌≡◌, IfOk};
ghost use Rattle.kn_cmd.specs.Messages.{line_message, offset_message, place_message};

use kn_io::{Blob, NoMemory};
use std::alloc::Global;

/// `kn: line N: REASON` and a line feed.
pub(crate) fn line_fault(alloc: Global, line: u64, reason: &str) -> Result<Blob, NoMemory>
    ensures { IfOk result (λ text. text ≡ line_message line reason.now) }
{
    place_fault(alloc, b"kn: line ", line, reason)
}

/// `kn: offset N: REASON` and a line feed.
pub(crate) fn offset_fault(alloc: Global, offset: u64, reason: &str) -> Result<Blob, NoMemory>
    ensures { IfOk result (λ text. text ≡ offset_message offset reason.now) }
{
    place_fault(alloc, b"kn: offset ", offset, reason)
}

fn place_fault(alloc: Global, label: &[u8], number: u64, reason: &str) -> Result<Blob, NoMemory>
    ensures { IfOk result (λ text. text ≡ place_message label.now number reason.now) }
{
    let mut text = Blob::of(alloc, label)?;
    text.append(number.to_string(alloc)?.as_bytes())?;
    text.append(b": ")?;
    text.append(reason.as_bytes())?;
    text.append(b"\n")?;
    Ok(text)
}
