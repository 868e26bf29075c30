//! Header blocks as frames (RFC 9113, section 4.3).

ghost use Rattle.std.specs.Prelude.{◌≡◌, ◌<◌, ◌+◌, ◌^◌, ◌++◌, ℕ, length, true, false, IfOk, OnOk};
ghost use Rattle.kn_hpack.specs.Encoding.{block_of};
ghost use Rattle.kn_h2_state.specs.Outgoing.{put};
ghost use Rattle.kn_frames.specs.Frames.{spelled};
ghost use Rattle.kn_h2_state.specs.Moves.{more_headers, headers_frames};

use kn_frames::write_head;
use kn_h2_state::{ByteQueue, FRAME_LIMIT, Outgoing};
use kn_hpack::{Encoder, Headers};
use kn_io::NoMemory;
use std::alloc::Global;

fn push_frame(
    out: &mut ByteQueue,
    kind: u8,
    flags: u8,
    stream: u32,
    payload: &[u8],
) -> Result<(), NoMemory>
    requires length_fits { length payload.now < 2 ^ 24 }
    requires stream_fits { stream < 2 ^ 31 }
    ensures { OnOk result (out.new ≡ out.old ++ spelled kind flags stream payload.now) }
{
    let mut room = [0; 9];
    write_head(kind, flags, stream, payload.len() as u32, &mut room);
    out.append(&room)?;
    out.append(payload)
}

/// The rest of a long block, in CONTINUATION frames.
fn push_more(out: &mut ByteQueue, stream: u32, rest: &[u8]) -> Result<(), NoMemory>
    requires { stream < 2 ^ 31 }
    ensures { (fuel : ℕ) → length rest.now < fuel → OnOk result (out.new ≡ out.old ++ more_headers fuel stream rest.now) }
{
    if rest.len() <= FRAME_LIMIT {
        return push_frame(out, 9, 4, stream, rest);
    }
    push_frame(out, 9, 0, stream, &rest[..FRAME_LIMIT])?;
    push_more(out, stream, &rest[FRAME_LIMIT..])
}

fn push_headers(out: &mut ByteQueue, stream: u32, flags: u8, block: &[u8]) -> Result<(), NoMemory>
    requires stream_fits { stream < 2 ^ 31 }
    requires flags_fit { flags + 4 < 2 ^ 8 }
    ensures { OnOk result (out.new ≡ out.old ++ headers_frames stream flags block.now) }
{
    if block.len() <= FRAME_LIMIT {
        return push_frame(out, 1, flags + 4, stream, block);
    }
    push_frame(out, 1, flags, stream, &block[..FRAME_LIMIT])?;
    push_more(out, stream, &block[FRAME_LIMIT..])
}

/// A block as HEADERS, and CONTINUATION where it is long; END_HEADERS is on the last frame.
pub fn headers_frames(
    alloc: Global,
    stream: u32,
    flags: u8,
    block: &[u8],
) -> Result<ByteQueue, NoMemory>
    requires stream_fits { stream < 2 ^ 31 }
    requires flags_fit { flags + 4 < 2 ^ 8 }
    ensures { IfOk result (λ frames. frames ≡ headers_frames stream flags block.now) }
{
    let mut frames = ByteQueue::new(alloc);
    push_headers(&mut frames, stream, flags, block)?;
    Ok(frames)
}

/// Fields as a header block, at the end of what waits for the socket.
pub fn write_fields(
    encoder: &mut Encoder,
    out: &mut Outgoing,
    alloc: Global,
    stream: u32,
    flags: u8,
    fields: &Headers,
) -> Result<(), NoMemory>
    requires stream_fits { stream < 2 ^ 31 }
    requires flags_fit { flags + 4 < 2 ^ 8 }
    ensures out { OnOk result (out.new ≡ put out.old false (headers_frames stream flags (block_of encoder.old fields.now))) }
    ensures wrote { OnOk result (encoder.new ≡ true) }
{
    let block = encoder.block(alloc, fields)?;
    let frames = headers_frames(alloc, stream, flags, block.as_slice())?;
    out.put(false, frames.as_slice())
}
