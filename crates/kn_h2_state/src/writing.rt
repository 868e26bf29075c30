ghost use Rattle.std.specs.Prelude.{◌≡◌, ◌<◌, ◌^◌, length, false, OnOk};
ghost use Rattle.kn_frames.specs.Frames.{spelled};
ghost use Rattle.kn_h2_state.specs.Outgoing.{put};
ghost use Rattle.kn_h2_state.specs.Payloads.{grant_frame};

use crate::outgoing::Outgoing;
use kn_frames::write_head;
use kn_io::NoMemory;

/// Puts a frame at the end of what waits for the socket, whole in one go.
pub fn write_frame(
    out: &mut Outgoing,
    reply: bool,
    kind: u8,
    flags: u8,
    stream: u32,
    payload: &[u8],
) -> Result<(), NoMemory>
    requires length_fits { length payload.now < 2 ^ 24 }
    requires stream_fits { stream < 2 ^ 31 }
    ensures { OnOk result (out.new ≡ put out.old reply (spelled kind flags stream payload.now)) }
{
    let mut room = [0; 9];
    write_head(kind, flags, stream, payload.len() as u32, &mut room);
    out.put(reply, &room)?;
    out.put(reply, payload)?;
    Ok(())
}

/// Puts a WINDOW_UPDATE at the end of what waits for the socket: of the connection where the stream is 0.
pub fn write_grant(out: &mut Outgoing, stream: u32, by: u32) -> Result<(), NoMemory>
    requires { stream < 2 ^ 31 }
    ensures { OnOk result (out.new ≡ put out.old false (grant_frame stream by)) }
{
    write_frame(out, false, 8, 0, stream, &by.to_be_bytes())
}
