ghost use Rattle.std.specs.Prelude.{◌≡◌, ◌<◌, ◌^◌};
ghost use Rattle.kn_frames.specs.Frames.{head};

use kn_io::Blob;

/// The 24 bytes that a client sends first (RFC 9113, section 3.4).
pub const PREFACE: [u8; 24] = *b"PRI * HTTP/2.0\r\n\r\nSM\r\n\r\n";

/// A frame (RFC 9113, section 4.1).
#[derive(Drop)]
pub struct Frame {
    /// The type, as DATA 0 or HEADERS 1.
    pub kind: u8,
    pub flags: u8,
    /// The stream's number, without the reserved bit.
    pub stream: u32,
    pub payload: Blob,
}

/// Writes the head of a frame whose payload has this length. Takes no memory.
#[tactic(auto, unfolding(crate::specs::Frames::head))]
pub fn write_head(kind: u8, flags: u8, stream: u32, length: u32, room: &mut [u8; 9])
    requires length_fits { length < 2 ^ 24 }
    requires stream_fits { stream < 2 ^ 31 }
    ensures { room.new ≡ head kind flags stream length }
{
    let [_, a, b, c] = length.to_be_bytes();
    let [d, e, f, g] = stream.to_be_bytes();
    *room = [a, b, c, kind, flags, d, e, f, g];
}

#[cfg(test)]
mod tests {
    use super::*;

    #[test]
    fn heads(rt: HostRuntime) {
        let mut room = [0; 9];
        write_head(6, 1, 0, 8, &mut room);
        assert_eq!(rt; room, [0, 0, 8, 6, 1, 0, 0, 0, 0]);
        write_head(0, 9, 2_147_483_647, 66_051, &mut room);
        assert_eq!(rt; room, [1, 2, 3, 0, 9, 127, 255, 255, 255]);
    }
}
