ghost use Rattle.std.specs.Prelude.{◌≡◌, ◌<◌, ◌≤◌, ◌++◌, length, true};
ghost use Rattle.kn_frames.specs.Frames.{KeepsLimits};
ghost use Rattle.kn_frames.specs.Readers.{start, after_bytes, frames_in, Told, fault_of, fault_in};
ghost use Rattle.kn_frames.specs.Missing.{missing};
ghost use Rattle.kn_frames.specs.Cutters.{is_sound};

use crate::fault::Phase;
use crate::front::Front;
use crate::state::State;
use crate::{CutError, Frame, missing, steps};
use kn_io::Blob;
use std::alloc::Global;
use std::marker::Model;

/// Cuts the bytes of one direction of a connection into frames, in whatever pieces they come.
#[derive(Drop)]
pub struct Cutter {
    state: State,
}

impl Model for Cutter {
    ghost use Rattle.std.specs.Prelude.{◌≡◌, true};
    ghost use Rattle.kn_frames.specs.Readers.{Reading};

    ghost Value = { Reading };

    ghost use Rattle.kn_frames.specs.Cutters.{seen, is_sound};

    ghost view = { λ c. seen c.state };

    ghost invariant = { λ c. is_sound c.state ≡ true };
}

impl Cutter {
    /// A cutter before the first byte. With `preface` the bytes are those of a client, which begin
    /// with the preface (RFC 9113, section 3.4). Takes no memory.
    #[tactic(auto, unfolding(crate::specs::Frames::length_of))]
    pub fn new(alloc: Global, preface: bool) -> Cutter
        ensures { result ≡ start preface }
    {
        let phase = if preface {
            Phase::InPreface
        } else {
            Phase::InFrames
        };
        Cutter {
            state: State {
                phase,
                front: Front::new(),
                body: Blob::new(alloc),
                offset: 0,
            },
        }
    }

    /// Reads the next bytes, and adds the frames that become whole: also those before a fault. After
    /// a fault each further call answers it again. After want of memory nothing is said of what was read.
    pub fn feed(
        &mut self,
        alloc: Global,
        piece: &[u8],
        frames: &mut Vec<Frame>,
    ) -> Result<(), CutError>
        ensures read { Told result (self.new ≡ after_bytes self.old piece.now) }
        ensures frames { Told result (frames.new.items ≡ frames.old.items ++ frames_in self.old piece.now) }
        ensures fault { Told result (fault_of result ≡ fault_in self.new.phase) }
        ensures limits { Told result (KeepsLimits frames.old.items frames.new.items) }
    {
        match steps::cut(&mut self.state, alloc, piece, frames) {
            Ok(()) => Ok(()),
            Err(CutError::Fault(fault)) => Err(CutError::Fault(fault)),
            Err(CutError::NoMemory) => {
                forget(&mut self.state, alloc);
                Err(CutError::NoMemory)
            }
        }
    }

    /// How many bytes of a partial preface or frame are held: no more than 16,393.
    pub fn held(&self) -> usize
        ensures value { result ≡ length self.now.rest }
        ensures bound { result ≤ 16393 }
    {
        self.state.front.len() + self.state.body.len()
    }

    /// How many bytes are missing to the end of the preface, of the head of nine bytes, or of the payload under
    /// way. After a fault each byte stands by itself: it is 1. Takes no memory.
    pub fn missing(&self) -> usize
        ensures value { result ≡ missing self.now }
        ensures some { 1 ≤ result }
    {
        missing::left(&self.state)
    }

    /// How many bytes came before those that are held. It stays at 2^64 - 1 once it has reached it.
    pub fn offset(&self) -> u64
        ensures { result ≡ self.now.offset }
    {
        self.state.offset
    }
}

/// After want of memory nothing is held.
#[tactic(auto, unfolding(crate::specs::Frames::length_of))]
fn forget(state: &mut State, alloc: Global)
    ensures { is_sound state.new ≡ true }
{
    state.front.clear();
    state.body = Blob::new(alloc);
}

#[cfg(test)]
mod tests {
    use super::*;
    use crate::{FrameFault, FrameReason, PREFACE};
    use std::test::Fail;

    /// Cuts bytes in pieces of this size, and tells how many are held.
    fn cut(
        alloc: Global,
        preface: bool,
        bytes: &[u8],
        size: usize,
        frames: &mut Vec<Frame>,
    ) -> Result<usize, CutError>
        requires { 0 < size }
    {
        let mut cutter = Cutter::new(alloc, preface);
        for piece in bytes.chunks(size) {
            cutter.feed(alloc, piece, frames)?;
        }
        Ok(cutter.held())
    }

    fn fault(offset: u64, reason: FrameReason) -> Result<usize, CutError> {
        Err(CutError::Fault(FrameFault { offset, reason }))
    }

    #[test]
    fn streams_in_pieces_of_any_size(rt: HostRuntime) {
        let ping = b"\x00\x00\x02\x06\x01\x00\x00\x00\x00hi".as_slice();
        let table = [
            ("nothing", false, b"".as_slice(), Ok(0), 0),
            ("a frame", false, ping, Ok(0), 1),
            ("a partial head", false, b"\x00\x00\x08\x06", Ok(4), 0),
            (
                "a partial payload",
                false,
                b"\x00\x00\x02\x06\x01\x00\x00\x00\x00h",
                Ok(10),
                0,
            ),
            (
                "an empty frame",
                false,
                b"\x00\x00\x00\x04\x01\x00\x00\x00\x00",
                Ok(0),
                1,
            ),
            ("a whole preface", true, PREFACE.as_slice(), Ok(0), 0),
            ("a partial preface", true, b"PRI * HTTP/2.0\r\n", Ok(16), 0),
            (
                "another preface",
                true,
                b"PRI * HTTP/1.1\r\n",
                fault(11, FrameReason::Preface),
                0,
            ),
            (
                "a head of 16,385",
                false,
                b"\x00\x40\x01\x00",
                fault(0, FrameReason::TooLong),
                0,
            ),
            (
                "refused at the second byte",
                false,
                b"\x00\x41",
                fault(0, FrameReason::TooLong),
                0,
            ),
            (
                "a head of 16,384",
                false,
                b"\x00\x40\x00\x00\x00\x00\x00\x00\x01",
                Ok(9),
                0,
            ),
            (
                "a fault after a frame",
                false,
                b"\x00\x00\x02\x06\x01\x00\x00\x00\x00hi\x01",
                fault(11, FrameReason::TooLong),
                1,
            ),
        ];
        for (name, preface, bytes, want, count) in table {
            for size in [1, 5, 16_384] {
                let mut frames = Vec::new(rt.alloc());
                assert_eq!(rt;
                    cut(rt.alloc(), preface, bytes, size, &mut frames),
                    want,
                    "{name}"
                );
                assert_eq!(rt; frames.len(), count, "{name}");
            }
        }
    }

    #[test]
    fn a_frame_of_16_384_bytes(rt: HostRuntime) -> Result<(), Fail> {
        let mut bytes = Vec::from_slice(rt.alloc(), b"\x00\x40\x00\x00\x05\x80\x00\x01\x02")?;
        for _ in 0..16_384 {
            bytes.push(7)?;
        }
        let mut frames = Vec::new(rt.alloc());
        assert_eq!(rt; cut(rt.alloc(), false, &bytes, 1_000, &mut frames), Ok(0));
        assert_eq!(rt; frames.len(), 1);
        let frame = &frames[0];
        assert_eq!(rt;
            (frame.kind, frame.flags, frame.stream),
            (0, 5, 258),
            "without the reserved bit"
        );
        assert_eq!(rt; frame.payload.len(), 16_384);
        Ok(())
    }

    #[test]
    fn a_fault_is_answered_again(rt: HostRuntime) {
        let mut cutter = Cutter::new(rt.alloc(), true);
        let mut frames = Vec::new(rt.alloc());
        for piece in [b"GET".as_slice(), b"", PREFACE.as_slice()] {
            let answer = cutter.feed(rt.alloc(), piece, &mut frames);
            let fault = FrameFault {
                offset: 0,
                reason: FrameReason::Preface,
            };
            assert_eq!(rt; answer, Err(CutError::Fault(fault)));
        }
        assert_eq!(rt; cutter.held(), 0);
    }

    #[test]
    fn what_is_missing(rt: HostRuntime) -> Result<(), Fail> {
        let mut cutter = Cutter::new(rt.alloc(), true);
        let mut frames = Vec::new(rt.alloc());
        let table = [
            ("before the preface", b"".as_slice(), 24, 0),
            ("inside it", b"PRI * HTTP/2.0\r\n", 8, 0),
            ("after it", b"\r\nSM\r\n\r\n", 9, 0),
            ("inside a head", b"\x00\x00\x03\x06", 5, 0),
            ("after a head", b"\x01\x00\x00\x00\x00", 3, 0),
            ("inside a payload", b"hi", 1, 0),
            ("after a frame", b"!", 9, 1),
            (
                "after an empty frame",
                b"\x00\x00\x00\x04\x01\x00\x00\x00\x00",
                9,
                2,
            ),
        ];
        for (name, piece, want, count) in table {
            cutter.feed(rt.alloc(), piece, &mut frames)?;
            assert_eq!(rt; cutter.missing(), want, "{name}");
            assert_eq!(rt; frames.len(), count, "{name}");
        }
        let _fault = cutter.feed(rt.alloc(), b"\x01", &mut frames);
        assert_eq!(rt; cutter.missing(), 1, "after a fault");
        Ok(())
    }
}
