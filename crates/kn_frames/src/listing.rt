ghost use Rattle.std.specs.Prelude.{◌≡◌, None, IfOk};
ghost use Rattle.kn_frames.specs.Listings.{listing, listing_by, begins_with_preface, stream_lines, reason_text, Lists};

use crate::lines::push_lines;
use crate::{CutError, Cutter, Frame, PREFACE};
use kn_io::{Blob, NoMemory};
use std::alloc::Global;

/// Why bytes have no listing.
#[derive(Clone, Copy, Debug, PartialEq, Eq)]
pub enum ListingReason {
    /// A head says more than 16,384 bytes.
    TooLong,
    /// The bytes end inside a frame.
    Cut,
}

/// Where bytes stop to be frames.
#[derive(Clone, Copy, Debug, PartialEq, Eq)]
pub struct ListingFault {
    /// The offset of the frame.
    pub offset: u64,
    pub reason: ListingReason,
}

/// Why bytes were not listed.
#[derive(Clone, Copy, Debug, PartialEq, Eq)]
pub enum ListingError {
    NoMemory,
    Fault(ListingFault),
}

impl ListingReason {
    /// The reason as a text for users.
    pub fn text(self) -> &'static str
        ensures { result.now ≡ reason_text self }
    {
        match self {
            ListingReason::TooLong => "frame too long",
            ListingReason::Cut => "cut frame",
        }
    }
}

/// A line for each frame of the bytes of one direction, as `OFFSET NAME flags=HH stream=N length=N`,
/// and before these `0 PREFACE length=24` where the bytes begin with the whole preface.
#[tactic(auto, unfolding(crate::specs::Listings::listing))]
pub fn frame_lines(alloc: Global, bytes: &[u8]) -> Result<Blob, ListingError>
    ensures { Lists result (listing bytes.now) }
{
    let has_preface = begins_with_preface(bytes);
    let mut cutter = Cutter::new(alloc, has_preface);
    let mut frames = Vec::new(alloc);
    match cutter.feed(alloc, bytes, &mut frames) {
        Ok(()) => list(alloc, has_preface, &cutter, frames.as_slice()),
        Err(CutError::NoMemory) => Err(ListingError::NoMemory),
        Err(CutError::Fault(fault)) => Err(ListingError::Fault(ListingFault {
            offset: fault.offset,
            reason: ListingReason::TooLong,
        })),
    }
}

/// The bytes begin with the whole preface (RFC 9113, section 3.4).
#[tactic(auto, unfolding(crate::specs::Frames::preface))]
fn begins_with_preface(bytes: &[u8]) -> bool
    ensures { result ≡ begins_with_preface bytes.now }
{
    bytes.starts_with(&PREFACE)
}

/// The listing of bytes that were cut, where none is held.
fn list(
    alloc: Global,
    has_preface: bool,
    cutter: &Cutter,
    frames: &[Frame],
) -> Result<Blob, ListingError>
    ensures { Lists result (listing_by None has_preface cutter.now frames.now) }
{
    if cutter.held() != 0 {
        return Err(ListingError::Fault(ListingFault {
            offset: cutter.offset(),
            reason: ListingReason::Cut,
        }));
    }
    match stream_lines(alloc, has_preface, frames) {
        Ok(lines) => Ok(lines),
        Err(_error) => Err(ListingError::NoMemory),
    }
}

/// The lines of a stream's frames, after that of its preface.
fn stream_lines(alloc: Global, has_preface: bool, frames: &[Frame]) -> Result<Blob, NoMemory>
    ensures { IfOk result (λ out. out ≡ stream_lines has_preface frames.now) }
{
    let mut out = Blob::new(alloc);
    if has_preface {
        out.append(b"0 PREFACE length=24\n")?;
        push_lines(&mut out, 24, frames)?;
        return Ok(out);
    }
    push_lines(&mut out, 0, frames)?;
    Ok(out)
}

#[cfg(test)]
mod tests {
    use super::*;
    use std::test::Fail;

    #[test]
    fn lines_of_frames(rt: HostRuntime) -> Result<(), Fail> {
        let table = [
            (b"".as_slice(), b"".as_slice()),
            (
                b"PRI * HTTP/2.0\r\n\r\nSM\r\n\r\n\x00\x00\x0c\x04\x00\x00\x00\x00\x00\x00\x02\x00\x00\x00\x00\x00\x06\x00\x00\x40\x00\x00\x00\x04\x08\x00\x00\x00\x00\x00\x00\x62\xff\x9d",
                b"0 PREFACE length=24\n24 SETTINGS flags=00 stream=0 length=12\n45 WINDOW_UPDATE flags=00 stream=0 length=4\n",
            ),
            (
                b"\x00\x00\x01\x0a\xf5\x80\x00\x01\x02!\x00\x00\x00\x00\x00\x00\x00\x00\x00",
                b"0 TYPE10 flags=f5 stream=258 length=1\n10 DATA flags=00 stream=0 length=0\n",
            ),
        ];
        for (bytes, want) in table {
            match frame_lines(rt.alloc(), bytes) {
                Ok(lines) => assert_eq!(rt; lines.as_slice(), want),
                Err(error) => return Err(Fail::from(error)),
            }
        }
        Ok(())
    }

    #[test]
    fn faults_of_listings(rt: HostRuntime) {
        let table = [
            (
                b"\x00\x40\x01\x00\x00\x00\x00\x00\x01".as_slice(),
                0,
                ListingReason::TooLong,
            ),
            (b"\x01", 0, ListingReason::TooLong),
            (
                b"PRI * HTTP/1.1\r\n\r\nSM\r\n\r\n",
                0,
                ListingReason::TooLong,
            ),
            (b"\x00\x00\x08\x06", 0, ListingReason::Cut),
            (
                b"\x00\x00\x01\x00\x00\x00\x00\x00\x01!\x00\x00",
                10,
                ListingReason::Cut,
            ),
        ];
        for (bytes, offset, reason) in table {
            match frame_lines(rt.alloc(), bytes) {
                Ok(_lines) => panic!(rt; "no fault"),
                Err(error) => {
                    let fault = ListingFault { offset, reason };
                    assert_eq!(rt; error, ListingError::Fault(fault));
                }
            }
        }
        assert_eq!(rt; ListingReason::TooLong.text(), "frame too long");
        assert_eq!(rt; ListingReason::Cut.text(), "cut frame");
    }
}
