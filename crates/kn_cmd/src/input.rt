ghost use Rattle.std.specs.Prelude.{◌≡◌};
ghost use Rattle.kn_cmd.specs.Input.{ReadsAll};

use kn_io::{Blob, Got, Source};
use std::alloc::Global;

/// The most bytes that a plain command reads.
pub const INPUT_LIMIT: usize = 1_048_576;

/// The room that one read is given.
const ROOM: usize = 16_384;

/// What came of reading a source to its end.
#[derive(Drop)]
pub(crate) enum Input {
    /// All its bytes, no more than the limit.
    Whole(Blob),
    /// There were more bytes than the limit.
    TooLong,
    /// A read failed.
    Fault,
    NoMemory,
}

/// Reads the source to its end, or to the first byte over the limit.
pub(crate) fn read_input<S: Source>(alloc: Global, source: &mut S) -> Input
    ensures { ReadsAll result (S.faults source.old) (S.faults source.new) (S.left source.old) (S.left source.new) }
{
    let mut bytes = Blob::new(alloc);
    let mut room = [0; ROOM];
    while bytes.len() <= INPUT_LIMIT {
        match source.read(&mut room) {
            Got::Bytes(count) => {
                if bytes.append(&room[..count]).is_err() {
                    return Input::NoMemory;
                }
            }
            Got::End => return Input::Whole(bytes),
            Got::Failed => return Input::Fault,
        }
    }
    Input::TooLong
}
