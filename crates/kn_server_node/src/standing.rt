use crate::front::Front;
use kn_ends::Who;
use kn_io::Blob;

/// What is handled of a stream.
#[derive(Drop)]
pub enum Standing {
    /// It is not there.
    Nothing,
    /// What stands at the front of a stream, and who has it.
    Stream {
        who: Who,
        front: Front,
    },
    /// The early bytes of a door.
    Early {
        front: Option<u64>,
        dial: Option<i64>,
        bytes: Blob,
    },
}
