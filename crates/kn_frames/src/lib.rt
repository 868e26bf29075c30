// Frames of HTTP/2 (RFC 9113, section 4): cut from the bytes of a connection in whatever pieces these
// come, written, and listed as text.
#![tactic(auto)]

mod cutter;
mod fault;
mod frame;
mod front;
mod head;
mod laws;
mod lines;
mod listing;
mod missing;
mod state;
mod steps;

pub use cutter::Cutter;
pub use fault::{CutError, FrameFault, FrameReason};
pub use frame::{Frame, PREFACE, write_head};
pub use laws::{any_pieces, cut_as_spelled, listed_as_spelled, read_as_written};
pub use listing::{ListingError, ListingFault, ListingReason, frame_lines};
pub use missing::ends_with_the_missing;
