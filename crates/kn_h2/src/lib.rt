// A connection of HTTP/2 (RFC 9113) without sockets: bytes and calls in, events and bytes out.
#![tactic(auto)]

mod answers;
mod call_laws;
mod conn;
mod conn_sending;
mod ends;
mod feeding;
mod fill;
mod finding;
mod frames;
mod grants;
mod head_frames;
mod head_tests;
mod header_blocks;
mod heads;
mod laws;
mod missing;
mod moves;
mod openings;
mod replies;
mod requests;
mod resets;
mod responses;
mod ruin;
mod sending;
mod shifts;
mod status;
mod steady;
mod stream_calls;
mod taking;
mod text;
mod windows;

pub use call_laws::{
    answers_are_written, calls_are_written, data_is_spent, windows_follow, windows_move,
    written_is_carried,
};
pub use conn::Conn;
pub use kn_h2_state::{BeginRefusal, Events, H2Event, QueueRefusal, Role};
pub use laws::frames_keep;
pub use missing::frames_end_with_the_missing;
pub use sending::sending_laws;
pub use steady::{ends_are_written, moves_tell_nothing, role_stays};

#[cfg(test)]
mod call_rows;
#[cfg(test)]
mod call_tests;
#[cfg(test)]
mod rule_tests;
