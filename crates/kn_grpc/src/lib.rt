// gRPC over HTTP/2: the messages of a stream, in whatever pieces its bytes come, and the heads by which a
// stream says what it is.
#![tactic(auto)]

mod body;
mod call;
mod fault;
mod framing;
mod front;
mod head;
mod heads;
mod kept;
mod laws;
mod messages;
mod reading;
mod state;

pub use call::{Call, CallError, CallFault, Service};
pub use fault::{MessageError, MessageFault, MessageReason};
pub use framing::frame;
pub use front::Front;
pub use heads::{answer_head, call_head, refusal_head, trailers};
pub use kept::kept_is_bounded;
pub use laws::{
    any_pieces, first_as_spelled, first_packet_of, first_stays, own_calls_are_read,
    packet_as_spelled, paths_by_segments, read_as_written, taken_as_spelled, taken_up_to_the_end,
};
pub use messages::Messages;
pub use reading::{read_call, service_in_path};

#[cfg(test)]
mod tests;
