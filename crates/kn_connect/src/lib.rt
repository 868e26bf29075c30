// Heads of CONNECT requests (RFC 9110, section 9.3.6), read from the bytes of a connection in whatever
// pieces these come, and the replies to them.
#![tactic(auto)]

mod answer;
mod bytes;
mod deciding;
mod front;
mod laws;
mod reading;
mod replying;
mod statuses;
mod walk;

pub use answer::{ConnectAnswer, ConnectError, ConnectFault};
pub use front::ConnectFront;
pub use laws::answers_are_one;
pub use replying::reply;
pub use statuses::{error_status, fault_status, reply_len, status_line};

#[cfg(test)]
mod tests;
