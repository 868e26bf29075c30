// Windows of HTTP/2 flow control (RFC 9113, section 6.9): how many bytes may still be sent, or may
// still come, on a stream or a connection.
#![tactic(auto)]

mod window;

pub use window::{Above, Below, Window};
