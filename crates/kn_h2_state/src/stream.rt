use crate::byte_queue::ByteQueue;
use kn_hpack::Headers;
use kn_windows::Window;

/// A stream that is open, or closed with text that nobody took yet.
#[derive(Drop)]
pub struct Stream {
    pub number: u32,
    /// What the peer may still send.
    pub receive: Window,
    /// What this end may still send.
    pub send: Window,
    /// Text that came and was not taken.
    pub text: ByteQueue,
    /// Bytes that were taken, or count so, and were not granted back.
    pub owed: u32,
    /// Bytes that wait to be sent.
    pub queue: ByteQueue,
    /// The head of the response went out, or came in.
    pub answered: bool,
    /// The peer's half is open.
    pub peer_open: bool,
    /// This end's half is open.
    pub own_open: bool,
    /// This end's half is to end after the queue, with these fields.
    pub finish: Option<Headers>,
    /// This end's half has ended, and a RST_STREAM is to follow.
    pub resets: bool,
}
