use crate::byte_queue::ByteQueue;
use crate::events::Events;
use crate::head_decoder::HeadDecoder;
use crate::outgoing::Outgoing;
use crate::role::Role;
use crate::streams::Streams;
use kn_hpack::Encoder;
use kn_windows::Window;

/// A header block that has begun and not ended.
#[derive(Drop)]
pub struct Block {
    pub stream: u32,
    /// The stream ends with it.
    pub ends: bool,
    pub bytes: ByteQueue,
}

/// All that a connection holds, but for the bytes of a partial frame. A definition of a step takes it
/// and gives it.
#[derive(Drop)]
pub struct State {
    pub role: Role,
    /// The code with which it failed.
    pub failed: Option<u32>,
    /// The first frame came.
    pub began: bool,
    /// A GOAWAY came.
    pub away: bool,
    /// The header block under way.
    pub block: Option<Block>,
    pub decoder: HeadDecoder,
    pub encoder: Encoder,
    /// The peer's SETTINGS_INITIAL_WINDOW_SIZE.
    pub initial: u32,
    /// The peer's SETTINGS_MAX_CONCURRENT_STREAMS.
    pub most: Option<u32>,
    /// What the peer may still send on all streams together.
    pub receive: Window,
    /// What this end may still send on all streams together.
    pub send: Window,
    /// Bytes of all streams that were taken, or count so, and were not granted back.
    pub owed: u32,
    /// The highest stream that was opened.
    pub opened: u32,
    pub streams: Streams,
    /// What waits for the socket.
    pub out: Outgoing,
    /// What was not told yet.
    pub events: Events,
}
