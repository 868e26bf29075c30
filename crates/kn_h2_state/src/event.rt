use kn_hpack::Headers;

/// What a connection tells, in the order of the frames.
#[derive(Drop)]
pub enum H2Event {
    /// A peer's request began a stream. At the server alone.
    Opened { stream: u32, headers: Headers },
    /// The head of the response came. At the client alone.
    Head { stream: u32, headers: Headers },
    /// Text of the stream came.
    Text { stream: u32 },
    /// The peer ended its half of the stream.
    Ended { stream: u32 },
    /// The peer reset the stream, or its response was malformed. What was not taken is gone.
    Reset { stream: u32, code: u32 },
    /// The peer sent GOAWAY.
    Away { code: u32 },
    /// The connection failed. It is the last event.
    Closed { code: u32 },
}
