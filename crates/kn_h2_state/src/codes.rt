/// The types of frames (RFC 9113, section 6).
pub mod kinds {
    pub const DATA: u8 = 0;

    pub const HEADERS: u8 = 1;

    pub const PRIORITY: u8 = 2;

    pub const RST_STREAM: u8 = 3;

    pub const SETTINGS: u8 = 4;

    pub const PUSH_PROMISE: u8 = 5;

    pub const PING: u8 = 6;

    pub const GOAWAY: u8 = 7;

    pub const WINDOW_UPDATE: u8 = 8;

    pub const CONTINUATION: u8 = 9;
}

/// The flags of frames (RFC 9113, section 6).
pub mod flags {
    pub const END_STREAM: u8 = 1;

    pub const ACK: u8 = 1;

    pub const END_HEADERS: u8 = 4;

    pub const PADDED: u8 = 8;

    pub const PRIORITY: u8 = 32;
}

/// The codes of errors (RFC 9113, section 7).
pub mod errors {
    pub const NO_ERROR: u32 = 0;

    pub const PROTOCOL_ERROR: u32 = 1;

    pub const FLOW_CONTROL_ERROR: u32 = 3;

    pub const STREAM_CLOSED: u32 = 5;

    pub const FRAME_SIZE_ERROR: u32 = 6;

    pub const REFUSED_STREAM: u32 = 7;

    pub const COMPRESSION_ERROR: u32 = 9;

    pub const ENHANCE_YOUR_CALM: u32 = 11;
}

/// The numbers of settings (RFC 9113, section 6.5.2).
pub mod setting_numbers {
    pub const ENABLE_PUSH: u16 = 2;

    pub const MAX_CONCURRENT_STREAMS: u16 = 3;

    pub const INITIAL_WINDOW_SIZE: u16 = 4;

    pub const MAX_FRAME_SIZE: u16 = 5;
}
