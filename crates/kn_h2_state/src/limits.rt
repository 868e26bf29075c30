/// The receiving window of a stream: what its peer may send before text of it is taken.
pub const STREAM_WINDOW: u32 = 65_535;

/// The receiving window of a connection, which its opening WINDOW_UPDATE makes of the default.
pub const CONNECTION_WINDOW: u32 = 6_553_500;

/// Each window before a SETTINGS or WINDOW_UPDATE frame (RFC 9113, section 6.9.2).
pub const DEFAULT_WINDOW: u32 = 65_535;

/// No window is larger (RFC 9113, section 6.9.1).
pub const LARGEST_WINDOW: u32 = 2_147_483_647;

/// The longest payload of a frame that is read or written (RFC 9113, section 4.2).
pub const FRAME_LIMIT: usize = 16_384;

/// From so many owed bytes on, they are granted back.
pub const GRANT_SIZE: u32 = 16_384;

/// While so many bytes wait for the socket, nothing that may wait is written.
pub const FULL_OUT: usize = 16_384;

/// The most bytes of reply frames that wait for the socket.
pub const REPLY_LIMIT: usize = 65_536;

/// The longest header block that is read.
pub const BLOCK_LIMIT: usize = 32_768;

/// The largest list of fields that is read, as SETTINGS_MAX_HEADER_LIST_SIZE counts it (RFC 9113, section
/// 6.5.2).
pub const LIST_LIMIT: u32 = 16_384;

/// The most streams that a peer may have open.
pub const STREAM_LIMIT: usize = 100;

/// While a stream's queue holds more bytes, it takes no further ones.
pub const QUEUE_LIMIT: usize = 5_242_880;

/// The highest number of a stream (RFC 9113, section 5.1.1).
pub const HIGHEST_STREAM: u32 = 2_147_483_647;
