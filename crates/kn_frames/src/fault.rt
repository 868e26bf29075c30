/// Why bytes are no frames.
#[derive(Clone, Copy, Debug, PartialEq, Eq)]
pub enum FrameReason {
    /// A byte differs from the client's preface (RFC 9113, section 3.4).
    Preface,
    /// A head says more than 16,384 bytes (RFC 9113, section 4.2: a FRAME_SIZE_ERROR).
    TooLong,
}

/// Where a stream of bytes stops to be frames.
#[derive(Clone, Copy, Debug, PartialEq, Eq)]
pub struct FrameFault {
    /// The offset in the stream of the byte that differs, or of the frame's head. It stays at
    /// 2^64 - 1 once it has reached it.
    pub offset: u64,
    pub reason: FrameReason,
}

/// Why bytes were not cut.
#[derive(Clone, Copy, Debug, PartialEq, Eq)]
pub enum CutError {
    NoMemory,
    Fault(FrameFault),
}

/// What a reader is in. It never leaves `Failed`.
#[derive(Clone, Copy, Debug, PartialEq, Eq)]
pub enum Phase {
    InPreface,
    InFrames,
    Failed(FrameFault),
}
