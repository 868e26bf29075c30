/// Why no stream was begun.
#[derive(Clone, Copy, Debug, PartialEq, Eq)]
pub enum BeginRefusal {
    NoMemory,
    /// The connection failed with this code.
    Gone { code: u32 },
    /// A GOAWAY came.
    Away,
    /// As many streams are open as the peer allows.
    Many,
    /// The numbers of streams are used up.
    Numbers,
}

/// Why a call on a stream was refused.
#[derive(Clone, Copy, Debug, PartialEq, Eq)]
pub enum QueueRefusal {
    NoMemory,
    /// The connection failed with this code.
    Gone { code: u32 },
    /// This end's half of the stream is not open.
    NoStream,
    /// The stream's queue held so many bytes.
    Full { held: usize },
}
