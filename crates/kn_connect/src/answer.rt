use kn_io::{Blob, Text};

/// Why the bytes of a connection do not ask for a tunnel.
#[derive(Clone, Copy, Debug, PartialEq, Eq)]
pub enum ConnectFault {
    /// No bytes could follow that make them begin with the head of a request. It is replied to with 400.
    BadHead,
    /// They begin with the head of a request of another method. It is replied to with 405.
    NotConnect,
    /// The head is not whole within 8,192 bytes. It is replied to with 431.
    TooLong,
}

/// Why no answer was given.
#[derive(Clone, Copy, Debug, PartialEq, Eq)]
pub enum ConnectError {
    NoMemory,
    Fault(ConnectFault),
}

/// What the bytes of a connection are so far.
#[derive(Drop)]
pub enum ConnectAnswer {
    /// They may still become the head of a request.
    More,
    /// They begin with the head of a CONNECT request.
    Head {
        /// The request target as it was sent (RFC 9112, section 3.2.3).
        target: Text,
        /// All that follows the head.
        early: Blob,
    },
}
