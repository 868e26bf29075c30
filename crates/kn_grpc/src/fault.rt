ghost use Rattle.std.specs.Prelude.{◌≡◌};
ghost use Rattle.kn_grpc.specs.Packets.{status_of};

/// Why bytes begin no message.
#[derive(Clone, Copy, Debug, PartialEq, Eq)]
pub enum MessageReason {
    /// The flag byte is 1: the message is compressed, and no compression was agreed on.
    Compressed,
    /// The flag byte is over 1.
    Flag,
    /// The length says more than 4,194,304 bytes, or will, whatever bytes come.
    TooLong,
}

impl MessageReason {
    /// The gRPC status that such a message ends its call with.
    pub fn status(&self) -> u32
        ensures { result ≡ status_of self.now }
    {
        match self {
            MessageReason::Compressed => 12,
            MessageReason::Flag => 13,
            MessageReason::TooLong => 8,
        }
    }
}

/// Where a stream stops to be messages.
#[derive(Clone, Copy, Debug, PartialEq, Eq)]
pub struct MessageFault {
    /// The offset in the stream of the message's flag byte. It stays at 2^64 - 1 once it has reached it.
    pub offset: u64,
    pub reason: MessageReason,
}

/// Why bytes were not taken.
#[derive(Clone, Copy, Debug, PartialEq, Eq)]
pub enum MessageError {
    NoMemory,
    Fault(MessageFault),
}
