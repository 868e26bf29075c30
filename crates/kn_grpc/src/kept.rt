ghost use Rattle.kn_grpc.specs.Kept.{KeptIsBounded};

/// A reader of messages never holds more than 4,194,309 bytes: the five bytes before a message, and the longest
/// message.
pub fn kept_is_bounded()
    ensures { KeptIsBounded }
{}
