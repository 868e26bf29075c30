ghost use Rattle.std.specs.Prelude.{◌≡◌};

use thiserror::Error;

/// Why bytes are no packet.
#[derive(Clone, Copy, Debug, PartialEq, Eq, Error)]
pub enum PacketReason {
    /// The bytes end inside a field.
    #[error("cut")]
    Cut,
    /// A varint has more than ten bytes, or more than 64 bits.
    #[error("bad varint")]
    Varint,
    /// A field has one of the wire types 3, 4, 6 and 7.
    #[error("bad wire type")]
    Wire,
    /// A field has the number 0.
    #[error("field zero")]
    FieldZero,
    /// A payload's bytes end inside a field.
    #[error("bad length")]
    Length,
    /// A text is not UTF-8.
    #[error("not utf-8")]
    NotUtf8,
}

impl PacketReason {
    ghost use Rattle.kn_packet.specs.Lines.{text_of};

    /// The same text as `Display` gives.
    pub fn as_str(&self) -> &'static str
        ensures { result.now ≡ text_of self.now }
    {
        match self {
            PacketReason::Cut => "cut",
            PacketReason::Varint => "bad varint",
            PacketReason::Wire => "bad wire type",
            PacketReason::FieldZero => "field zero",
            PacketReason::Length => "bad length",
            PacketReason::NotUtf8 => "not utf-8",
        }
    }
}

/// The first fault of some bytes: the offset of the first field that is not spelled, and what is wrong
/// with it.
#[derive(Clone, Copy, Debug, PartialEq, Eq)]
pub struct PacketFault {
    pub place: usize,
    pub reason: PacketReason,
}
