ghost use Rattle.std.specs.Prelude.{◌≡◌};
ghost use Rattle.kn_hpack.specs.declared.fault.TextError.TheVariants.{NoMemory};

use std::alloc::{AllocError, AllocFailed};

/// What is wrong with a header block (RFC 7541). Several causes in one block: the first in reading order
/// is told.
#[derive(Clone, Copy, PartialEq, Eq, Debug, Drop)]
pub enum HpackReason {
    /// The index 0 as a field, or an index beyond both tables (section 2.3.3).
    Index,
    /// More than five continuation bytes, or a number over 2,147,483,647 (section 5.1).
    Integer,
    /// What follows the last whole code of a string is more than seven bits, or not all ones (section 5.2).
    Padding,
    /// The code of the end stands in a string (section 5.2).
    Eos,
    /// A new limit over 4,096, or after a field of the block (sections 4.2 and 6.3).
    TableSize,
    /// The block ends inside a representation.
    Cut,
    /// The fields so far count over 16,384 together, each its texts and 32.
    TooLarge,
}

/// The first fault of a header block.
#[derive(Clone, Copy, PartialEq, Eq, Debug, Drop)]
pub struct HpackFault {
    /// The offset in the block of the first byte of the representation with the fault.
    pub place: usize,
    pub reason: HpackReason,
}

/// Why a block gave no list.
#[derive(Clone, Copy, PartialEq, Eq, Debug, Drop)]
pub enum HpackError {
    /// Want of memory. The table no longer is the peer's, so every later call answers the same.
    NoMemory,
    /// The block has no reading; this is its first fault.
    Fault(HpackFault),
    /// An earlier block had this fault.
    Failed(HpackFault),
}

/// Why a part of a block was not read.
#[derive(Clone, Copy, Drop)]
pub enum TextError {
    NoMemory,
    Fault(HpackReason),
}

impl From<AllocError> for TextError {
    ghost from_gives = { λ _ e. e ≡ NoMemory };

    fn from(_error: AllocError) -> TextError {
        TextError::NoMemory
    }
}

impl<T: Drop> From<AllocFailed<T>> for TextError {
    ghost from_gives = { λ _ e. e ≡ NoMemory };

    fn from(_error: AllocFailed<T>) -> TextError {
        TextError::NoMemory
    }
}

/// Why a block was not read.
#[derive(Clone, Copy, Drop)]
pub enum BlockError {
    NoMemory,
    Fault(HpackFault),
}
