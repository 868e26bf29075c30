use crate::fault::HpackFault;

/// Whether a decoder still reads blocks.
#[derive(Clone, Copy, Drop)]
pub enum Standing {
    Reading,
    /// A block had this fault.
    Failed(HpackFault),
    /// Memory ran out inside a block, so the table no longer is the peer's.
    OutOfMemory,
}
