use crate::purpose::Purpose;
use kn_h2_state::ByteQueue;

/// The connection of a destination. One that is to be closed is kept no longer.
#[derive(Drop)]
pub struct Side {
    pub purpose: Purpose,
    /// Bytes that wait to be written to the destination.
    pub out: ByteQueue,
}
