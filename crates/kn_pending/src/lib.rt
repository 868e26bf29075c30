//! What of a stream is pending between two ends of a connection, and the packets that it is made of.
//! It has no code that runs: its functions are laws.
#![tactic(auto)]

mod laws;

pub use laws::{facing_delivers, lists_stand_to_bytes, packets_on_their_way, pending_moves};
