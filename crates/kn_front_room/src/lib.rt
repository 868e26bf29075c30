// How much may wait for a front of the server, whatever agents and clients send.
#![tactic(auto)]

mod laws;

pub use laws::{front_room_is_kept, messages_are_short};
