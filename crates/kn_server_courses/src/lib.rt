// The server node over all calls from the start: what may wait for a front; and what a call leaves.
#![tactic(auto)]

mod laws;

pub use laws::{
    calls_are_deeds, no_packet_for_a_front_is_ever_dropped, only_pauses_hold_what_is_whole,
};
