//! What the packets of a list that many tunnels share are to each one of them.
//! It has no code that runs: its functions are laws of these words, and the crates above speak by its definitions.
#![tactic(auto)]

mod laws;

pub use laws::{
    each_gets_its_own, first_is_taken, from_agent, from_stream, fronts_of_lists,
    new_numbers_are_nowhere, order_is_kept, own_packets_are_found, parts_are_joined,
    requests_are_joined, to_agent, to_stream, words_are_joined, words_of_lists, words_tell_packets,
};
