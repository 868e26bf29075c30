//! What the heads of own calls, of their answers and of their ends are to a connection of HTTP/2.
//! It has no code that runs: its functions are laws.
#![tactic(auto)]

mod laws;

pub use laws::{
    answers_are_heads, calls_are_requests, ends_are_trailers, heads_are_small,
    heads_stand_in_one_frame, own_heads_keep_faces,
};
