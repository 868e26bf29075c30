// What a call of the agent's node, and of the client's, leaves of what stands whole.
#![tactic(auto)]

mod laws;

pub use laws::only_pauses_hold_what_is_whole;
