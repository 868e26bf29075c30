//! The turns of a world of agents, clients, apps and destinations, and that each of them is made of moves of the packet world.
//! It has no code that runs: its functions are laws.
#![tactic(auto)]

mod laws;

pub use laws::{runs_lead, turns_keep_promises, turns_lead};
