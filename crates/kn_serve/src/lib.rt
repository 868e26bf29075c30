// The turns of the three programs: their options, the first turn, the later ones, and turns until one ends.
#![tactic(auto)]

mod agent_begins;
mod agent_side;
mod client_begins;
mod client_side;
mod first;
mod server_begins;
mod server_side;
mod serving;

pub use agent_begins::run_as_agent;
pub use client_begins::run_as_client;
pub use kn_loop::Turn;
pub use server_begins::run_as_server;
