// Agents, the server and clients in one process, with packets in flight between them. Events of a script act on
// them, packets go from end to end, and what each side sent and got can be read.
#![tactic(auto)]

mod agent_steps;
mod agents;
mod answering;
mod app_steps;
mod apps;
mod arrivals;
mod client_steps;
mod clients;
mod dials;
mod doors;
mod effects;
mod event;
mod flow;
mod handing;
mod hearing;
mod idle;
mod laws;
mod numbered;
mod numbers;
mod packets;
mod parts;
mod pieces;
mod pipes;
mod server_packets;
mod server_steps;
mod state;
mod views;
mod world;

pub use event::{AppPhase, DialPhase, Pipe, Seen, WorldEvent};
pub use laws::dials_go_where_picked;
pub use world::{Tables, World};

#[cfg(test)]
mod tests;
