// The loop between a port and a node: turns that wait, or read, write, accept, dial and shut.
#![tactic(auto)]

mod accepts;
mod awake;
mod course;
mod dials;
mod first;
mod gates;
mod line;
mod lines;
mod node;
mod running;
mod sweeping;
#[cfg(test)]
mod tests;
mod turn;
mod turning;
mod visits;
mod watch;

pub use awake::Awake;
pub use course::Course;
pub use first::listen_at;
pub use gates::{GateState, Gates};
pub use line::Line;
pub use node::Node;
pub use running::{CONNECTION_LIMIT, READ_ROOM, Running};
pub use turn::Turn;
