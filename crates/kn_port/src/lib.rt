// What a program knows of its network: gates that take connections, connections, and a wait for either.
#![tactic(auto)]

mod entry;
mod gates;
mod inbox;
mod journal;
mod mem_line;
mod mem_net;
mod mem_port;
mod names;
mod noting;
mod numbered;
mod port;
#[cfg(test)]
mod tests;
mod tick;
mod ticks;
mod woken;

pub use entry::Entry;
pub use mem_port::MemPort;
pub use names::{Accepted, DialEnd, Dialled, Gate, Listened, PortGot, Ready, Took, Waited};
pub use port::Port;
pub use tick::Tick;
pub use woken::Woken;
