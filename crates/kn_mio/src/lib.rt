// A port over the sockets of the system.
#![tactic(auto)]

mod gates;
mod port;
mod rounds;
mod socket;
mod trouble;

pub use port::MioPort;

#[cfg(test)]
mod tests;
