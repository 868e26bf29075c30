// The server without its sockets: what it does with each event of a link or a front, and what it gives out.
#![tactic(auto)]

mod choice;
mod choose;
mod cut;
mod dials;
mod event;
mod front_packets;
mod fronts;
mod isolation;
mod link_packets;
mod losses;
mod outs;
mod server;
mod state;
#[cfg(test)]
mod tests;

pub use choice::Choice;
pub use event::{ServerEvent, ServerOut};
pub use fronts::Fronts;
pub use isolation::{
    front_events_stay_with_their_front, link_events_stay_with_their_link, others_end_no_tunnel,
    states_are_orderly, tunnels_carry_their_own_bytes,
};
pub use server::ServerCore;
pub use state::State;
