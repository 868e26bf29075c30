//! The packet world: server, agents and clients by their definitions, lists of packets between them, and all that may happen.
//! It has no code that runs: its functions are laws, and the worlds that run take its moves alone.
#![tactic(auto)]

mod agent_laws;
mod app_laws;
mod client_key_laws;
mod client_laws;
mod headline;
mod key_laws;
mod laws;
mod server_key_laws;

pub use agent_laws::{
    agent_dials_lift, agent_keeps_keys, agent_losses_lift, agent_takes_lifts,
    destinations_keep_keys, destinations_lift,
};
pub use app_laws::{apps_lift, client_losses_lift};
pub use client_key_laws::clients_keep_keys;
pub use client_laws::{
    client_takes_answers_and_bytes, client_takes_packets_lift, connections_lift,
    numbers_and_bounds_are_unseen, streams_lift,
};
pub use headline::{
    connections_are_accounted_for, delivered_is_a_prefix, everything_holds, no_link_is_cut,
    phases_hold, quiet_closed_worlds_are_empty,
};
pub use key_laws::{connections_keep_keys, keys_hold_at_the_start};
pub use laws::{
    server_comings_and_losses_lift, server_takes_dial_request_lifts, server_takes_packets_lift,
};
pub use server_key_laws::server_keeps_keys;
