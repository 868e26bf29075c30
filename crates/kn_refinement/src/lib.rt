//! The world that runs, in the packet world: what its events do is done by moves of that world alone.
//! It has no code that runs: its functions are laws.
#![tactic(auto)]

mod agent_laws;
mod choice_laws;
mod client_laws;
mod connect_laws;
mod ends_laws;
mod laws;
mod named_laws;
mod quiet_laws;
mod refused_laws;
mod server_event_laws;
mod server_laws;
mod undialled_laws;

pub use agent_laws::{agents_lead, destinations_lead};
pub use choice_laws::{choices_decide, requests_go_where_picked};
pub use client_laws::{client_apps_lead, clients_lead};
pub use connect_laws::connects_lead;
pub use ends_laws::no_end_is_due;
pub use laws::{
    events_are_moves, sides_send_their_own_bytes, worlds_begin_alike, worlds_keep_their_promises,
};
pub use named_laws::choices_name_all_links;
pub use quiet_laws::quiet_worlds_are_at_rest;
pub use refused_laws::unanswered_apps_are_refused;
pub use server_event_laws::server_events_lead;
pub use server_laws::server_steps_are_moves;
pub use undialled_laws::{
    connect_apps_get_nothing_undialled, unanswered_apps_have_no_dial, undialled_apps_are_unopened,
};
