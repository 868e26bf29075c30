// The two ends of a tunnel without their sockets: what an agent does with each event of its server and its
// destinations, and what a client does with each event of its server and its apps.
#![tactic(auto)]

mod agent_changes;
mod agent_core;
mod agent_dials;
mod agent_event;
mod agent_fits;
mod agent_outs;
mod agent_state;
mod app;
mod app_changes;
mod app_events;
mod apps;
mod client_changes;
mod client_core;
mod client_event;
mod client_fits;
mod client_outs;
mod client_packets;
mod client_state;
mod connection;
mod connections;
mod destinations;
mod dial;
mod dials;
mod ids;
mod link_loss;
mod stream_end;

pub use agent_core::AgentCore;
pub use agent_event::{AgentEvent, AgentOut};
pub use agent_state::AgentState;
pub use app::{App, AppState};
pub use apps::Apps;
pub use client_core::ClientCore;
pub use client_event::{ClientEvent, ClientOut};
pub use client_state::ClientState;
pub use connection::{Connection, DestState};
pub use connections::Connections;
pub use dial::Dial;
pub use dials::Dials;

#[cfg(test)]
mod agent_tests;
#[cfg(test)]
mod client_tests;
