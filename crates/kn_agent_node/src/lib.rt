// The agent node: a connection of HTTP/2 to the server, the connections of destinations, and the agent's core.
#![tactic(auto)]

mod agent_node;
mod announced;
mod answers;
mod arrival;
mod calls;
mod destinations;
mod dialling;
mod dials;
mod handing;
mod handling;
mod hearing;
mod node;
mod outputs;
mod purpose;
mod request;
mod requests;
mod sending;
mod settling;
mod side;
mod starting;
mod stirring;
mod waiting;

pub use agent_node::AgentNode;
pub use dialling::Dialling;
pub use node::Node;
pub use purpose::Purpose;
pub use request::Request;
pub use requests::Requests;
pub use side::Side;
