// The client node: the connection to the server, whose one stream carries packets, the connections of apps, and
// the client's core.
#![tactic(auto)]

mod answers;
mod apps;
mod arrival;
mod calls;
mod client_node;
mod coming;
mod ending;
mod endings;
mod handling;
mod hearing;
mod node;
mod outputs;
mod sending;
mod settled;
mod settling;
mod side;
mod stirring;
mod texts;
mod tunnel;
mod waiting;

pub use arrival::Arrival;
pub use client_node::ClientNode;
pub use ending::Ending;
pub use endings::Endings;
pub use node::Node;
pub use side::Side;
pub use tunnel::Tunnel;
