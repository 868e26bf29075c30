// The server node: connections of HTTP/2 whose streams carry packets, connections by CONNECT, and the
// server's core.
#![tactic(auto)]

mod at;
mod callers;
mod candidate;
mod choices;
mod choosing;
mod choosing_links;
mod chosen;
mod connecting;
mod connections;
mod door;
mod doors;
mod end;
mod front;
mod handling;
mod hearing;
mod kind;
mod laws;
mod limits;
mod loss;
mod losses;
mod node;
mod notes;
mod numbers;
mod one;
mod outputs;
mod pauses;
mod place;
mod places;
mod server_node;
mod settling;
mod standing;
mod task;

pub use choices::Choices;
pub use chosen::Chosen;
pub use connections::Connections;
pub use door::Door;
pub use end::End;
pub use kind::ServerKind;
pub use laws::{
    bad_links_end_no_other_tunnel, bytes_stay_in_tunnels, calls_are_heard,
    calls_note_their_choices, no_packet_for_a_front_is_dropped,
};
pub use loss::Loss;
pub use losses::Losses;
pub use node::Node;
pub use place::Place;
pub use places::Places;
pub use server_node::ServerNode;
