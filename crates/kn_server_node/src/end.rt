use crate::door::Door;
use kn_ends::Carrier;

/// A connection of the server.
#[derive(Drop)]
pub enum End {
    /// One of HTTP/2, whose calls are all agents' or all clients'.
    Streams { for_agents: bool, carrier: Carrier },
    /// One by CONNECT.
    Connect { door: Door },
}
