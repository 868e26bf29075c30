use crate::endings::Endings;
use crate::side::Side;
use crate::tunnel::Tunnel;
use kn_edge_core::ClientCore;
use kn_ends::{Carrier, PacketQueue};
use kn_io::Text;
use kn_rising::{Rising, Stirred};

/// All that the client node holds.
#[derive(Drop)]
pub struct Node {
    pub core: ClientCore,
    /// The number of the server's connection.
    pub server: u64,
    /// The server's connection.
    pub carrier: Carrier,
    /// What the heads of calls name as the server.
    pub authority: Text,
    /// The stream to the server, from the first app on that finds none until its end was handled.
    pub stream: Option<u32>,
    /// Packets for the stream that wait behind its full queue, as it carries them.
    pub behind: PacketQueue,
    /// The connections of apps by their numbers.
    pub sides: Rising<Side>,
    /// The tunnels of the apps on the client's list, by the numbers of the apps.
    pub by_app: Rising<Tunnel>,
    /// What was told to apps that left, and was not handed out yet.
    pub ended: Endings,
    /// The greatest number of a connection so far.
    pub top: u64,
    /// How many packets were handled.
    pub handled: u64,
    /// How many apps left the client's list.
    pub gone: u64,
    /// Connections of which what is to be written, or whether they are to be closed, may be other than it was when
    /// they were last taken out.
    pub stirred: Stirred,
}
