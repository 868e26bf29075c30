use crate::dialling::Dialling;
use crate::requests::Requests;
use crate::side::Side;
use kn_edge_core::AgentCore;
use kn_ends::{Carrier, PacketQueue};
use kn_hpack::Headers;
use kn_rising::{Rising, Stirred};

/// All that the agent node holds.
#[derive(Drop)]
pub struct Node {
    pub core: AgentCore,
    /// The connection to the server. What it told and was not heard yet stays in it.
    pub carrier: Carrier,
    /// Its number.
    pub server: u64,
    /// The stream of the agent's call.
    pub stream: u32,
    /// The greatest number of a connection so far.
    pub top: u64,
    /// Packets as the stream carries them that wait behind its full queue, the next one first.
    pub behind: PacketQueue,
    /// The connections of destinations.
    pub sides: Rising<Side>,
    /// How far each dial came, by its ticket.
    pub by_ticket: Rising<Dialling>,
    /// The connection of each connectID.
    pub by_id: Rising<u64>,
    /// Dials that wait to be handed out, the next one first.
    pub dials: Requests,
    /// The link is to be lost.
    pub losing: bool,
    /// The head of the server's answer, once it came.
    pub answer: Option<Headers>,
    /// How many packets were handled.
    pub handled: u64,
    /// How many dial requests were handled.
    pub asked: u64,
    /// How many dials ended without a connection, and how many connections ended.
    pub gone: u64,
    /// Connections of which what is to be written, or whether they are to be closed, may be other than it was when
    /// they were last taken out.
    pub stirred: Stirred,
}
