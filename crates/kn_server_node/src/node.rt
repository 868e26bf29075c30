use crate::choices::Choices;
use crate::connections::Connections;
use crate::losses::Losses;
use crate::place::Place;
use crate::places::Places;
use kn_ends::Told;
use kn_io::Text;
use kn_rising::{Rising, Stirred};
use kn_server_core::ServerCore;

/// All that the server node holds.
#[derive(Drop)]
pub struct Node {
    pub core: ServerCore,
    /// The connections by number.
    pub ends: Connections,
    /// The greatest number that a connection had.
    pub top: u64,
    /// Where each link and front stands.
    pub links: Rising<Place>,
    pub fronts: Rising<Place>,
    /// Places of those that were lost, and whose stream may still be open.
    pub past_links: Places,
    pub past_fronts: Places,
    /// What connections told, the next one first.
    pub told: Told,
    /// Losses that follow from what was done, the next one first.
    pub todo: Losses,
    /// Connections of which something else may have to be told.
    pub stirred: Stirred,
    /// How many packets were handled.
    pub handled: u64,
    /// How many fronts ended.
    pub gone: u64,
    /// Choices of links that were not handed out yet, the first in front.
    pub choices: Choices,
    /// The server's own id.
    pub id: Text,
    /// How many servers stand behind the address, as agents are told.
    pub count: u32,
}
