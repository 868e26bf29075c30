use crate::connections::Connections;
use crate::dials::Dials;

/// All that an agent knows. A definition of a rule takes it and gives it.
#[derive(Drop)]
pub struct AgentState {
    /// The dials that it makes.
    pub dials: Dials,
    /// The connections to its destinations.
    pub connections: Connections,
    /// The number that the next dial draws.
    pub next_ticket: u64,
    /// The number that the next connection draws.
    pub next_connect_id: u64,
    /// Whether it asked for no further dials.
    pub drained: bool,
    /// Whether its link to the server was lost.
    pub lost: bool,
}
