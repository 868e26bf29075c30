use crate::fronts::Fronts;
use kn_route::{Links, Strategies};
use kn_tables::{Awaited, Held};

/// All that the server knows. A definition of a rule takes it and gives it.
#[derive(Drop)]
pub struct State {
    /// How a dial finds its link.
    pub strategies: Strategies,
    pub links: Links,
    pub fronts: Fronts,
    /// The dials that no agent has answered yet.
    pub awaited: Awaited,
    /// The tunnels that are open or closing.
    pub held: Held,
    /// The number that the next dial draws.
    pub next_dial: u64,
}
