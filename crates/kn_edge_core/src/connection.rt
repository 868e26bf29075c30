/// Whether a connection carries data, or is to be closed once all is written.
#[derive(Clone, Copy, Debug, PartialEq, Eq)]
pub enum DestState {
    Open,
    Lingering,
}

/// A connection of an agent to a destination.
#[derive(Clone, Copy, Debug, PartialEq, Eq)]
pub struct Connection {
    /// The number that the agent drew for it.
    pub connect_id: u64,
    pub state: DestState,
    /// How many bytes are still to be written to the destination.
    pub unwritten: usize,
}
