/// Whether a tunnel carries data, or its agent was asked to close it.
#[derive(Clone, Copy, Debug, PartialEq, Eq)]
pub enum HeldState {
    Open,
    Closing,
}

/// A tunnel: a connection at an agent, and the front that it belongs to, unless that one was lost.
#[derive(Clone, Copy, Debug, PartialEq, Eq)]
pub struct HeldEntry {
    /// The number of the dial that it came of, which its front has as connectID.
    pub dial: u64,
    pub link: u64,
    /// The number that the agent gave the connection, unique on its link.
    pub connect_id: i64,
    pub front: Option<u64>,
    pub state: HeldState,
}
