/// When a program ends, and how far it is.
#[derive(Clone, Copy, Debug, PartialEq, Eq)]
pub struct Course {
    /// It is done after so many tunnels. 0: it never is.
    pub tunnels: u64,
    /// It ends at this turn. 0: it goes on.
    pub turns: u64,
    /// The number of the turn, from 1. It stands still at 2^64 - 1.
    pub turn: u64,
}
