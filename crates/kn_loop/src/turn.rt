/// What came of a turn.
#[derive(Clone, Copy, Debug, PartialEq, Eq)]
pub enum Turn {
    /// There may be another one.
    More,
    /// As many tunnels ended as were asked for, and nothing is left to write.
    Done,
    /// This was the turn of the number that was asked for.
    Bound,
    /// A gate could not be opened.
    BindFault,
    /// The port could not wait.
    WaitFault,
    /// The server of an agent or client is lost.
    ServerLost,
    NoMemory,
}
