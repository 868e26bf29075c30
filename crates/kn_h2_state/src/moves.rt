/// What may be written where there is room for it.
#[derive(Clone, Copy, Debug, PartialEq, Eq)]
pub enum Move {
    /// The WINDOW_UPDATE of the connection.
    GrantAll,
    /// The WINDOW_UPDATE of a stream.
    Grant { stream: u32 },
    /// The first bytes of a stream's queue, as DATA.
    Send { stream: u32, count: u32 },
    /// The frames that end this end's half of a stream.
    End { stream: u32 },
    /// The RST_STREAM that follows the end of this end's half.
    Stop { stream: u32 },
}
