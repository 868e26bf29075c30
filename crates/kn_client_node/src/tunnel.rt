/// The tunnel of an app that is on the client's list.
#[derive(Clone, Copy, Debug, PartialEq, Eq)]
pub struct Tunnel {
    /// The app's connection.
    pub conn: u64,
    /// The server replied to its dial without an error.
    pub up: bool,
}
