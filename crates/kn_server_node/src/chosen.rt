use kn_server_core::Choice;

/// A choice of a link that the core made, and whose dial it is for.
#[derive(Drop)]
pub struct Chosen {
    /// The connection on which the front stands, if it stands on one.
    pub conn: Option<u64>,
    /// Who asked for the dial.
    pub front: u64,
    /// The number that the front gave its dial.
    pub random: i64,
    /// The host, the dial's number, the links that were up, and which one was picked.
    pub choice: Choice,
}
