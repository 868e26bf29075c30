/// Where a link or a front stands: the connection, and the stream on it, 0 where it is by CONNECT.
#[derive(Clone, Copy, Debug, PartialEq, Eq)]
pub struct Place {
    pub conn: u64,
    pub stream: u32,
}
