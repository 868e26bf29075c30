use kn_connect::ConnectFront;
use kn_h2_state::ByteQueue;
use kn_io::Blob;

/// A connection that asks for one tunnel by CONNECT.
#[derive(Drop)]
pub struct Door {
    /// The bytes of the head, until it is whole.
    pub head: ConnectFront,
    /// The front that it is, once its head is whole.
    pub front: Option<u64>,
    /// The connectID of its tunnel, once it is open.
    pub dial: Option<i64>,
    /// Bytes for the tunnel that were not handled.
    pub early: Blob,
    /// Bytes that wait for the socket.
    pub out: ByteQueue,
    /// The status of the reply, or 0 before it.
    pub status: u32,
    /// It is to be closed once `out` is empty.
    pub shuts: bool,
    /// It was lost.
    pub lost: bool,
}
