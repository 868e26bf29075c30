use crate::Gate;
use kn_io::Blob;

/// What comes to a port in memory. Each wait takes one.
#[derive(Drop)]
pub enum Tick {
    /// A connection comes to the gate.
    Arrive(Gate),
    /// Bytes come on a connection.
    Bytes { conn: u64, bytes: Blob },
    /// No more bytes come on a connection.
    End(u64),
    /// A connection takes so many more bytes.
    Room { conn: u64, room: usize },
    /// A connection that was begun is up.
    Up(u64),
    /// A connection that was begun is refused.
    Refuse(u64),
    /// Reads of the connection fail.
    FailRead(u64),
    /// Writes of the connection fail.
    FailWrite(u64),
    /// The next accept at the gate fails.
    FailAccept(Gate),
    /// The next dial fails.
    FailDial,
    /// The wait fails.
    FailWait,
}
