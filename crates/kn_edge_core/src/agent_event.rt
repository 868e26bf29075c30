use kn_io::{Blob, Text};
use kn_packet::Packet;

/// What happens at an agent. A ticket is the number of a dial that it makes, a connectID that of a connection
/// to a destination.
#[derive(Drop)]
pub enum AgentEvent {
    /// A packet came from the server.
    Packet(Packet),
    /// A dial won its connection.
    DialUp { ticket: u64 },
    /// A dial failed.
    DialRefused { ticket: u64 },
    /// A destination sent bytes.
    DestBytes { connect_id: i64, bytes: Blob },
    /// A destination sends no more.
    DestEnd { connect_id: i64 },
    /// A destination took so many of the bytes that were to be written to it.
    DestWrote { connect_id: i64, count: usize },
    /// The connection to a destination failed.
    DestFailed { connect_id: i64 },
    /// The link to the server ended or was lost.
    LinkLost,
    /// The agent is to ask for no further dials.
    DrainNow,
}

/// What an agent gives out.
#[derive(Drop)]
pub enum AgentOut {
    /// A packet goes to the server.
    ToServer(Packet),
    /// An address is to be dialled.
    Dial { ticket: u64, address: Text },
    /// Bytes are to be written to a destination.
    Write { connect_id: i64, bytes: Blob },
    /// The connection to a destination is to be closed.
    CloseDest { connect_id: i64 },
    /// A dial is to be given up, and what it won to be closed.
    DropDial { ticket: u64 },
}
