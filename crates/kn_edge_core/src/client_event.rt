use kn_io::{Blob, Text};
use kn_packet::Packet;

/// What happens at a client. An app is the connection of someone who asked for an address; each has a number.
#[derive(Drop)]
pub enum ClientEvent {
    /// An app asks for an address, with a number above those of all earlier apps and at most 2^63 − 2.
    AppUp { app: u64, address: Text },
    /// An app sent bytes.
    AppBytes { app: u64, bytes: Blob },
    /// An app sends no more.
    AppEnd { app: u64 },
    /// The connection of an app failed.
    AppFailed { app: u64 },
    /// An app took so many of the bytes that were to be written to it.
    AppWrote { app: u64, count: usize },
    /// A packet came from the server.
    Packet(Packet),
    /// The stream to the server ended, and why.
    StreamEnded { error: Text },
}

/// What a client gives out.
#[derive(Drop)]
pub enum ClientOut {
    /// A packet goes to the server.
    ToServer(Packet),
    /// Bytes are to be written to an app.
    ToApp { app: u64, bytes: Blob },
    /// An app's tunnel is over, with an error or the empty text.
    EndApp { app: u64, error: Text },
}
