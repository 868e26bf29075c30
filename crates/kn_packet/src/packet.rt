use kn_io::{Blob, Text};

/// A packet between the server and an agent, or between a client and the server. `random` is the number by
/// which the asker of a dial knows its answer, `connect_id` the number of the connection that came of it.
#[derive(Drop)]
pub enum Packet {
    /// Asks for a connection to an address.
    DialReq {
        protocol: Text,
        address: Text,
        random: i64,
    },
    /// Answers a dial: with a connection, or with an error and the connection 0.
    DialRsp {
        error: Text,
        connect_id: i64,
        random: i64,
    },
    /// Asks that a connection be closed.
    CloseReq {
        connect_id: i64,
    },
    /// Tells that a connection is closed.
    CloseRsp {
        error: Text,
        connect_id: i64,
    },
    /// Bytes of a connection.
    Data {
        connect_id: i64,
        error: Text,
        bytes: Blob,
    },
    /// Takes a dial back whose answer has not come.
    DialCls {
        random: i64,
    },
    /// An agent asks for no further dials.
    Drain,
    /// A packet of a type that this implementation does not know.
    Other {
        number: u32,
    },
}
