use kn_io::{Blob, Text};

/// One direction of a connection: `Up` is towards the server. Agents and clients are named by their numbers.
#[derive(Clone, Copy, Debug, PartialEq, Eq)]
pub enum Pipe {
    AgentUp(usize),
    AgentDown(usize),
    ClientUp(usize),
    ClientDown(usize),
}

/// What a line of a script does to a world. Agents, clients and apps are numbered from 1 in the order in
/// which they are made, dials by the server from 1.
#[derive(Drop)]
pub enum WorldEvent {
    /// An agent comes, with these identifiers, and its link is up. Where they cannot be read nothing happens.
    Agent { identifiers: Text },
    /// A client comes.
    Client,
    /// An app at a client asks for a connection to an address.
    App { client: usize, address: Text },
    /// An app asks for a connection to an address by CONNECT.
    Connect { address: Text },
    /// An app writes these bytes where a CONNECT request is expected.
    Raw { bytes: Blob },
    /// An agent's dial succeeds.
    Up { dial: u64 },
    /// An agent's dial is refused.
    Refuse { dial: u64 },
    /// An app sends bytes.
    Send { app: usize, bytes: Blob },
    /// The destination of a dial sends bytes.
    Answer { dial: u64, bytes: Blob },
    /// An app ends its sending.
    End { app: usize },
    /// The destination of a dial ends its sending.
    Hang { dial: u64 },
    /// A write to the destination of a dial fails.
    Fail { dial: u64 },
    /// An agent asks for no further dials.
    Drain { agent: usize },
    /// The destination of a dial takes nothing from now on.
    HoldDest { dial: u64 },
    /// An app takes nothing from now on.
    HoldApp { app: usize },
    /// A held destination takes at most so many bytes.
    TakeDest { dial: u64, count: u64 },
    /// A held app takes at most so many bytes.
    TakeApp { app: usize, count: u64 },
    /// A destination takes freely again.
    GoDest { dial: u64 },
    /// An app takes freely again.
    GoApp { app: usize },
    /// The server loses the connection of an agent.
    LoseServer { agent: usize },
    /// An agent loses its connection to the server.
    LoseAgent { agent: usize },
    /// The server loses the connection of a client.
    LoseFront { client: usize },
    /// A client loses its connection to the server.
    LoseClient { client: usize },
    /// The first packet of a pipe is delivered.
    Step { pipe: Pipe },
    /// What is in flight is delivered, in at most so many rounds.
    Pass { rounds: u64 },
}

/// Whether an event did anything.
#[derive(Clone, Copy, Debug, PartialEq, Eq)]
pub enum Seen {
    Moved,
    Idle,
}

/// How far an app has come.
#[derive(Clone, Copy, Debug, PartialEq, Eq)]
pub enum AppPhase {
    Dialling,
    Open,
    Closing,
    Lingering,
    Refused,
    Ended,
}

/// How far a dial has come, by the agent of its link: `Asked` where the agent has not handled the request.
#[derive(Clone, Copy, Debug, PartialEq, Eq)]
pub enum DialPhase {
    Asked,
    Dialling,
    Open,
    Lingering,
    Ended,
}
