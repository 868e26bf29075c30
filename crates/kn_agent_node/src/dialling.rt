/// How far a dial came that the agent's core asked for.
#[derive(Clone, Copy, Debug, PartialEq, Eq)]
pub enum Dialling {
    /// It waits to be handed out.
    Listed,
    /// It was handed out, and neither began nor was refused.
    HandedOut,
    /// It is under way on this connection.
    Began { conn: u64 },
}
