/// What a server's connection is for.
#[derive(Clone, Copy, Debug, PartialEq, Eq)]
pub enum ServerKind {
    /// Its streams are calls of agents, which are links.
    Agents,
    /// Its streams are calls of clients, which are fronts.
    Clients,
    /// It asks for one tunnel by CONNECT, and is one front.
    Connect,
}
