use kn_io::Text;
use kn_route::Strategies;

/// What the words of `server` ask for.
#[derive(Drop)]
pub struct ServerOptions {
    /// Where agents connect.
    pub agents: Text,
    /// Where clients connect.
    pub clients: Text,
    /// Where requests of CONNECT come, if anywhere.
    pub connect: Option<Text>,
    /// By what an agent is chosen for a dial.
    pub strategies: Strategies,
    /// The name of this server.
    pub id: Text,
    /// After how many tunnels it ends; 0 is never.
    pub tunnels: u64,
    /// After how many turns it ends; 0 is never.
    pub turns: u64,
}

/// What the words of `agent` ask for.
#[derive(Drop)]
pub struct AgentOptions {
    /// The server that it connects to.
    pub server: Text,
    /// The name of this agent.
    pub id: Text,
    /// What it tells the server of itself.
    pub identifiers: Text,
    /// After how many dials it asks for no more; 0 is never.
    pub drain: u64,
    /// After how many tunnels it ends; 0 is never.
    pub tunnels: u64,
    /// After how many turns it ends; 0 is never.
    pub turns: u64,
}

/// What the words of `client` ask for.
#[derive(Drop)]
pub struct ClientOptions {
    /// The server that it connects to.
    pub server: Text,
    /// Where apps connect.
    pub listen: Text,
    /// The destination of their tunnels.
    pub address: Text,
    /// After how many tunnels it ends; 0 is never.
    pub tunnels: u64,
    /// After how many turns it ends; 0 is never.
    pub turns: u64,
}

/// What the words of a command that uses the network ask for.
#[derive(Drop)]
pub enum Options {
    Server(ServerOptions),
    Agent(AgentOptions),
    Client(ClientOptions),
}
