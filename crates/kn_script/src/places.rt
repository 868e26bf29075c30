// The fixed words that name a side, an end or a pipe.
ghost use Rattle.std.specs.Prelude.{◌≡◌};
ghost use Rattle.kn_script.specs.Words.{side_of, end_of, peer_of, direction_of};
ghost use Rattle.kn_script.specs.Script.{pipe_of};

use kn_world::Pipe;

/// A side of a tunnel.
#[derive(Clone, Copy)]
pub enum Side {
    App,
    /// The destination of a dial.
    Dest,
}

/// An end of a connection: of an agent's that of the server or the agent, of a client's the server's front or
/// the client.
#[derive(Clone, Copy)]
pub enum End {
    Server,
    Agent,
    Front,
    Client,
}

/// Who has a connection to the server.
#[derive(Clone, Copy)]
pub enum Peer {
    Agent,
    Client,
}

/// Up is towards the server.
#[derive(Clone, Copy)]
pub enum Direction {
    Up,
    Down,
}

/// The side that a word names, if it does.
pub fn side_of(word: &str) -> Option<Side>
    ensures { result ≡ side_of word.now }
{
    if word == "app" {
        Some(Side::App)
    } else if word == "dest" {
        Some(Side::Dest)
    } else {
        None
    }
}

/// The end that a word names, if it does.
pub fn end_of(word: &str) -> Option<End>
    ensures { result ≡ end_of word.now }
{
    if word == "server" {
        Some(End::Server)
    } else if word == "agent" {
        Some(End::Agent)
    } else if word == "front" {
        Some(End::Front)
    } else if word == "client" {
        Some(End::Client)
    } else {
        None
    }
}

/// Whose connection a word names, if it does.
pub fn peer_of(word: &str) -> Option<Peer>
    ensures { result ≡ peer_of word.now }
{
    if word == "agent" {
        Some(Peer::Agent)
    } else if word == "client" {
        Some(Peer::Client)
    } else {
        None
    }
}

/// The direction that a word names, if it does.
pub fn direction_of(word: &str) -> Option<Direction>
    ensures { result ≡ direction_of word.now }
{
    if word == "up" {
        Some(Direction::Up)
    } else if word == "down" {
        Some(Direction::Down)
    } else {
        None
    }
}

/// A direction of the connection with this number.
pub fn pipe_of(peer: Peer, direction: Direction, number: usize) -> Pipe
    ensures { result ≡ pipe_of peer direction number }
{
    match peer {
        Peer::Agent => match direction {
            Direction::Up => Pipe::AgentUp(number),
            Direction::Down => Pipe::AgentDown(number),
        },
        Peer::Client => match direction {
            Direction::Up => Pipe::ClientUp(number),
            Direction::Down => Pipe::ClientDown(number),
        },
    }
}
