use crate::rounds::Rounds;
use crate::socket::TRIES;
use kn_port::{Gate, Ready};
use mio::net::{TcpListener, TcpStream};
use mio::{Interest, Registry, Token};
use std::io;
use std::io::ErrorKind;

// After so many waits an accept that failed is tried again, though the waits had other things to tell.
const STARVED_WAITS: u64 = 256;

/// A gate that takes connections.
#[derive(Drop)]
pub(crate) struct Listener {
    pub(crate) gate: Gate,
    pub(crate) inner: TcpListener,
    pub(crate) rounds: Rounds,
    /// The wait behind which an accept failed, though a connection may stand at the gate. The system does not
    /// name the gate again by itself.
    pub(crate) starved: Option<u64>,
}

// The tokens of gates stand at the top, those of connections are their numbers.
pub(crate) fn gate_token(gate: Gate) -> Token {
    match gate {
        Gate::Agents => Token(usize::MAX),
        Gate::Clients => Token(usize::MAX - 1),
        Gate::Connect => Token(usize::MAX - 2),
        Gate::Apps => Token(usize::MAX - 3),
    }
}

pub(crate) fn named(token: Token) -> Ready {
    for gate in [Gate::Agents, Gate::Clients, Gate::Connect, Gate::Apps] {
        if gate_token(gate) == token {
            return Ready::Gate(gate);
        }
    }
    Ready::Conn(token.0 as u64)
}

impl Listener {
    pub(crate) fn new(gate: Gate, inner: TcpListener) -> Listener {
        Listener {
            gate,
            inner,
            rounds: Rounds::new(),
            starved: None,
        }
    }

    /// The next connection, or `None` where none waits.
    pub(crate) fn take(&self) -> io::Result<Option<TcpStream>> {
        for _ in 0..TRIES {
            match self.inner.accept() {
                Ok((stream, _)) => return Ok(Some(stream)),
                Err(error) if error.kind() == ErrorKind::WouldBlock => return Ok(None),
                Err(error) if error.kind() == ErrorKind::Interrupted => {}
                Err(error) => return Err(error),
            }
        }
        Err(io::Error::from(ErrorKind::Interrupted))
    }

    /// Has the system name the gate again where a connection stands at it. The mark goes only where that went
    /// well.
    pub(crate) fn renew(&mut self, registry: &Registry, wait: u64) {
        let token = gate_token(self.gate);
        self.starved = match registry.reregister(&mut self.inner, token, Interest::READABLE) {
            Ok(()) => None,
            Err(_) => Some(wait),
        };
    }

    /// Whether an accept failed so many waits ago that it is to be tried again.
    pub(crate) fn starved_long(&self, wait: u64) -> bool {
        match self.starved {
            Some(since) => wait.saturating_sub(since) >= STARVED_WAITS,
            None => false,
        }
    }
}
