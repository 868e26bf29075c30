ghost use Rattle.std.specs.Prelude.{◌≡◌, ◌<◌, [], ◌++◌, length};
ghost use Rattle.kn_connect.specs.Answers.{Answers, Holds};
ghost use Rattle.kn_connect.specs.Fronts.{IsSound};

use crate::deciding::{HEAD_LIMIT, State, decide, forget};
use crate::{ConnectAnswer, ConnectError};
use std::alloc::Global;
use std::marker::Model;

/// Reads the head of a CONNECT request (RFC 9110, section 9.3.6) from the bytes of a connection, in
/// whatever pieces they come. Contracts see it as the bytes that it holds: those of an unfinished head.
#[derive(Drop)]
pub struct ConnectFront {
    state: State,
}

impl Model for ConnectFront {
    ghost use Rattle.std.specs.Prelude.{ℕ, List};

    ghost Value = { List ℕ };

    ghost use Rattle.kn_connect.specs.Fronts.{IsSound};

    ghost view = { λ f. f.state.bytes };

    ghost invariant = { λ f. IsSound f.state };
}

impl ConnectFront {
    /// A front before the first byte. Takes no memory.
    pub fn new(alloc: Global) -> ConnectFront
        ensures { result ≡ [] }
    {
        ConnectFront {
            state: State::new(alloc),
        }
    }

    /// Reads the next bytes of the connection. The first 8,192 bytes of a connection alone decide the
    /// answer, however they are cut into pieces. After any answer but `More` nothing is held: the front
    /// is as a new one.
    pub fn feed(&mut self, alloc: Global, piece: &[u8]) -> Result<ConnectAnswer, ConnectError>
        ensures answer { Answers (self.old ++ piece.now) result }
        ensures held { Holds result (self.old ++ piece.now) self.new }
    {
        let room = HEAD_LIMIT - self.state.bytes.len();
        let (front, beyond) = piece.split_at(room.min(piece.len()));
        match decide(&mut self.state, alloc, front, beyond) {
            Ok(ConnectAnswer::More) => Ok(ConnectAnswer::More),
            Ok(ConnectAnswer::Head { target, early }) => {
                forget(&mut self.state, alloc);
                Ok(ConnectAnswer::Head { target, early })
            }
            Err(error) => {
                forget(&mut self.state, alloc);
                Err(error)
            }
        }
    }

    /// The number of bytes that are held: below 8,192.
    pub fn held(&self) -> usize
        ensures value { result ≡ length self.now }
        ensures bound { result < 8192 }
    {
        self.state.bytes.len()
    }
}
