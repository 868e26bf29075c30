ghost use Rattle.std.specs.Prelude.{◌≡◌, ◌==◌, ◌≤◌, ◌||◌, [], length, is_some, IfOk, MatchOption, None};
ghost use Rattle.kn_grpc.specs.Fronts.{front_seen};
ghost use Rattle.kn_grpc.specs.Readers.{Whole, first_message, message_in, start, popped, IsFed};

use crate::body::Body;
use crate::head::Head;
use crate::state::{self, State};
use crate::{Front, MessageError};
use std::alloc::Global;
use std::marker::Model;

/// Reads the messages of one stream, in whatever pieces its bytes come, and holds at most one of them.
#[derive(Drop)]
pub struct Messages {
    state: State,
}

impl Model for Messages {
    ghost use Rattle.std.specs.Prelude.{◌≡◌, true};
    ghost use Rattle.kn_grpc.specs.Readers.{Reading};

    ghost Value = { Reading };

    ghost use Rattle.kn_grpc.specs.Stored.{seen, is_sound};

    ghost view = { λ m. seen m.state };

    ghost invariant = { λ m. is_sound m.state ≡ true };
}

impl Messages {
    /// A reader before the first byte. Takes no memory.
    pub fn new(alloc: Global) -> Messages
        ensures { result ≡ start }
    {
        Messages {
            state: State {
                head: Head::new(),
                body: Body::new(alloc),
                offset: 0,
            },
        }
    }

    /// Takes bytes up to the end of a message, and answers how many it took. After a fault each further
    /// call answers it again. An `Err` of want of memory changes nothing.
    pub fn feed(&mut self, piece: &[u8]) -> Result<usize, MessageError>
        ensures fed { IsFed result self.old self.new piece.now }
        ensures within { IfOk result (λ n. n ≤ length piece.now) }
        ensures nothing { IfOk result (λ n. (n == 0) ≡ (is_some (message_in (first_message self.old.kept)) || (length piece.now == 0))) }
    {
        state::feed(&mut self.state, piece)
    }

    /// The message that is held whole, without the five bytes before it. Takes no memory.
    pub fn whole(&self) -> Option<&[u8]>
        ensures { MatchOption result (message_in (first_message self.now.kept) ≡ None) (λ m. first_message self.now.kept ≡ Whole m.now []) }
    {
        if state::is_whole(&self.state) {
            Some(self.state.body.as_slice())
        } else {
            None
        }
    }

    /// What stands at the front of what is kept: less than a message, one that is lent whole, or why no message
    /// begins so. Takes no memory.
    pub fn first(&self) -> Front<'_>
        ensures { front_seen result ≡ first_message self.now.kept }
    {
        state::first(&self.state)
    }

    /// No byte of a message is kept.
    pub fn is_empty(&self) -> bool
        ensures { result ≡ (length self.now.kept == 0) }
    {
        state::is_empty(&self.state)
    }

    /// Drops the message that is held whole, if one is. Takes no memory.
    pub fn pop(&mut self, alloc: Global)
        ensures { self.new ≡ popped self.old }
    {
        if state::is_whole(&self.state) {
            state::clear(&mut self.state, alloc);
        }
    }
}
