//! The answer to a front's bytes: a walk through the head, and a reading of it where the walk stops.
ghost use Rattle.std.specs.Prelude.{◌≡◌, ℕ, ◌<◌, ◌≤◌, List, [], ◌++◌, length, IfOk};
ghost use Rattle.kn_connect.specs.Answers.{Answers};
ghost use Rattle.kn_connect.specs.Heads.{IsUnfinished, IsDecided};
ghost use Rattle.kn_connect.specs.Readings.{Reads};
ghost use Rattle.kn_connect.specs.Fronts.{IsSound, IsCut, OnMore, IsStillOpen};

use crate::reading::{Reading, read};
use crate::walk::{Place, walk};
use crate::{ConnectAnswer, ConnectError, ConnectFault};
use kn_io::{Blob, NoMemory};
use std::alloc::Global;

/// A head ends within so many bytes.
pub const HEAD_LIMIT: usize = 8_192;

/// What a front holds.
#[derive(Drop)]
pub struct State {
    pub bytes: Blob,
    /// Where they end in a head.
    pub place: Place,
}

impl State {
    pub fn new(alloc: Global) -> State
        ensures sound { IsSound result }
        ensures bytes { result.bytes ≡ [] }
    {
        State {
            bytes: Blob::new(alloc),
            place: Place::Empty { half: false },
        }
    }
}

/// From now on nothing is held.
pub fn forget(state: &mut State, alloc: Global)
    ensures sound { IsSound state.new }
    ensures bytes { state.new.bytes ≡ [] }
{
    *state = State::new(alloc);
}

/// Holds the front of a piece, and answers to all bytes so far. What is beyond it lies past the first 8,192.
pub fn decide(
    state: &mut State,
    alloc: Global,
    front: &[u8],
    beyond: &[u8],
) -> Result<ConnectAnswer, ConnectError>
    requires sound { IsSound state.old }
    requires cut { IsCut (state.old.bytes ++ front.now) beyond.now }
    ensures answer { Answers ((state.old.bytes ++ front.now) ++ beyond.now) result }
    ensures held { IsStillOpen result (state.old.bytes ++ front.now) beyond.now state.new }
{
    let from = state.bytes.len();
    match state.bytes.append(front) {
        Ok(()) => match walk(state.bytes.as_slice(), from, state.place) {
            Some(place) => {
                state.place = place;
                answer_unfinished(state.bytes.as_slice())
            }
            None => answer_decided(state.bytes.as_slice(), alloc, beyond),
        },
        Err(_error) => Err(ConnectError::NoMemory),
    }
}

/// The answer to bytes whose head is not whole, and may become so.
fn answer_unfinished(bytes: &[u8]) -> Result<ConnectAnswer, ConnectError>
    requires head { IsUnfinished bytes.now }
    requires limit { length bytes.now ≤ 8192 }
    ensures answer { (beyond : List ℕ) → IsCut bytes.now beyond → Answers (bytes.now ++ beyond) result }
    ensures more { OnMore result (length bytes.now < 8192) }
{
    if bytes.len() == HEAD_LIMIT {
        return Err(ConnectError::Fault(ConnectFault::TooLong));
    }
    Ok(ConnectAnswer::More)
}

/// The answer to bytes that begin with a whole head or never will.
fn answer_decided(bytes: &[u8], alloc: Global, beyond: &[u8]) -> Result<ConnectAnswer, ConnectError>
    requires head { IsDecided bytes.now }
    requires cut { IsCut bytes.now beyond.now }
    ensures answer { Answers (bytes.now ++ beyond.now) result }
    ensures more { OnMore result ⊥ }
{
    match read(alloc, bytes) {
        Ok(Reading::Connect { target, len }) => match early_bytes(alloc, &bytes[len..], beyond) {
            Ok(early) => Ok(ConnectAnswer::Head { target, early }),
            Err(_error) => Err(ConnectError::NoMemory),
        },
        Ok(Reading::Other) => Err(ConnectError::Fault(ConnectFault::NotConnect)),
        Ok(Reading::Never) => Err(ConnectError::Fault(ConnectFault::BadHead)),
        Err(_error) => Err(ConnectError::NoMemory),
    }
}

/// The bytes after a head.
fn early_bytes(alloc: Global, rest: &[u8], beyond: &[u8]) -> Result<Blob, NoMemory>
    ensures { IfOk result (λ blob. blob ≡ rest.now ++ beyond.now) }
{
    let mut early = Blob::of(alloc, rest)?;
    early.append(beyond)?;
    Ok(early)
}
