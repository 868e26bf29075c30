ghost use Rattle.std.specs.Prelude.{◌≡◌, ◌+◌, ◌≤◌, ◌<◌, ◌==◌, [], ◌++◌, true, length, take, drop, IfOk, IfErr, OnErr, is_some, IsTrue, None};
ghost use Rattle.kn_grpc.specs.Readers.{Whole, first_message, message_in, taken, reason_in, wants_head, IsFed, popped};
ghost use Rattle.kn_grpc.specs.Fronts.{front_seen};
ghost use Rattle.kn_grpc.specs.Stored.{seen, is_sound};

use crate::body::Body;
use crate::head::{self, Head};
use crate::{Front, MessageError, MessageFault};
use kn_io::NoMemory;
use std::alloc::Global;

/// What a reader holds: the head of a message, and what came behind it. The room for that grows with it.
#[derive(Drop)]
pub struct State {
    pub head: Head,
    pub body: Body,
    /// How many bytes came before these. It stays at 2^64 - 1.
    pub offset: u64,
}

/// Takes the bytes of a head that a piece begins with, up to one that shows a fault.
fn take_head(head: &mut Head, piece: &[u8]) -> usize
    ensures within { result ≤ length piece.now }
    ensures head { head.new ≡ head.old ++ take result piece.now }
    ensures left { taken head.old piece.now ≡ result + taken head.new (drop result piece.now) }
    ensures ends { wants_head head.new ≡ true → result ≡ length piece.now }
{
    let mut at = 0;
    while at < piece.len() {
        if !head::wants_head(head.as_slice()) {
            return at;
        }
        head.push(piece[at]);
        at += 1;
    }
    at
}

/// Takes what a piece has of the message behind a whole head. It is copied once into its place.
fn take_body(state: &mut State, piece: &[u8]) -> Result<usize, NoMemory>
    requires sound { is_sound state.old ≡ true }
    requires head { length state.old.head ≡ 5 }
    requires well { reason_in state.old.head ≡ None }
    ensures count { IfOk result (λ n. n ≡ taken (state.old.head ++ state.old.body) piece.now) }
    ensures within { IfOk result (λ n. n ≤ length piece.now) }
    ensures body { IfOk result (λ n. state.new ≡ record state.old { body = state.old.body ++ take n piece.now }) }
    ensures sound { is_sound state.new ≡ true }
    ensures err { OnErr result (state.new ≡ state.old) }
{
    let wanted = head::length_of(state.head.as_slice()) - state.body.len();
    let count = wanted.min(piece.len());
    match state.body.append(&piece[..count]) {
        Ok(()) => Ok(count),
        Err(_error) => Err(NoMemory),
    }
}

/// Goes on behind a whole head, unless it has a fault.
fn go_on(state: &mut State, piece: &[u8]) -> Result<usize, MessageError>
    requires sound { is_sound state.old ≡ true }
    requires head { length state.old.head ≡ 5 }
    ensures fed { IsFed result (seen state.old) (seen state.new) piece.now }
    ensures within { IfOk result (λ n. n ≤ length piece.now) }
    ensures sound { is_sound state.new ≡ true }
    ensures kept { IfErr result (λ e. state.new ≡ state.old) }
{
    match head::reason_in(state.head.as_slice()) {
        Some(reason) => Err(MessageError::Fault(MessageFault {
            offset: state.offset,
            reason,
        })),
        None => match take_body(state, piece) {
            Ok(count) => Ok(count),
            Err(_error) => Err(MessageError::NoMemory),
        },
    }
}

/// Begins with a head that is not whole, and goes on behind it. Want of memory takes the head's bytes back.
fn begin(state: &mut State, piece: &[u8]) -> Result<usize, MessageError>
    requires sound { is_sound state.old ≡ true }
    requires head { length state.old.head < 5 }
    ensures fed { IsFed result (seen state.old) (seen state.new) piece.now }
    ensures sound { is_sound state.new ≡ true }
{
    let held = state.head.len();
    let begun = take_head(&mut state.head, piece);
    if state.head.len() < 5 {
        match head::reason_in(state.head.as_slice()) {
            Some(reason) => Err(MessageError::Fault(MessageFault {
                offset: state.offset,
                reason,
            })),
            None => Ok(begun),
        }
    } else {
        match go_on(state, &piece[begun..]) {
            Ok(count) => Ok(begun + count),
            Err(MessageError::Fault(fault)) => Err(MessageError::Fault(fault)),
            Err(MessageError::NoMemory) => {
                state.head.cut(held);
                Err(MessageError::NoMemory)
            }
        }
    }
}

/// Takes bytes up to the end of a message.
pub fn feed(state: &mut State, piece: &[u8]) -> Result<usize, MessageError>
    requires sound { is_sound state.old ≡ true }
    ensures fed { IsFed result (seen state.old) (seen state.new) piece.now }
    ensures sound { is_sound state.new ≡ true }
{
    if state.head.len() < 5 {
        begin(state, piece)
    } else {
        go_on(state, piece)
    }
}

/// Whether a whole message is held.
pub fn is_whole(state: &State) -> bool
    requires sound { is_sound state.now ≡ true }
    ensures whole { IsTrue result → first_message (state.now.head ++ state.now.body) ≡ Whole state.now.body [] }
    ensures other { result ≡ is_some (message_in (first_message (state.now.head ++ state.now.body))) }
{
    if state.head.len() < 5 {
        return false;
    }
    match head::reason_in(state.head.as_slice()) {
        Some(_reason) => false,
        None => state.body.len() == head::length_of(state.head.as_slice()),
    }
}

/// What stands at the front, behind a head that has no fault so far.
fn well_front(state: &State) -> Front<'_>
    requires sound { is_sound state.now ≡ true }
    requires well { reason_in state.now.head ≡ None }
    ensures { front_seen result ≡ first_message (state.now.head ++ state.now.body) }
{
    if state.head.len() < 5 {
        return Front::Less;
    }
    if state.body.len() == head::length_of(state.head.as_slice()) {
        Front::Whole {
            message: state.body.as_slice(),
        }
    } else {
        Front::Less
    }
}

/// What stands at the front.
pub fn first(state: &State) -> Front<'_>
    requires sound { is_sound state.now ≡ true }
    ensures { front_seen result ≡ first_message (state.now.head ++ state.now.body) }
{
    match head::reason_in(state.head.as_slice()) {
        Some(reason) => Front::Bad { reason },
        None => well_front(state),
    }
}

/// Nothing is held.
pub fn is_empty(state: &State) -> bool
    requires sound { is_sound state.now ≡ true }
    ensures { result ≡ (length (state.now.head ++ state.now.body) == 0) }
{
    state.head.len() == 0 && state.body.is_empty()
}

/// Lets go of a whole message.
pub fn clear(state: &mut State, alloc: Global)
    requires sound { is_sound state.old ≡ true }
    requires whole { first_message (state.old.head ++ state.old.body) ≡ Whole state.old.body [] }
    ensures popped { seen state.new ≡ popped (seen state.old) }
    ensures sound { is_sound state.new ≡ true }
{
    let taken = 5 + state.body.len() as u64;
    state.head.cut(0);
    state.body.clear(alloc);
    state.offset = state.offset.saturating_add(taken);
}
