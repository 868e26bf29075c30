//! What may be written next where there is room for it.

ghost use Rattle.std.specs.Prelude.{◌≡◌, ◌<◌, ◌≤◌, ◌^◌, ℕ, ℤ, true, false, length, nat_le, IfSome, IfNone};
ghost use Rattle.std.specs.List.{All, Any};
ghost use Rattle.kn_h2_state.specs.declared.moves.Move.{Move};
ghost use Rattle.kn_h2_state.specs.declared.stream.Stream.{Stream};
ghost use Rattle.kn_h2_state.specs.Limits.{full_out};
ghost use Rattle.kn_h2_state.specs.Moves.{is_owed, can_send, can_end, can_stop, may};
ghost use Rattle.kn_h2_state.specs.Holding.{Holds};
ghost use Rattle.kn_h2.specs.Finding.{is_due_of, has_work};

use kn_h2_state::{FRAME_LIMIT, FULL_OUT, GRANT_SIZE, Move, Outgoing, State, Stream};
use kn_windows::Window;

/// The peer may still send, and enough is owed to it.
fn is_owed(stream: &Stream) -> bool
    ensures { result ≡ is_owed stream.now }
{
    stream.peer_open && stream.owed >= GRANT_SIZE
}

/// The end is asked for, and nothing waits before it.
fn can_end(stream: &Stream) -> bool
    ensures { result ≡ can_end stream.now }
{
    stream.own_open && stream.finish.is_some() && stream.queue.is_empty()
}

/// This end's half has ended, and the peer is to be told to stop.
fn can_stop(stream: &Stream) -> bool
    ensures { result ≡ can_stop stream.now }
{
    stream.resets && stream.peer_open
}

/// The first part of so many bytes that are cut into frames: what is over a whole number of full frames goes
/// first, so that the others are full.
fn first_part(len: usize) -> usize
    ensures frame { result ≤ 16384 }
    ensures part { result ≤ len }
    ensures some { 0 < len → 0 < result }
{
    let over = len % FRAME_LIMIT;
    if over == 0 {
        len.min(FRAME_LIMIT)
    } else {
        over
    }
}

/// How many bytes of DATA may go at once, or 0 where none may.
fn sendable(window: &Window, stream: &Stream) -> u32
    ensures some { 0 < result → can_send result window.now stream.now ≡ true }
    ensures none { result ≡ 0 → can_send 1 window.now stream.now ≡ false }
{
    let allowed = window.left().min(stream.send.left());
    if !stream.own_open || allowed <= 0 {
        return 0;
    }
    let count = first_part(stream.queue.len());
    allowed.min(count as i64) as u32
}

/// What is due for a stream but its WINDOW_UPDATE: text, then its end, then the RST_STREAM behind that.
#[tactic(auto, unfolding(crate::specs::Finding::is_due_of, crate::specs::Finding::has_work))]
fn move_of(window: &Window, stream: &Stream) -> Option<Move>
    ensures some { IfSome result (λ m. is_due_of window.now stream.now m ≡ true) }
    ensures none { IfNone result (has_work window.now stream.now ≡ false) }
{
    let count = sendable(window, stream);
    let number = stream.number;
    if count > 0 {
        return Some(Move::Send {
            stream: number,
            count,
        });
    }
    if can_end(stream) {
        return Some(Move::End { stream: number });
    }
    if can_stop(stream) {
        return Some(Move::Stop { stream: number });
    }
    None
}

/// The first of these streams that is owed a WINDOW_UPDATE.
#[tactic(auto, unfolding(crate::specs::Finding::is_due_of))]
fn first_owed(streams: &[Stream]) -> Option<Move>
    ensures some { IfSome result (λ (m : Move). (window : ℤ) → Any (λ (st : Stream). is_due_of window st m ≡ true) streams.now) }
    ensures none { IfNone result (All (λ (st : Stream). is_owed st ≡ false) streams.now) }
{
    for stream in streams {
        if is_owed(stream) {
            return Some(Move::Grant {
                stream: stream.number,
            });
        }
    }
    None
}

/// What is due for the first of these streams for which there is something.
fn first_move(window: &Window, streams: &[Stream]) -> Option<Move>
    ensures some { IfSome result (λ (m : Move). Any (λ (st : Stream). is_due_of window.now st m ≡ true) streams.now) }
    ensures none { IfNone result (All (λ (st : Stream). has_work window.now st ≡ false) streams.now) }
{
    for stream in streams {
        if let Some(next) = move_of(window, stream) {
            return Some(next);
        }
    }
    None
}

/// The place of the first of these streams whose number is higher, or 0.
fn place_after(streams: &[Stream], turn: u32) -> usize
    ensures { result ≤ length streams.now }
{
    for (place, stream) in streams.iter().enumerate() {
        if stream.number > turn {
            return place;
        }
    }
    0
}

/// What is due for a stream, the streams behind that of the last turn first.
fn move_of_turn(window: &Window, streams: &[Stream], turn: u32) -> Option<Move>
    ensures some { IfSome result (λ (m : Move). Any (λ (st : Stream). is_due_of window.now st m ≡ true) streams.now) }
    ensures none { IfNone result (All (λ (st : Stream). has_work window.now st ≡ false) streams.now) }
{
    let place = place_after(streams, turn);
    match first_move(window, &streams[place..]) {
        Some(next) => Some(next),
        None => first_move(window, &streams[..place]),
    }
}

/// As much waits for the socket as may.
fn is_full(out: &Outgoing) -> bool
    ensures { result ≡ nat_le full_out (length out.now.bytes) }
{
    out.len() >= FULL_OUT
}

/// The move to make next, if one may be made: WINDOW_UPDATE of the connection and then of the streams, and then the
/// streams in turn, from the one behind `turn` on.
pub fn next_move(state: &State, turn: u32) -> Option<Move>
    requires { Holds state.now }
    ensures some { IfSome result (λ m. may state.now m ≡ true) }
    ensures none { IfNone result ((m : Move) → may state.now m ≡ false) }
{
    if state.failed.is_some() {
        return None;
    }
    if is_full(&state.out) {
        return None;
    }
    if state.owed >= GRANT_SIZE {
        return Some(Move::GrantAll);
    }
    match first_owed(state.streams.as_slice()) {
        Some(next) => Some(next),
        None => move_of_turn(&state.send, state.streams.as_slice(), turn),
    }
}
