//! What is written where there is room for it, one move at a time.

ghost use Rattle.std.specs.Prelude.{◌≡◌, ◌<◌, ◌≤◌, ◌^◌, true, false, length, take, pos, OnOk, IfSome, is_some, option_copied};
ghost use Rattle.std.specs.List.{AllByRecursion};
ghost use Rattle.kn_windows.specs.Windows.{can_spend};
ghost use Rattle.kn_frames.specs.Frames.{spelled};
ghost use Rattle.kn_hpack.specs.Encoding.{block_of};
ghost use Rattle.kn_h2_state.specs.declared.moves.Move.TheVariants.{GrantAll, Grant, Send, End, Stop};
ghost use Rattle.kn_h2_state.specs.declared.stream.Stream.{Stream};
ghost use Rattle.kn_h2_state.specs.Outgoing.{put};
ghost use Rattle.kn_h2_state.specs.Streams.{stream_at, change};
ghost use Rattle.kn_h2_state.specs.Rules.{is_client};
ghost use Rattle.kn_h2_state.specs.Moves.{may, after_move, granted, sent_some, own_ended, stopped, headers_frames, end_frames};
ghost use Rattle.kn_h2_state.specs.Calls.{queue_in};
ghost use Rattle.kn_h2_state.specs.Holding.{Holds, HasSum};
ghost use Rattle.kn_h2.specs.Finding.{owed_in, finish_in};

use crate::head_frames::write_fields;
use crate::windows::{grow, spend};
use kn_h2_state::{Move, Outgoing, Role, State, Stream, Streams, write_frame, write_grant};
use kn_hpack::{Encoder, Headers};
use kn_io::NoMemory;
use std::alloc::Global;

/// The WINDOW_UPDATE of the connection.
#[tactic(auto, unfolding(kn_h2_state::specs::Moves::after_move))]
fn grant_all(state: &mut State) -> Result<(), NoMemory>
    requires { Holds state.old }
    ensures { OnOk result (state.new ≡ after_move state.old GrantAll) }
{
    write_grant(&mut state.out, 0, state.owed)?;
    grow(&mut state.receive, state.owed);
    state.owed = 0;
    Ok(())
}

/// The bytes that are owed to a stream's peer.
fn owed_at(streams: &Streams, number: u32) -> u32
    ensures { result ≡ owed_in (stream_at streams.now number) }
{
    match streams.get(number) {
        Some(stream) => stream.owed,
        None => 0,
    }
}

fn give_back(stream: &mut Stream)
    requires { HasSum stream.old }
    ensures { stream.new ≡ granted stream.old }
{
    grow(&mut stream.receive, stream.owed);
    stream.owed = 0;
}

#[tactic(auto, using(crate::proofs::StreamLemmas::change_none))]
fn give_back_at(streams: &mut Streams, number: u32)
    requires { AllByRecursion HasSum streams.old }
    ensures { streams.new ≡ change streams.old number granted }
{
    if let Some(stream) = streams.get_mut(number) {
        give_back(stream);
    }
}

/// The WINDOW_UPDATE of a stream.
fn grant(state: &mut State, number: u32) -> Result<(), NoMemory>
    requires holds { Holds state.old }
    requires may { may state.old (Grant number) ≡ true }
    ensures { OnOk result (state.new ≡ after_move state.old (Grant number)) }
{
    let by = owed_at(&state.streams, number);
    write_grant(&mut state.out, number, by)?;
    give_back_at(&mut state.streams, number);
    Ok(())
}

/// The first bytes of a stream's queue, as DATA.
fn write_data(
    out: &mut Outgoing,
    streams: &Streams,
    number: u32,
    count: u32,
) -> Result<(), NoMemory>
    requires number_fits { number < 2 ^ 31 }
    requires frame { count ≤ 16384 }
    requires queued { count ≤ length (queue_in (stream_at streams.now number)) }
    ensures { OnOk result (out.new ≡ put out.old false (spelled 0 0 number (take count (queue_in (stream_at streams.now number))))) }
{
    match streams.get(number) {
        Some(stream) => {
            let text = stream.queue.as_slice();
            write_frame(out, false, 0, 0, number, &text[..count as usize])
        }
        None => write_frame(out, false, 0, 0, number, &[]),
    }
}

/// The bytes were sent: they leave the queue, and the window of their stream.
fn take_sent(stream: &mut Stream, count: u32)
    requires queued { count ≤ length stream.old.queue }
    requires window { can_spend stream.old.send count ≡ true }
    ensures { stream.new ≡ sent_some count stream.old }
{
    stream.queue.advance(count as usize);
    spend(&mut stream.send, count);
}

#[tactic(auto, using(crate::proofs::StreamLemmas::change_none))]
fn take_sent_at(streams: &mut Streams, number: u32, count: u32)
    requires queued { IfSome (stream_at streams.old number) (λ (st : Stream). count ≤ length st.queue) }
    requires window { IfSome (stream_at streams.old number) (λ (st : Stream). can_spend st.send count ≡ true) }
    ensures { streams.new ≡ change streams.old number (sent_some count) }
{
    if let Some(stream) = streams.get_mut(number) {
        take_sent(stream, count);
    }
}

/// DATA of a stream.
fn send(state: &mut State, number: u32, count: u32) -> Result<(), NoMemory>
    requires holds { Holds state.old }
    requires may { may state.old (Send number count) ≡ true }
    ensures { OnOk result (state.new ≡ after_move state.old (Send number count)) }
{
    write_data(&mut state.out, &state.streams, number, count)?;
    take_sent_at(&mut state.streams, number, count);
    spend(&mut state.send, count);
    Ok(())
}

/// This end's half of a stream is no longer open. Where the peer's is, a server is to tell it to stop.
fn end_own_half(stream: &mut Stream, server: bool)
    ensures { stream.new ≡ own_ended server stream.old }
{
    stream.own_open = false;
    stream.finish = None;
    stream.resets = server && stream.peer_open;
}

#[tactic(auto, using(crate::proofs::StreamLemmas::change_none))]
fn end_own_half_at(streams: &mut Streams, number: u32, server: bool)
    ensures { streams.new ≡ change streams.old number (own_ended server) }
{
    if let Some(stream) = streams.get_mut(number) {
        end_own_half(stream, server);
    }
}

/// The trailers that a stream is to end with.
fn finish_of(streams: &Streams, number: u32) -> Option<&Headers>
    ensures { option_copied result ≡ finish_in (stream_at streams.now number) }
{
    match streams.get(number) {
        Some(stream) => stream.finish.as_ref(),
        None => None,
    }
}

/// The trailers of a stream, where it is to end with some.
fn write_finish(
    encoder: &mut Encoder,
    out: &mut Outgoing,
    streams: &Streams,
    alloc: Global,
    number: u32,
) -> Result<(), NoMemory>
    requires number_fits { number < 2 ^ 31 }
    requires asked { is_some (finish_in (stream_at streams.now number)) ≡ true }
    ensures out { OnOk result (IfSome (finish_in (stream_at streams.now number)) (λ fields. out.new ≡ put out.old false (headers_frames number 1 (block_of encoder.old fields)))) }
    ensures wrote { OnOk result (encoder.new ≡ true) }
{
    match finish_of(streams, number) {
        Some(trailers) => write_fields(encoder, out, alloc, number, 1, trailers),
        None => unreachable!(),
    }
}

/// A server ends its half of a stream with trailers.
fn end_at_server(state: &mut State, alloc: Global, number: u32) -> Result<(), NoMemory>
    requires holds { Holds state.old }
    requires role { is_client state.old.role ≡ false }
    requires may { may state.old (End number) ≡ true }
    ensures { OnOk result (state.new ≡ after_move state.old (End number)) }
{
    write_finish(
        &mut state.encoder,
        &mut state.out,
        &state.streams,
        alloc,
        number,
    )?;
    end_own_half_at(&mut state.streams, number, true);
    state.streams.tidy();
    Ok(())
}

/// A client ends its half of a stream with an empty DATA frame.
fn end_at_client(state: &mut State, number: u32) -> Result<(), NoMemory>
    requires holds { Holds state.old }
    requires role { is_client state.old.role ≡ true }
    requires may { may state.old (End number) ≡ true }
    ensures { OnOk result (state.new ≡ after_move state.old (End number)) }
{
    write_frame(&mut state.out, false, 0, 1, number, &[])?;
    end_own_half_at(&mut state.streams, number, false);
    state.streams.tidy();
    Ok(())
}

/// A stream's peer was told to stop: its half is no longer open.
#[tactic(auto, using(crate::proofs::StreamLemmas::change_none))]
fn stop_peer(streams: &mut Streams, number: u32)
    ensures { streams.new ≡ change streams.old number stopped }
{
    if let Some(stream) = streams.get_mut(number) {
        stream.peer_open = false;
        stream.resets = false;
    }
}

/// RST_STREAM with NO_ERROR behind the trailers (RFC 9113, section 8.1).
fn stop(state: &mut State, number: u32) -> Result<(), NoMemory>
    requires holds { Holds state.old }
    requires may { may state.old (Stop number) ≡ true }
    ensures { OnOk result (state.new ≡ after_move state.old (Stop number)) }
{
    write_frame(&mut state.out, true, 3, 0, number, &0u32.to_be_bytes())?;
    stop_peer(&mut state.streams, number);
    state.streams.tidy();
    Ok(())
}

/// Makes a move that may be made.
pub fn make(state: &mut State, alloc: Global, next: Move) -> Result<(), NoMemory>
    requires holds { Holds state.old }
    requires may { may state.old next ≡ true }
    ensures { OnOk result (state.new ≡ after_move state.old next) }
{
    match next {
        Move::GrantAll => grant_all(state),
        Move::Grant { stream } => grant(state, stream),
        Move::Send { stream, count } => send(state, stream, count),
        Move::End { stream } => match state.role {
            Role::Server => end_at_server(state, alloc, stream),
            Role::Client => end_at_client(state, stream),
        },
        Move::Stop { stream } => stop(state, stream),
    }
}
