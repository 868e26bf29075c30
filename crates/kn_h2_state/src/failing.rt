ghost use Rattle.std.specs.Prelude.{◌≡◌, ◌<◌, ◌+◌, ◌^◌, length, nat_lt, OnOk};
ghost use Rattle.kn_frames.specs.Frames.{spelled};
ghost use Rattle.kn_h2_state.specs.Limits.{reply_limit};
ghost use Rattle.kn_h2_state.specs.Payloads.{reset_frame};
ghost use Rattle.kn_h2_state.specs.Effects.{fail, reply, highest_of_peer};

use crate::event::H2Event;
use crate::limits::REPLY_LIMIT;
use crate::role::Role;
use crate::state::State;
use crate::writing::write_frame;
use kn_io::NoMemory;

/// The highest stream that the peer opened.
fn highest_of_peer(state: &State) -> u32
    ensures { result ≡ highest_of_peer state.now }
{
    match state.role {
        Role::Server => state.opened,
        Role::Client => 0,
    }
}

/// The connection fails with this code (RFC 9113, section 7).
#[tactic(auto, unfolding(crate::specs::Effects::fail))]
pub fn fail(state: &mut State, code: u32) -> Result<(), NoMemory>
    ensures { OnOk result (state.new ≡ fail code state.old) }
{
    let [a, b, c, d] = highest_of_peer(state).to_be_bytes();
    let [e, f, g, h] = code.to_be_bytes();
    write_frame(&mut state.out, false, 7, 0, 0, &[a, b, c, d, e, f, g, h])?;
    state.events.push(H2Event::Closed { code })?;
    state.failed = Some(code);
    Ok(())
}

/// So many bytes more are too many reply frames.
fn is_too_many(waiting: usize, more: usize) -> bool
    ensures { result ≡ nat_lt reply_limit (waiting + more) }
{
    more > REPLY_LIMIT || waiting > REPLY_LIMIT - more
}

/// Puts a reply frame, or several that are one reply, at the end of what waits for the socket, unless too
/// many wait: then the connection fails.
#[tactic(auto, unfolding(crate::specs::Effects::reply))]
pub fn reply(state: &mut State, frame: &[u8]) -> Result<(), NoMemory>
    ensures { OnOk result (state.new ≡ reply frame.now state.old) }
{
    if is_too_many(state.out.reply_bytes(), frame.len()) {
        return fail(state, 11);
    }
    state.out.put(true, frame)?;
    Ok(())
}

/// Puts a reply frame of this payload at the end of what waits for the socket, unless too many wait: then
/// the connection fails.
#[tactic(auto, using(crate::proofs::FrameLemmas::length_spelled), unfolding(crate::specs::Effects::reply))]
pub fn reply_frame(
    state: &mut State,
    kind: u8,
    flags: u8,
    stream: u32,
    payload: &[u8],
) -> Result<(), NoMemory>
    requires length_fits { length payload.now < 2 ^ 24 }
    requires stream_fits { stream < 2 ^ 31 }
    ensures { OnOk result (state.new ≡ reply (spelled kind flags stream payload.now) state.old) }
{
    if is_too_many(state.out.reply_bytes(), 9 + payload.len()) {
        return fail(state, 11);
    }
    write_frame(&mut state.out, true, kind, flags, stream, payload)
}

/// Puts a RST_STREAM at the end of what waits for the socket, as a reply frame.
pub fn reply_reset(state: &mut State, stream: u32, code: u32) -> Result<(), NoMemory>
    requires { stream < 2 ^ 31 }
    ensures { OnOk result (state.new ≡ reply (reset_frame stream code) state.old) }
{
    reply_frame(state, 3, 0, stream, &code.to_be_bytes())
}
