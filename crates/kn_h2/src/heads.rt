//! Heads that this end writes: the request that begins a stream, and the response to one.

ghost use Rattle.std.specs.Prelude.{◌≡◌, ◌≢◌, ◌≤◌, None, Some, IfOk, IfErr, OnOk};
ghost use Rattle.kn_h2_state.specs.declared.refusal.BeginRefusal.TheVariants as begins;
ghost use Rattle.kn_h2_state.specs.Limits.{highest_stream};
ghost use Rattle.kn_h2_state.specs.Calls.{is_many, next_number, begin_refused, begin_refusal, after_begin};
ghost use Rattle.kn_h2_state.specs.Holding.{Holds};

use crate::head_frames::write_fields;
use crate::openings::new_stream;
use kn_h2_state::{BeginRefusal, HIGHEST_STREAM, State};
use kn_hpack::Headers;
use kn_io::NoMemory;
use std::alloc::Global;

/// The number of the next stream that this end opens.
fn next_number(state: &State) -> u32
    requires { state.now.opened ≤ highest_stream }
    ensures { result ≡ next_number state.now }
{
    if state.opened == 0 {
        1
    } else {
        state.opened + 2
    }
}

/// The peer allows no more streams than are open.
fn is_many(most: Option<u32>, count: usize) -> bool
    ensures { result ≡ is_many most count }
{
    match most {
        Some(most) => count >= most as usize,
        None => false,
    }
}

fn refused_while_sound(state: &State) -> Option<BeginRefusal>
    requires { state.now.opened ≤ highest_stream }
    ensures { result ≡ begin_refused state.now None }
{
    if state.away {
        return Some(BeginRefusal::Away);
    }
    if is_many(state.most, state.streams.open_count()) {
        return Some(BeginRefusal::Many);
    }
    if next_number(state) > HIGHEST_STREAM {
        return Some(BeginRefusal::Numbers);
    }
    None
}

/// Why no stream is begun.
#[tactic(auto, unfolding(kn_h2_state::specs::Calls::begin_refusal))]
fn begin_refusal(state: &State) -> Option<BeginRefusal>
    requires { state.now.opened ≤ highest_stream }
    ensures { result ≡ begin_refusal state.now }
{
    match state.failed {
        Some(code) => Some(BeginRefusal::Gone { code }),
        None => refused_while_sound(state),
    }
}

/// A stream begins with its request.
#[tactic(auto, unfolding(kn_h2_state::specs::Calls::after_begin))]
fn open_stream(state: &mut State, alloc: Global, headers: &Headers) -> Result<u32, NoMemory>
    requires holds { Holds state.old }
    requires number { next_number state.old ≤ highest_stream }
    ensures number { IfOk result (λ n. n ≡ next_number state.old) }
    ensures opened { OnOk result (state.new ≡ after_begin headers.now state.old) }
{
    let number = next_number(state);
    let stream = new_stream(alloc, number, state);
    write_fields(
        &mut state.encoder,
        &mut state.out,
        alloc,
        number,
        0,
        headers,
    )?;
    state.streams.push(stream)?;
    state.opened = number;
    Ok(number)
}

/// Begins a stream. An `Err` changes nothing, but for want of memory.
pub fn begin(state: &mut State, alloc: Global, headers: &Headers) -> Result<u32, BeginRefusal>
    requires { Holds state.old }
    ensures number { IfOk result (λ n. n ≡ next_number state.old) }
    ensures ok { OnOk result ((begin_refusal state.old ≡ None) × (state.new ≡ after_begin headers.now state.old)) }
    ensures err { IfErr result (λ e. e ≢ begins.NoMemory → (begin_refusal state.old ≡ Some e) × (state.new ≡ state.old)) }
    ensures holds { OnOk result (Holds state.new) }
{
    match begin_refusal(state) {
        Some(refusal) => Err(refusal),
        None => match open_stream(state, alloc, headers) {
            Ok(number) => Ok(number),
            Err(NoMemory) => Err(BeginRefusal::NoMemory),
        },
    }
}
