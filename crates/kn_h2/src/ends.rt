ghost use Rattle.std.specs.Prelude.{◌≡◌, OnOk, false};
ghost use Rattle.kn_h2_state.specs.Streams.{change};
ghost use Rattle.kn_h2_state.specs.Effects.{peer_ends, ended_if};
ghost use Rattle.kn_h2_state.specs.declared.stream.Stream.{Stream};

use kn_h2_state::{H2Event, State, Streams};
use kn_io::NoMemory;

/// The peer's half of a stream is no longer open.
#[tactic(auto, using(crate::proofs::StreamLemmas::change_none))]
fn close_peer_half(streams: &mut Streams, number: u32)
    ensures { streams.new ≡ change streams.old number (λ (st : Stream). record st { peer_open = false }) }
{
    if let Some(stream) = streams.get_mut(number) {
        stream.peer_open = false;
    }
}

/// The peer's half of a stream ends, and that is told.
#[tactic(auto, unfolding(kn_h2_state::specs::Effects::peer_ends))]
pub fn peer_ends(state: &mut State, number: u32) -> Result<(), NoMemory>
    ensures { OnOk result (state.new ≡ peer_ends number state.old) }
{
    close_peer_half(&mut state.streams, number);
    state.streams.tidy();
    state.events.push(H2Event::Ended { stream: number })
}

/// The same where a frame ends the half.
pub fn ended_if(state: &mut State, ends: bool, number: u32) -> Result<(), NoMemory>
    ensures { OnOk result (state.new ≡ ended_if ends number state.old) }
{
    if ends {
        peer_ends(state, number)
    } else {
        Ok(())
    }
}
