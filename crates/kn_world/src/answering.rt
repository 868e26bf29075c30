//! Bytes and ends of destinations that their agents are given.
ghost use Rattle.std.specs.Prelude.{◌≡◌, OnOk};
ghost use Rattle.kn_world.specs.Answering as spec;

use crate::numbered::Numbered;
use crate::parts::{Agent, Dial};
use crate::pieces::{PIECE, first_piece, pieces};
use crate::state::State;
use crate::{agent_steps, dials};
use kn_edge_core::{AgentEvent, DestState};
use kn_io::NoMemory;
use std::alloc::Global;

fn hand_piece(alloc: Global, state: &mut State, dial: u64) -> Result<(), NoMemory>
    ensures { OnOk result (state.new ≡ spec.hands_piece dial state.old) }
{
    match state.dials.get(dial) {
        Some(found) => {
            let link = found.link;
            let connect_id = found.connect_id;
            let bytes = first_piece(alloc, &found.side.sending)?;
            dials::hand(&mut state.dials, dial, PIECE);
            agent_steps::step(
                alloc,
                state,
                link,
                dial,
                AgentEvent::DestBytes { connect_id, bytes },
            )
        }
        None => Ok(()),
    }
}

fn hand_pieces(alloc: Global, state: &mut State, dial: u64, count: usize) -> Result<(), NoMemory>
    ensures { OnOk result (state.new ≡ spec.hands_pieces count dial state.old) }
{
    let mut left = count;
    'pieces: while left > 0 {
        hand_piece(alloc, state, dial)?;
        left -= 1;
    }
    Ok(())
}

// How many pieces the agent takes from a destination: all, while the connection is open.
fn pieces_wanted(agents: &Numbered<Agent>, dial: &Dial) -> usize
    ensures { result ≡ spec.pieces_wanted dial.now agents.now }
{
    match dials::state_of(agents, dial) {
        Some(DestState::Open) => pieces(dial.side.sending.waiting_count()),
        Some(DestState::Lingering) => 0,
        None => 0,
    }
}

fn count_wanted(state: &State, dial: u64) -> usize
    ensures { result ≡ spec.count_wanted dial state.now }
{
    match state.dials.get(dial) {
        Some(found) => pieces_wanted(&state.agents, found),
        None => 0,
    }
}

fn is_end_due(state: &State, dial: u64) -> bool
    ensures { result ≡ spec.is_end_due dial state.now }
{
    match state.dials.get(dial) {
        Some(found) => {
            found.side.ended && !found.side.end_given && found.side.sending.waiting_count() == 0
        }
        None => false,
    }
}

fn give_end(alloc: Global, state: &mut State, dial: u64) -> Result<(), NoMemory>
    ensures { OnOk result (state.new ≡ spec.gives_end dial state.old) }
{
    match state.dials.get(dial) {
        Some(found) => {
            let link = found.link;
            let connect_id = found.connect_id;
            dials::note_end_given(&mut state.dials, dial);
            agent_steps::step(alloc, state, link, dial, AgentEvent::DestEnd { connect_id })
        }
        None => Ok(()),
    }
}

fn end_if_due(alloc: Global, state: &mut State, dial: u64) -> Result<(), NoMemory>
    ensures { OnOk result (state.new ≡ spec.ends_if_due dial state.old) }
{
    if is_end_due(state, dial) {
        give_end(alloc, state, dial)
    } else {
        Ok(())
    }
}

/// What a destination sent goes to its agent while this takes it, and its end behind the last byte.
pub fn settle(alloc: Global, state: &mut State, dial: u64) -> Result<(), NoMemory>
    ensures { OnOk result (state.new ≡ spec.settles dial state.old) }
{
    let count = count_wanted(state, dial);
    hand_pieces(alloc, state, dial, count)?;
    end_if_due(alloc, state, dial)
}
