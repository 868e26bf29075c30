ghost use Rattle.std.specs.Prelude.{◌≡◌, ◌<◌, ◌^◌, nat_lt, None, OnOk, if◌then◌else◌};
ghost use Rattle.kn_h2_state.specs.Rules.{bytes_so_far};
ghost use Rattle.kn_h2_state.specs.Streams.{stream_at};
ghost use Rattle.kn_h2_state.specs.Effects.{if_open, peer_ends, request, head_of, block_grown};

use crate::ends::peer_ends;
use crate::requests::request;
use crate::responses::response_at;
use crate::text::is_open_at;
use kn_frames::Frame;
use kn_h2_state::{Block, ByteQueue, Role, State, block_ends, content};
use kn_hpack::Headers;
use kn_io::NoMemory;
use std::alloc::Global;

/// The bytes of the block under way, which is taken out of the state.
fn take_block(state: &mut State, alloc: Global) -> ByteQueue
    ensures value { result ≡ bytes_so_far state.old.block }
    ensures state { state.new ≡ record state.old { block = None } }
{
    match state.block.take() {
        Some(block) => block.bytes,
        None => ByteQueue::new(alloc),
    }
}

/// The block goes on after the frame (RFC 9113, section 6.10).
#[tactic(auto, unfolding(kn_h2_state::specs::Effects::block_grown))]
pub fn grow_block(state: &mut State, alloc: Global, frame: &Frame) -> Result<(), NoMemory>
    ensures { OnOk result (state.new ≡ block_grown frame.now state.old) }
{
    let ends = block_ends(state, frame);
    let mut bytes = take_block(state, alloc);
    bytes.append(content(frame))?;
    state.block = Some(Block {
        stream: frame.stream,
        ends,
        bytes,
    });
    Ok(())
}

/// The fields of a block that has ended: at a server a request, or the trailers of one.
#[tactic(auto, unfolding(kn_h2_state::specs::Effects::head_of))]
pub fn head_of(
    state: &mut State,
    alloc: Global,
    number: u32,
    ends: bool,
    fields: Headers,
) -> Result<(), NoMemory>
    requires number { number < 2 ^ 31 }
    requires initial { state.old.initial < 2 ^ 31 }
    ensures { OnOk result (state.new ≡ head_of number ends fields state.old) }
{
    match state.role {
        Role::Client => response_at(state, number, ends, fields),
        Role::Server => head_at_server(state, alloc, number, ends, fields),
    }
}

fn head_at_server(
    state: &mut State,
    alloc: Global,
    number: u32,
    ends: bool,
    fields: Headers,
) -> Result<(), NoMemory>
    requires number { number < 2 ^ 31 }
    requires initial { state.old.initial < 2 ^ 31 }
    ensures { OnOk result (state.new ≡ (if nat_lt state.old.opened number then request number ends fields state.old
        else if_open (stream_at state.old.streams number) state.old (λ st. peer_ends number state.old))) }
{
    if number > state.opened {
        request(state, alloc, number, ends, fields)
    } else {
        trailers_at(state, number)
    }
}

/// The trailers of a request: on a stream that is not open they do nothing.
#[tactic(auto, using(crate::proofs::BlockLemmas::open_is, crate::proofs::BlockLemmas::closed_is))]
fn trailers_at(state: &mut State, number: u32) -> Result<(), NoMemory>
    ensures { OnOk result (state.new ≡ if_open (stream_at state.old.streams number) state.old (λ st. peer_ends number state.old)) }
{
    if is_open_at(&state.streams, number) {
        peer_ends(state, number)
    } else {
        Ok(())
    }
}
