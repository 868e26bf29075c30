ghost use Rattle.std.specs.Prelude.{◌≡◌, not, ◌||◌, nat_lt, length};
ghost use Rattle.kn_h2_state.specs.Streams.{on_open};
ghost use Rattle.kn_h2_state.specs.Limits.{block_limit};
ghost use Rattle.kn_h2_state.specs.Rules.{is_client, is_of_block, block_with, is_too_large, is_second_head};
ghost use Rattle.kn_h2_state.specs.Effects.{block_ends};

use crate::codes::{flags, kinds};
use crate::limits::BLOCK_LIMIT;
use crate::payload::{content, has};
use crate::state::State;
use crate::streams::is_open;
use kn_frames::Frame;
use kn_hpack::HpackReason;

pub fn is_of_block(frame: &Frame) -> bool
    ensures { result ≡ is_of_block frame.now }
{
    frame.kind == kinds::HEADERS || frame.kind == kinds::CONTINUATION
}

/// The block with what the frame brings is too long.
pub fn is_too_long(state: &State, frame: &Frame) -> bool
    ensures { result ≡ nat_lt block_limit (length (block_with state.now frame.now)) }
{
    let so_far = match &state.block {
        Some(block) => block.bytes.len(),
        None => 0,
    };
    so_far.saturating_add(content(frame).len()) > BLOCK_LIMIT
}

/// The list of a block is too large.
pub fn is_too_large(reason: HpackReason) -> bool
    ensures { result ≡ is_too_large reason }
{
    match reason {
        HpackReason::TooLarge => true,
        HpackReason::Index => false,
        HpackReason::Integer => false,
        HpackReason::Padding => false,
        HpackReason::Eos => false,
        HpackReason::TableSize => false,
        HpackReason::Cut => false,
    }
}

/// HEADERS after the head, which do not end the stream.
pub fn is_second_head(state: &State, frame: &Frame) -> bool
    ensures { result ≡ is_second_head state.now frame.now }
{
    frame.kind == kinds::HEADERS && !has(frame, flags::END_STREAM) && has_head(state, frame.stream)
}

/// The stream is open, and its head came.
fn has_head(state: &State, number: u32) -> bool
    ensures { result ≡ on_open state.now.streams number (λ st. not (is_client state.now.role) || st.answered) }
{
    match state.streams.get(number) {
        Some(stream) => is_open(stream) && (!state.role.is_client() || stream.answered),
        None => false,
    }
}

/// The stream ends with the block: its HEADERS had END_STREAM.
pub fn block_ends(state: &State, frame: &Frame) -> bool
    ensures { result ≡ block_ends state.now.block frame.now }
{
    match &state.block {
        Some(block) => block.ends,
        None => has(frame, flags::END_STREAM),
    }
}
