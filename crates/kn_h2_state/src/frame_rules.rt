ghost use Rattle.std.specs.Prelude.{◌≡◌};
ghost use Rattle.kn_h2_state.specs.Rules.{breaks_block, is_on_wrong_stream, has_wrong_length, frame_rules, first_broken, continues};

use crate::codes::{errors, flags, kinds};
use crate::payload::{field_bytes, has, padding};
use crate::state::{Block, State};
use kn_frames::Frame;

/// The code of the first rule on the frame itself that it breaks.
#[tactic(auto, unfolding(crate::specs::Rules::frame_rules, crate::specs::Rules::first_broken))]
pub fn frame_verdict(state: &State, frame: &Frame) -> Option<u32>
    ensures { result ≡ first_broken (frame_rules state.now frame.now) }
{
    if !state.began && (frame.kind != kinds::SETTINGS || has(frame, flags::ACK)) {
        return Some(errors::PROTOCOL_ERROR);
    }
    if breaks_block(state, frame) {
        return Some(errors::PROTOCOL_ERROR);
    }
    if is_on_wrong_stream(frame) || frame.kind == kinds::PUSH_PROMISE {
        return Some(errors::PROTOCOL_ERROR);
    }
    if has_wrong_length(frame) {
        return Some(errors::FRAME_SIZE_ERROR);
    }
    let length = frame.payload.len();
    if frame.kind <= kinds::HEADERS && length < field_bytes(frame) {
        return Some(errors::FRAME_SIZE_ERROR);
    }
    if frame.kind <= kinds::HEADERS && length < field_bytes(frame) + padding(frame) {
        return Some(errors::PROTOCOL_ERROR);
    }
    None
}

/// The frame goes on with the block under way.
fn continues(block: &Block, frame: &Frame) -> bool
    ensures { result ≡ continues (Some block.now) frame.now }
{
    frame.kind == kinds::CONTINUATION && frame.stream == block.stream
}

/// A block is under way and the frame does not go on with it, or none is and the frame would.
fn breaks_block(state: &State, frame: &Frame) -> bool
    ensures { result ≡ breaks_block state.now frame.now }
{
    match &state.block {
        Some(block) => !continues(block, frame),
        None => frame.kind == kinds::CONTINUATION,
    }
}

fn is_on_wrong_stream(frame: &Frame) -> bool
    ensures { result ≡ is_on_wrong_stream frame.now }
{
    let is_connection = frame.kind == kinds::SETTINGS
        || frame.kind == kinds::PING
        || frame.kind == kinds::GOAWAY;
    (frame.kind <= kinds::RST_STREAM && frame.stream == 0) || (is_connection && frame.stream != 0)
}

fn has_wrong_length(frame: &Frame) -> bool
    ensures { result ≡ has_wrong_length frame.now }
{
    let length = frame.payload.len();
    match frame.kind {
        kinds::PRIORITY => length != 5,
        kinds::RST_STREAM | kinds::WINDOW_UPDATE => length != 4,
        kinds::PING => length != 8,
        kinds::GOAWAY => length < 8,
        kinds::SETTINGS => length % 6 != 0 || (has(frame, flags::ACK) && length != 0),
        _ => false,
    }
}
