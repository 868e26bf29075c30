ghost use Rattle.std.specs.Prelude.{◌≡◌, true, false, None, nat_lt, length, IfOk};
ghost use Rattle.kn_h2_state.specs.Limits.{block_limit};
ghost use Rattle.kn_h2_state.specs.Decoded.{ReadsBlock};
ghost use Rattle.kn_h2_state.specs.Rules.{first_broken, frame_rules, window_rules, stream_rules, block_rules, is_of_block, ends_block, block_with, is_second_head};
ghost use Rattle.kn_h2_state.specs.Effects.{block_ends};
ghost use Rattle.kn_h2_state.specs.Feeding.{without_blocks};
ghost use Rattle.kn_h2_state.specs.Verdicts.{or_broken, early_verdict, fault_code, JudgesBy, Judges};
ghost use Rattle.kn_h2_state.specs.declared.judgement.Judgement.TheVariants.{Broken};

use crate::block_rules::{block_ends, is_of_block, is_second_head, is_too_large, is_too_long};
use crate::codes::{errors, flags};
use crate::frame_rules::frame_verdict;
use crate::head_decoder::{HeadDecoder, HeadError};
use crate::judgement::Judgement;
use crate::payload::{content, has};
use crate::state::State;
use crate::stream_rules::stream_verdict;
use crate::window_rules::window_verdict;
use kn_frames::Frame;
use kn_hpack::{Headers, HpackReason};
use kn_io::NoMemory;
use std::alloc::Global;

/// Finds the first rule that a frame breaks, if it breaks one, or what the header block stands for that
/// it ends. A block is decoded here and nowhere else, since its decoding is one of the rules.
#[tactic(auto, using(crate::proofs::VerdictFacts::early, crate::proofs::VerdictFacts::late))]
pub fn judge(state: &mut State, alloc: Global, frame: &Frame) -> Result<Judgement, NoMemory>
    ensures { IfOk result (λ judgement. Judges state.old frame.now judgement state.new) }
{
    match early_verdict(state, frame) {
        Some(code) => Ok(broken(state, alloc, code)),
        None => judge_block(state, alloc, frame),
    }
}

/// The code of the first broken rule before those of the header block.
fn early_verdict(state: &State, frame: &Frame) -> Option<u32>
    ensures { result ≡ early_verdict state.now frame.now }
{
    match frame_verdict(state, frame) {
        Some(code) => Some(code),
        None => verdict_on_state(state, frame),
    }
}

#[tactic(auto, using(crate::proofs::VerdictFacts::length_is_right))]
fn verdict_on_state(state: &State, frame: &Frame) -> Option<u32>
    requires { first_broken (frame_rules state.now frame.now) ≡ None }
    ensures { result ≡ or_broken (first_broken (window_rules state.now frame.now)) (first_broken (stream_rules state.now frame.now)) }
{
    match window_verdict(state, frame) {
        Some(code) => Some(code),
        None => stream_verdict(state, frame),
    }
}

/// A rule is broken, so no more blocks are read.
fn broken(state: &mut State, alloc: Global, code: u32) -> Judgement
    ensures state { state.new ≡ without_blocks state.old }
    ensures value { result ≡ Broken code }
{
    state.block = None;
    state.decoder = HeadDecoder::new(alloc);
    Judgement::Broken { code }
}

/// The rules of the header block.
#[tactic(auto, using(crate::proofs::VerdictFacts::late_other, crate::proofs::VerdictFacts::late_long))]
fn judge_block(state: &mut State, alloc: Global, frame: &Frame) -> Result<Judgement, NoMemory>
    ensures { IfOk result (λ judgement. JudgesBy (first_broken (block_rules state.old frame.now)) state.old frame.now judgement state.new) }
{
    if !is_of_block(frame) {
        return Ok(Judgement::Kept);
    }
    if is_too_long(state, frame) {
        return Ok(broken(state, alloc, errors::ENHANCE_YOUR_CALM));
    }
    if has(frame, flags::END_HEADERS) {
        judge_whole(state, alloc, frame)
    } else {
        judge_part(state, alloc, frame)
    }
}

/// A block that goes on after the frame.
#[tactic(auto, using(crate::proofs::VerdictFacts::late_part))]
fn judge_part(state: &mut State, alloc: Global, frame: &Frame) -> Result<Judgement, NoMemory>
    requires part { ends_block frame.now ≡ false }
    requires small { nat_lt block_limit (length (block_with state.old frame.now)) ≡ false }
    ensures { IfOk result (λ judgement. JudgesBy (first_broken (block_rules state.old frame.now)) state.old frame.now judgement state.new) }
{
    if is_second_head(state, frame) {
        return Ok(broken(state, alloc, errors::PROTOCOL_ERROR));
    }
    Ok(Judgement::Kept)
}

/// A block that ends with the frame.
#[tactic(auto, using(crate::proofs::VerdictFacts::late_fault, crate::proofs::VerdictFacts::late_fields))]
fn judge_whole(state: &mut State, alloc: Global, frame: &Frame) -> Result<Judgement, NoMemory>
    requires whole { ends_block frame.now ≡ true }
    requires small { nat_lt block_limit (length (block_with state.old frame.now)) ≡ false }
    ensures { IfOk result (λ judgement. JudgesBy (first_broken (block_rules state.old frame.now)) state.old frame.now judgement state.new) }
{
    let second = is_second_head(state, frame);
    let ends = block_ends(state, frame);
    match decode(state, alloc, frame) {
        Ok(fields) => {
            if second {
                Ok(broken(state, alloc, errors::PROTOCOL_ERROR))
            } else {
                Ok(Judgement::EndsBlock { ends, fields })
            }
        }
        Err(HeadError::Fault(fault)) => Ok(broken(state, alloc, fault_code(fault.reason))),
        Err(HeadError::NoMemory) => Err(NoMemory),
    }
}

/// The code of a block that has no reading.
fn fault_code(reason: HpackReason) -> u32
    ensures { result ≡ fault_code reason }
{
    if is_too_large(reason) {
        errors::ENHANCE_YOUR_CALM
    } else {
        errors::COMPRESSION_ERROR
    }
}

/// Decodes the block that ends with the frame. A block of one frame is read where it stands.
fn decode(state: &mut State, alloc: Global, frame: &Frame) -> Result<Headers, HeadError>
    ensures value { ReadsBlock state.old.decoder (block_with state.old frame.now) result state.new.decoder }
    ensures rest { state.new ≡ record state.old { block = None; decoder = state.new.decoder } }
{
    match state.block.take() {
        None => state.decoder.block(alloc, content(frame)),
        Some(block) => {
            let mut bytes = block.bytes;
            match bytes.append(content(frame)) {
                Ok(()) => state.decoder.block(alloc, bytes.as_slice()),
                Err(_no_memory) => {
                    state.decoder = HeadDecoder::new(alloc);
                    Err(HeadError::NoMemory)
                }
            }
        }
    }
}
