ghost use Rattle.std.specs.Prelude.{◌≡◌, OnOk, Some, false, is_some};
ghost use Rattle.std.specs.List.{AllByRecursion};
ghost use Rattle.kn_frames.specs.Frames.{IsWithinLimits};
ghost use Rattle.kn_h2_state.specs.Rules.{ends_block};
ghost use Rattle.kn_h2_state.specs.Effects.{effect};
ghost use Rattle.kn_h2_state.specs.Feeding.{after_frame, after_frames, after_fault, frame_code};
ghost use Rattle.kn_h2_state.specs.Holding.{Holds};
ghost use Rattle.kn_h2.specs.Passing.{Passes};

use crate::grants::window_update;
use crate::header_blocks::{grow_block, head_of};
use crate::replies::{goaway, ping};
use crate::resets::reset;
use crate::shifts::settings;
use crate::text::take_data;
use kn_frames::{Frame, FrameFault, FrameReason};
use kn_h2_state::{Judgement, State, errors, fail, is_of_block, judge, kinds};
use kn_io::NoMemory;
use std::alloc::Global;

/// What a frame does that breaks no rule and ends no header block. PRIORITY and unknown types do
/// nothing (RFC 9113, sections 5.3 and 5.5).
#[tactic(auto, using(crate::proofs::EffectLemmas::effect_data, crate::proofs::EffectLemmas::effect_block, crate::proofs::EffectLemmas::effect_reset, crate::proofs::EffectLemmas::effect_settings, crate::proofs::EffectLemmas::effect_ping, crate::proofs::EffectLemmas::effect_goaway, crate::proofs::EffectLemmas::effect_grant, crate::proofs::EffectLemmas::effect_none))]
fn effect(state: &mut State, alloc: Global, frame: &Frame) -> Result<(), NoMemory>
    requires holds { Holds state.old }
    requires limits { IsWithinLimits frame.now }
    requires passes { Passes state.old frame.now }
    requires whole { ends_block frame.now ≡ false }
    ensures { OnOk result (state.new ≡ effect state.old frame.now) }
{
    if frame.kind == kinds::DATA {
        take_data(state, frame)
    } else if is_of_block(frame) {
        grow_block(state, alloc, frame)
    } else if frame.kind == kinds::RST_STREAM {
        reset(state, frame)
    } else if frame.kind == kinds::SETTINGS {
        settings(state, frame)
    } else if frame.kind == kinds::PING {
        ping(state, frame)
    } else if frame.kind == kinds::GOAWAY {
        goaway(state, frame)
    } else if frame.kind == kinds::WINDOW_UPDATE {
        window_update(state, frame);
        Ok(())
    } else {
        Ok(())
    }
}

/// A frame of a connection that has not failed: it fails by the first rule that the frame breaks, or
/// the frame has its effect.
fn take_frame(state: &mut State, alloc: Global, frame: &Frame) -> Result<(), NoMemory>
    requires holds { Holds state.old }
    requires limits { IsWithinLimits frame.now }
    requires going { is_some state.old.failed ≡ false }
    ensures { OnOk result (state.new ≡ after_frame state.old frame.now) }
{
    match judge(state, alloc, frame) {
        Ok(Judgement::Broken { code }) => fail(state, code),
        Ok(Judgement::Kept) => {
            state.began = true;
            effect(state, alloc, frame)
        }
        Ok(Judgement::EndsBlock { ends, fields }) => {
            state.began = true;
            head_of(state, alloc, frame.stream, ends, fields)
        }
        Err(error) => Err(error),
    }
}

/// A frame. On a connection that has failed it does nothing.
#[tactic(auto, unfolding(kn_h2_state::specs::Feeding::after_frame))]
fn on_frame(state: &mut State, alloc: Global, frame: &Frame) -> Result<(), NoMemory>
    requires holds { Holds state.old }
    requires limits { IsWithinLimits frame.now }
    ensures { OnOk result (state.new ≡ after_frame state.old frame.now) }
{
    if state.failed.is_some() {
        Ok(())
    } else {
        take_frame(state, alloc, frame)
    }
}

/// Frames, one after another.
pub fn on_frames(state: &mut State, alloc: Global, frames: &[Frame]) -> Result<(), NoMemory>
    requires holds { Holds state.old }
    requires limits { AllByRecursion IsWithinLimits frames.now }
    ensures after { OnOk result (state.new ≡ after_frames state.old frames.now) }
    ensures holds { OnOk result (Holds state.new) }
{
    for frame in frames {
        on_frame(state, alloc, frame)?;
    }
    Ok(())
}

/// The code of bytes that are no frames.
fn frame_code(reason: FrameReason) -> u32
    ensures { result ≡ frame_code reason }
{
    match reason {
        FrameReason::Preface => errors::PROTOCOL_ERROR,
        FrameReason::TooLong => errors::FRAME_SIZE_ERROR,
    }
}

/// Bytes that are no frames. On a connection that has failed they do nothing.
pub fn on_fault(state: &mut State, fault: FrameFault) -> Result<(), NoMemory>
    requires { Holds state.old }
    ensures after { OnOk result (state.new ≡ after_fault state.old (Some fault)) }
    ensures holds { OnOk result (Holds state.new) }
{
    if state.failed.is_some() {
        Ok(())
    } else {
        fail(state, frame_code(fault.reason))
    }
}
