ghost use Rattle.std.specs.Prelude.{◌≡◌, List, ◌+◌, ◌<◌, ◌≤◌, ◌++◌, length, true};
ghost use Rattle.kn_frames.specs.declared.frame.Frame.{Frame};
ghost use Rattle.kn_frames.specs.declared.fault.Phase.TheVariants.{InPreface, InFrames, Failed};
ghost use Rattle.kn_frames.specs.Frames.{length_of, KeepsLimits};
ghost use Rattle.kn_frames.specs.Readers.{after_byte, frame_at, after_bytes, frames_in, Told, fault_of, fault_in};
ghost use Rattle.kn_frames.specs.Cutters.{seen, is_sound, Takes};

use crate::fault::Phase;
use crate::state::{State, fail, fail_too_long, hand_out};
use crate::{CutError, Frame, FrameFault, FrameReason, PREFACE, head};
use std::alloc::Global;

/// One more byte of the preface.
#[tactic(auto, unfolding(crate::specs::Frames::preface, crate::specs::Frames::length_of, crate::specs::Readers::after_byte))]
fn preface_byte(state: &mut State, byte: u8) -> Result<(), CutError>
    requires phase { state.old.phase ≡ InPreface }
    requires sound { is_sound state.old ≡ true }
    ensures state { Told result (seen state.new ≡ after_byte (seen state.old) byte) }
    ensures fault { Told result (fault_of result ≡ fault_in state.new.phase) }
    ensures sound { is_sound state.new ≡ true }
{
    let place = state.front.len();
    if byte != PREFACE[place] {
        let fault = FrameFault {
            offset: state.offset.saturating_add(place as u64),
            reason: FrameReason::Preface,
        };
        fail(state, fault);
        return Err(CutError::Fault(fault));
    }
    if place == 23 {
        state.front.clear();
        state.phase = Phase::InFrames;
        state.offset = state.offset.saturating_add(24);
        return Ok(());
    }
    state.front.push(byte);
    Ok(())
}

/// One more byte of a head.
fn head_byte(
    state: &mut State,
    alloc: Global,
    byte: u8,
    frames: &mut Vec<Frame>,
) -> Result<(), CutError>
    requires phase { state.old.phase ≡ InFrames }
    requires sound { is_sound state.old ≡ true }
    requires head { length state.old.front < 9 }
    ensures state { Told result (seen state.new ≡ after_byte (seen state.old) byte) }
    ensures frames { Told result (frames.new.items ≡ frames.old.items ++ frame_at (seen state.old) byte) }
    ensures fault { Told result (fault_of result ≡ fault_in state.new.phase) }
    ensures sound { Told result (is_sound state.new ≡ true) }
    ensures limits { Told result (KeepsLimits frames.old.items frames.new.items) }
{
    state.front.push(byte);
    if head::is_too_long(state.front.as_slice()) {
        return Err(CutError::Fault(fail_too_long(state)));
    }
    if head::length_of(state.front.as_slice()) == 0 && state.front.len() == 9 {
        return hand_out(state, alloc, frames);
    }
    Ok(())
}

/// More bytes of a payload, as many as the piece has of it.
fn body_part(
    state: &mut State,
    alloc: Global,
    piece: &[u8],
    frames: &mut Vec<Frame>,
) -> Result<usize, CutError>
    requires phase { state.old.phase ≡ InFrames }
    requires sound { is_sound state.old ≡ true }
    requires head { 9 ≤ length state.old.front }
    requires piece { 0 < length piece.now }
    ensures takes { Takes result (seen state.old) (seen state.new) piece.now frames.old.items frames.new.items }
    ensures sound { Told result (is_sound state.new ≡ true) }
    ensures limits { Told result (KeepsLimits frames.old.items frames.new.items) }
{
    let wanted = head::length_of(state.front.as_slice()) - state.body.len();
    if piece.len() < wanted {
        hold(state, piece)
    } else {
        end_frame(state, alloc, piece, wanted, frames)
    }
}

/// Holds a piece that does not end the payload.
fn hold(state: &mut State, piece: &[u8]) -> Result<usize, CutError>
    requires phase { state.old.phase ≡ InFrames }
    requires sound { is_sound state.old ≡ true }
    requires head { 9 ≤ length state.old.front }
    requires piece { 0 < length piece.now }
    requires part { length state.old.body + length piece.now < length_of state.old.front }
    ensures takes { (frames : List Frame) → Takes result (seen state.old) (seen state.new) piece.now frames frames }
    ensures sound { Told result (is_sound state.new ≡ true) }
{
    match state.body.append(piece) {
        Ok(()) => Ok(piece.len()),
        Err(_error) => Err(CutError::NoMemory),
    }
}

/// Ends the payload with the front of a piece, and hands out the frame.
fn end_frame(
    state: &mut State,
    alloc: Global,
    piece: &[u8],
    wanted: usize,
    frames: &mut Vec<Frame>,
) -> Result<usize, CutError>
    requires phase { state.old.phase ≡ InFrames }
    requires sound { is_sound state.old ≡ true }
    requires head { 9 ≤ length state.old.front }
    requires wanted { length state.old.body + wanted ≡ length_of state.old.front }
    requires piece { wanted ≤ length piece.now }
    ensures takes { Takes result (seen state.old) (seen state.new) piece.now frames.old.items frames.new.items }
    ensures sound { Told result (is_sound state.new ≡ true) }
    ensures limits { Told result (KeepsLimits frames.old.items frames.new.items) }
{
    match state.body.append(&piece[..wanted]) {
        Ok(()) => match hand_out(state, alloc, frames) {
            Ok(()) => Ok(wanted),
            Err(_error) => Err(CutError::NoMemory),
        },
        Err(_error) => Err(CutError::NoMemory),
    }
}

/// Reads from the front of a piece: a byte of the preface or of a head, or what it has of a payload.
fn step(
    state: &mut State,
    alloc: Global,
    piece: &[u8],
    frames: &mut Vec<Frame>,
) -> Result<usize, CutError>
    requires sound { is_sound state.old ≡ true }
    requires piece { 0 < length piece.now }
    ensures takes { Takes result (seen state.old) (seen state.new) piece.now frames.old.items frames.new.items }
    ensures sound { Told result (is_sound state.new ≡ true) }
    ensures limits { Told result (KeepsLimits frames.old.items frames.new.items) }
{
    match state.phase {
        Phase::InPreface => match preface_byte(state, piece[0]) {
            Ok(()) => Ok(1),
            Err(CutError::Fault(fault)) => Err(CutError::Fault(fault)),
            Err(CutError::NoMemory) => Err(CutError::NoMemory),
        },
        Phase::InFrames => frame_step(state, alloc, piece, frames),
        Phase::Failed(fault) => Err(CutError::Fault(fault)),
    }
}

/// Reads a byte of a head, or what a piece has of a payload.
fn frame_step(
    state: &mut State,
    alloc: Global,
    piece: &[u8],
    frames: &mut Vec<Frame>,
) -> Result<usize, CutError>
    requires phase { state.old.phase ≡ InFrames }
    requires sound { is_sound state.old ≡ true }
    requires piece { 0 < length piece.now }
    ensures takes { Takes result (seen state.old) (seen state.new) piece.now frames.old.items frames.new.items }
    ensures sound { Told result (is_sound state.new ≡ true) }
    ensures limits { Told result (KeepsLimits frames.old.items frames.new.items) }
{
    if state.front.len() >= 9 {
        return body_part(state, alloc, piece, frames);
    }
    match head_byte(state, alloc, piece[0], frames) {
        Ok(()) => Ok(1),
        Err(CutError::Fault(fault)) => Err(CutError::Fault(fault)),
        Err(CutError::NoMemory) => Err(CutError::NoMemory),
    }
}

/// Reads a piece, and adds the frames that become whole.
pub fn cut(
    state: &mut State,
    alloc: Global,
    piece: &[u8],
    frames: &mut Vec<Frame>,
) -> Result<(), CutError>
    requires sound { is_sound state.old ≡ true }
    ensures read { Told result (seen state.new ≡ after_bytes (seen state.old) piece.now) }
    ensures frames { Told result (frames.new.items ≡ frames.old.items ++ frames_in (seen state.old) piece.now) }
    ensures fault { Told result (fault_of result ≡ fault_in state.new.phase) }
    ensures sound { Told result (is_sound state.new ≡ true) }
    ensures limits { Told result (KeepsLimits frames.old.items frames.new.items) }
{
    if let Phase::Failed(fault) = state.phase {
        return Err(CutError::Fault(fault));
    }
    let mut at = 0;
    while at < piece.len() {
        match step(state, alloc, &piece[at..], frames) {
            Ok(taken) => at += taken,
            Err(CutError::Fault(fault)) => return Err(CutError::Fault(fault)),
            Err(CutError::NoMemory) => return Err(CutError::NoMemory),
        }
    }
    Ok(())
}
