//! In what pieces a node is given bytes.
ghost use Rattle.std.specs.Prelude.{◌≡◌, take, drop, IfOk};
ghost use Rattle.kn_world.specs.Pieces as spec;

use crate::flow::Flow;
use kn_io::{Blob, NoMemory};
use std::alloc::Global;

/// The most bytes that a node is given at once.
pub const PIECE: usize = 16_384;

/// How many pieces so many bytes make.
pub fn pieces(count: usize) -> usize
    ensures { result ≡ spec.pieces count }
{
    count / PIECE + (count % PIECE).min(1)
}

/// The first piece of some bytes.
#[tactic(auto, using(crate::proofs::FlowLemmas::take_min))]
pub fn head_of(bytes: &[u8]) -> &[u8]
    ensures { result.now ≡ take PIECE bytes.now }
{
    &bytes[..PIECE.min(bytes.len())]
}

/// What follows the first piece.
#[tactic(auto, using(crate::proofs::FlowLemmas::drop_min))]
pub fn rest_of(bytes: &[u8]) -> &[u8]
    ensures { result.now ≡ drop PIECE bytes.now }
{
    &bytes[PIECE.min(bytes.len())..]
}

/// The first piece of what waits.
pub fn first_piece(alloc: Global, flow: &Flow) -> Result<Blob, NoMemory>
    ensures { IfOk result (λ piece. piece ≡ take PIECE flow.now.waiting) }
{
    Blob::of(alloc, head_of(flow.waiting()))
}
