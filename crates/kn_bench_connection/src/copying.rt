use crate::fault::Fault;
use std::alloc::Global;

/// How many bytes are handed over at once.
pub const PIECE: usize = 16_384;

/// A piece of letters.
pub fn piece(alloc: Global) -> Result<Vec<u8>, Fault> {
    let mut bytes = Vec::with_capacity(alloc, PIECE)?;
    for _ in 0..PIECE {
        bytes.push(b'x')?;
    }
    Ok(bytes)
}

/// The first bytes of a piece, so many where it has them.
pub fn first_of(piece: &[u8], count: usize) -> &[u8] {
    match piece.get(..count) {
        Some(bytes) => bytes,
        None => piece,
    }
}

/// Copies the bytes into the room, which keeps its memory.
fn copy(room: &mut Vec<u8>, bytes: &[u8]) -> Result<usize, Fault> {
    room.clear();
    room.extend_from_slice(bytes)?;
    Ok(room.len())
}

/// Copies so many bytes, a piece at a time, and tells how many were copied.
fn copy_all(alloc: Global, bytes: u64) -> Result<u64, Fault> {
    let from = piece(alloc)?;
    let mut room = Vec::with_capacity(alloc, PIECE)?;
    let mut count = 0u64;
    for _ in 0..bytes / PIECE as u64 {
        count = count.saturating_add(copy(&mut room, &from)? as u64);
    }
    let rest = (bytes % PIECE as u64) as usize;
    Ok(count.saturating_add(copy(&mut room, first_of(&from, rest))? as u64))
}

/// So many times over, all counted together.
pub fn copy_times(alloc: Global, bytes: u64, times: u32) -> Result<u64, Fault> {
    let mut count = 0u64;
    for _ in 0..times {
        count = count.saturating_add(copy_all(alloc, bytes)?);
    }
    Ok(count)
}
