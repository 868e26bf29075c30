// Sockets of the driver: they do not block, and each try is bounded.
use std::io::{self, Read, Write};
use std::net::{SocketAddr, TcpListener, TcpStream};
use std::thread;
use std::time::Duration;

/// How often something is tried before the step is given up.
pub const TRIES: u32 = 100_000;

/// Sleeps so many tenths of a millisecond.
pub fn pause(rt: &HostRuntime, tenths: u64) {
    thread::sleep(rt, Duration::from_micros(tenths.saturating_mul(100)));
}

/// A connection to the address, tried while nobody listens there.
pub fn connect(rt: &HostRuntime, address: SocketAddr) -> Option<TcpStream> {
    for _ in 0..2_000 {
        if let Ok(stream) = connect_once(rt, address) {
            return Some(stream);
        }
        pause(rt, 50);
    }
    None
}

/// A connection to the address, tried once.
pub fn connect_once(rt: &HostRuntime, address: SocketAddr) -> io::Result<TcpStream> {
    let stream = TcpStream::connect(rt, address)?;
    stream.set_nonblocking(true)?;
    stream.set_nodelay(true)?;
    Ok(stream)
}

/// The next connection of a listener that does not block.
pub fn accept(rt: &HostRuntime, listener: &TcpListener) -> Option<TcpStream> {
    for _ in 0..TRIES {
        match listener.accept() {
            Ok((stream, _)) => {
                if stream.set_nonblocking(true).is_ok() {
                    return Some(stream);
                }
                return None;
            }
            Err(error) => {
                if error.kind() != io::ErrorKind::WouldBlock {
                    return None;
                }
            }
        }
        pause(rt, 1);
    }
    None
}

/// What one try of a read or a write came to.
#[derive(Clone, Copy, Debug, PartialEq, Eq)]
pub enum Moved {
    Bytes(usize),
    Nothing,
    End,
    Failed,
}

fn answer_of(answer: io::Result<usize>) -> Moved {
    match answer {
        Ok(0) => Moved::End,
        Ok(count) => Moved::Bytes(count),
        Err(error) => {
            if error.kind() == io::ErrorKind::WouldBlock {
                Moved::Nothing
            } else {
                Moved::Failed
            }
        }
    }
}

// The byte at an offset of what is sent.
fn byte_at(offset: usize) -> u8 {
    (offset % 251) as u8
}

// Writes some of the bytes from an offset up to the count.
fn write_some(stream: &mut TcpStream, offset: usize, count: usize) -> Moved {
    let mut piece = [0u8; 4_096];
    for (index, byte) in piece.iter_mut().enumerate() {
        *byte = byte_at(offset.saturating_add(index));
    }
    let length = count.saturating_sub(offset).min(4_096);
    match piece.get(..length) {
        Some(bytes) => answer_of(stream.write(bytes)),
        None => Moved::Failed,
    }
}

// Reads some bytes, which have to be those from an offset on.
fn read_some(stream: &mut TcpStream, offset: usize) -> Moved {
    let mut room = [0u8; 4_096];
    let came = answer_of(stream.read(&mut room));
    if let Moved::Bytes(count) = came {
        for (index, byte) in room.iter().take(count).enumerate() {
            if *byte != byte_at(offset.saturating_add(index)) {
                return Moved::Failed;
            }
        }
    }
    came
}

/// Passes so many bytes from one socket to the other, through whatever is between them, and says whether all came
/// as they were sent.
pub fn pass(rt: &HostRuntime, from: &mut TcpStream, to: &mut TcpStream, count: usize) -> bool {
    let mut sent = 0usize;
    let mut got = 0usize;
    for _ in 0..TRIES {
        if got >= count {
            return got == count;
        }
        let mut moves = false;
        if sent < count {
            match write_some(from, sent, count) {
                Moved::Bytes(some) => {
                    sent = sent.saturating_add(some);
                    moves = true;
                }
                Moved::Nothing => {}
                Moved::End | Moved::Failed => return false,
            }
        }
        match read_some(to, got) {
            Moved::Bytes(some) => {
                got = got.saturating_add(some);
                moves = true;
            }
            Moved::Nothing => {}
            Moved::End | Moved::Failed => return false,
        }
        if !moves {
            pause(rt, 1);
        }
    }
    false
}

/// Whether the other end closes, and nothing comes before that.
pub fn closes(rt: &HostRuntime, stream: &mut TcpStream, tries: u32) -> bool {
    let mut room = [0u8; 16];
    for _ in 0..tries {
        match answer_of(stream.read(&mut room)) {
            Moved::Nothing => {}
            Moved::End => return true,
            Moved::Bytes(_) | Moved::Failed => return false,
        }
        pause(rt, 1);
    }
    false
}

/// Sends a request for a tunnel, and answers the status of the reply, byte by byte up to its empty line.
pub fn ask(rt: &HostRuntime, stream: &mut TcpStream, head: &str) -> Option<[u8; 3]> {
    if !write_all(rt, stream, head.as_bytes()) {
        return None;
    }
    let mut status = [0u8; 3];
    let mut ended = 0u8;
    let mut place = 0usize;
    for _ in 0..TRIES {
        let mut room = [0u8; 1];
        match answer_of(stream.read(&mut room)) {
            Moved::Bytes(_) => {
                let [byte] = room;
                if let Some(index) = place.checked_sub(9) {
                    if let Some(digit) = status.get_mut(index) {
                        *digit = byte;
                    }
                }
                place = place.saturating_add(1);
                ended = next_end(ended, byte);
                if ended == 4 {
                    return Some(status);
                }
            }
            Moved::Nothing => pause(rt, 1),
            Moved::End | Moved::Failed => return None,
        }
    }
    None
}

// How much of an empty line has come.
fn next_end(ended: u8, byte: u8) -> u8 {
    match (ended, byte) {
        (0, b'\r') | (2, b'\r') => ended.saturating_add(1),
        (1, b'\n') | (3, b'\n') => ended.saturating_add(1),
        (_, b'\r') => 1,
        _ => 0,
    }
}

fn write_all(rt: &HostRuntime, stream: &mut TcpStream, bytes: &[u8]) -> bool {
    let mut rest = bytes;
    for _ in 0..TRIES {
        if rest.is_empty() {
            return true;
        }
        match answer_of(stream.write(rest)) {
            Moved::Bytes(count) => match rest.get(count..) {
                Some(after) => rest = after,
                None => return false,
            },
            Moved::Nothing => pause(rt, 1),
            Moved::End | Moved::Failed => return false,
        }
    }
    false
}
