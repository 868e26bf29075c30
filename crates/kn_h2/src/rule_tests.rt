//! The code with which a connection fails at each rule that a frame may break, and frames that break none.

use crate::call_tests::begins;
use crate::*;
use kn_io::NoMemory;
use std::alloc::Global;
use std::process::Abort;
use std::test::Fail;

/// What is tried, the end that reads it once stream 1 is open, the frames, and the code.
type Case = (&'static str, Role, &'static [u8], Option<u32>);

const CASES: [Case; 55] = [
    (
        "a frame of 16,385 bytes",
        Role::Server,
        b"\x00\x40\x01\x00\x00\x00\x00\x00\x01",
        Some(6),
    ),
    (
        "CONTINUATION outside a header block",
        Role::Server,
        b"\x00\x00\x00\x09\x04\x00\x00\x00\x01",
        Some(1),
    ),
    (
        "CONTINUATION of another stream",
        Role::Server,
        b"\x00\x00\x01\x01\x00\x00\x00\x00\x03\x83\x00\x00\x01\x09\x04\x00\x00\x00\x05\x86",
        Some(1),
    ),
    (
        "DATA on stream 0",
        Role::Server,
        b"\x00\x00\x00\x00\x00\x00\x00\x00\x00",
        Some(1),
    ),
    (
        "HEADERS on stream 0",
        Role::Server,
        b"\x00\x00\x03\x01\x05\x00\x00\x00\x00\x83\x86\x84",
        Some(1),
    ),
    (
        "PRIORITY on stream 0",
        Role::Server,
        b"\x00\x00\x05\x02\x00\x00\x00\x00\x00\x00\x00\x00\x00\x00",
        Some(1),
    ),
    (
        "RST_STREAM on stream 0",
        Role::Server,
        b"\x00\x00\x04\x03\x00\x00\x00\x00\x00\x00\x00\x00\x08",
        Some(1),
    ),
    (
        "SETTINGS on a stream",
        Role::Server,
        b"\x00\x00\x00\x04\x00\x00\x00\x00\x01",
        Some(1),
    ),
    (
        "PING on a stream",
        Role::Server,
        b"\x00\x00\x08\x06\x00\x00\x00\x00\x01\x00\x00\x00\x00\x00\x00\x00\x00",
        Some(1),
    ),
    (
        "GOAWAY on a stream",
        Role::Server,
        b"\x00\x00\x08\x07\x00\x00\x00\x00\x01\x00\x00\x00\x00\x00\x00\x00\x00",
        Some(1),
    ),
    (
        "PUSH_PROMISE of a client",
        Role::Server,
        b"\x00\x00\x07\x05\x04\x00\x00\x00\x01\x00\x00\x00\x02\x83\x86\x84",
        Some(1),
    ),
    (
        "PUSH_PROMISE of a server",
        Role::Client,
        b"\x00\x00\x07\x05\x04\x00\x00\x00\x01\x00\x00\x00\x02\x83\x86\x84",
        Some(1),
    ),
    (
        "PRIORITY of 4 bytes",
        Role::Server,
        b"\x00\x00\x04\x02\x00\x00\x00\x00\x01\x00\x00\x00\x00",
        Some(6),
    ),
    (
        "PRIORITY of 5 bytes",
        Role::Server,
        b"\x00\x00\x05\x02\x00\x00\x00\x00\x01\x00\x00\x00\x00\x00",
        None,
    ),
    (
        "RST_STREAM of 3 bytes",
        Role::Server,
        b"\x00\x00\x03\x03\x00\x00\x00\x00\x01\x00\x00\x00",
        Some(6),
    ),
    (
        "WINDOW_UPDATE of 5 bytes",
        Role::Server,
        b"\x00\x00\x05\x08\x00\x00\x00\x00\x01\x00\x00\x00\x00\x00",
        Some(6),
    ),
    (
        "PING of 7 bytes",
        Role::Server,
        b"\x00\x00\x07\x06\x00\x00\x00\x00\x00\x00\x00\x00\x00\x00\x00\x00",
        Some(6),
    ),
    (
        "GOAWAY of 7 bytes",
        Role::Server,
        b"\x00\x00\x07\x07\x00\x00\x00\x00\x00\x00\x00\x00\x00\x00\x00\x00",
        Some(6),
    ),
    (
        "GOAWAY of 9 bytes",
        Role::Server,
        b"\x00\x00\x09\x07\x00\x00\x00\x00\x00\x00\x00\x00\x00\x00\x00\x00\x00\x00",
        None,
    ),
    (
        "SETTINGS of 5 bytes",
        Role::Server,
        b"\x00\x00\x05\x04\x00\x00\x00\x00\x00\x00\x00\x00\x00\x00",
        Some(6),
    ),
    (
        "an acknowledgement with a setting",
        Role::Server,
        b"\x00\x00\x06\x04\x01\x00\x00\x00\x00\x00\x03\x00\x00\x00\x01",
        Some(6),
    ),
    (
        "padded DATA without its pad length",
        Role::Server,
        b"\x00\x00\x00\x00\x08\x00\x00\x00\x01",
        Some(6),
    ),
    (
        "HEADERS without its priority",
        Role::Server,
        b"\x00\x00\x04\x01\x25\x00\x00\x00\x03\x00\x00\x00\x00",
        Some(6),
    ),
    (
        "padding longer than the payload",
        Role::Server,
        b"\x00\x00\x02\x00\x08\x00\x00\x00\x01\x02\x00",
        Some(1),
    ),
    (
        "padding as long as the payload",
        Role::Server,
        b"\x00\x00\x02\x00\x08\x00\x00\x00\x01\x01\x00",
        None,
    ),
    (
        "ENABLE_PUSH 2",
        Role::Server,
        b"\x00\x00\x06\x04\x00\x00\x00\x00\x00\x00\x02\x00\x00\x00\x02",
        Some(1),
    ),
    (
        "ENABLE_PUSH 1 of a client",
        Role::Server,
        b"\x00\x00\x06\x04\x00\x00\x00\x00\x00\x00\x02\x00\x00\x00\x01",
        None,
    ),
    (
        "ENABLE_PUSH 1 of a server",
        Role::Client,
        b"\x00\x00\x06\x04\x00\x00\x00\x00\x00\x00\x02\x00\x00\x00\x01",
        Some(1),
    ),
    (
        "MAX_FRAME_SIZE 16,383",
        Role::Server,
        b"\x00\x00\x06\x04\x00\x00\x00\x00\x00\x00\x05\x00\x00\x3f\xff",
        Some(1),
    ),
    (
        "MAX_FRAME_SIZE 16,384, then 16,777,215",
        Role::Server,
        b"\x00\x00\x0c\x04\x00\x00\x00\x00\x00\x00\x05\x00\x00\x40\x00\x00\x05\x00\xff\xff\xff",
        None,
    ),
    (
        "MAX_FRAME_SIZE 16,777,216",
        Role::Server,
        b"\x00\x00\x06\x04\x00\x00\x00\x00\x00\x00\x05\x01\x00\x00\x00",
        Some(1),
    ),
    (
        "an unknown setting",
        Role::Server,
        b"\x00\x00\x06\x04\x00\x00\x00\x00\x00\x00\x99\xff\xff\xff\xff",
        None,
    ),
    (
        "INITIAL_WINDOW_SIZE 2,147,483,647",
        Role::Server,
        b"\x00\x00\x06\x04\x00\x00\x00\x00\x00\x00\x04\x7f\xff\xff\xff",
        None,
    ),
    (
        "INITIAL_WINDOW_SIZE 2,147,483,648",
        Role::Server,
        b"\x00\x00\x06\x04\x00\x00\x00\x00\x00\x00\x04\x80\x00\x00\x00",
        Some(3),
    ),
    (
        "INITIAL_WINDOW_SIZE that shifts a window too high",
        Role::Server,
        b"\x00\x00\x04\x08\x00\x00\x00\x00\x01\x00\x00\x00\x01\x00\x00\x06\x04\x00\x00\x00\x00\x00\x00\x04\x7f\xff\xff\xff",
        Some(3),
    ),
    (
        "WINDOW_UPDATE of a stream by 0",
        Role::Server,
        b"\x00\x00\x04\x08\x00\x00\x00\x00\x01\x00\x00\x00\x00",
        Some(1),
    ),
    (
        "WINDOW_UPDATE of a stream to 2,147,483,647",
        Role::Server,
        b"\x00\x00\x04\x08\x00\x00\x00\x00\x01\x7f\xff\x00\x00",
        None,
    ),
    (
        "WINDOW_UPDATE of a stream to 2,147,483,648",
        Role::Server,
        b"\x00\x00\x04\x08\x00\x00\x00\x00\x01\x7f\xff\x00\x01",
        Some(3),
    ),
    (
        "WINDOW_UPDATE of the connection to 2,147,483,648",
        Role::Server,
        b"\x00\x00\x04\x08\x00\x00\x00\x00\x00\x7f\xff\x00\x01",
        Some(3),
    ),
    (
        "DATA on an idle stream",
        Role::Server,
        b"\x00\x00\x00\x00\x00\x00\x00\x00\x03",
        Some(1),
    ),
    (
        "RST_STREAM on an idle stream",
        Role::Server,
        b"\x00\x00\x04\x03\x00\x00\x00\x00\x03\x00\x00\x00\x08",
        Some(1),
    ),
    (
        "WINDOW_UPDATE of an idle stream",
        Role::Server,
        b"\x00\x00\x04\x08\x00\x00\x00\x00\x03\x00\x00\x00\x01",
        Some(1),
    ),
    (
        "HEADERS on an even stream",
        Role::Server,
        b"\x00\x00\x03\x01\x05\x00\x00\x00\x02\x83\x86\x84",
        Some(1),
    ),
    (
        "HEADERS of a server on an idle stream",
        Role::Client,
        b"\x00\x00\x01\x01\x05\x00\x00\x00\x03\x88",
        Some(1),
    ),
    (
        "DATA after the end",
        Role::Server,
        b"\x00\x00\x00\x00\x01\x00\x00\x00\x01\x00\x00\x01\x00\x00\x00\x00\x00\x01\x61",
        Some(5),
    ),
    (
        "HEADERS after the end",
        Role::Server,
        b"\x00\x00\x00\x00\x01\x00\x00\x00\x01\x00\x00\x03\x01\x05\x00\x00\x00\x01\x83\x86\x84",
        Some(5),
    ),
    (
        "DATA before the head of a response",
        Role::Client,
        b"\x00\x00\x01\x00\x00\x00\x00\x00\x01\x61",
        Some(1),
    ),
    (
        "DATA behind the head of a response",
        Role::Client,
        b"\x00\x00\x01\x01\x04\x00\x00\x00\x01\x88\x00\x00\x01\x00\x00\x00\x00\x00\x01\x61",
        None,
    ),
    (
        "a header block that cannot be read",
        Role::Server,
        b"\x00\x00\x01\x01\x05\x00\x00\x00\x03\x80",
        Some(9),
    ),
    (
        "a second head without END_STREAM",
        Role::Server,
        b"\x00\x00\x03\x01\x04\x00\x00\x00\x01\x83\x86\x84",
        Some(1),
    ),
    (
        "trailers",
        Role::Server,
        b"\x00\x00\x03\x01\x05\x00\x00\x00\x01\x83\x86\x84",
        None,
    ),
    (
        "a second head of a response without END_STREAM",
        Role::Client,
        b"\x00\x00\x01\x01\x04\x00\x00\x00\x01\x88\x00\x00\x01\x01\x04\x00\x00\x00\x01\x88",
        Some(1),
    ),
    (
        "an interim response, and then the head",
        Role::Client,
        b"\x00\x00\x05\x01\x04\x00\x00\x00\x01\x48\x03\x31\x30\x30\x00\x00\x01\x01\x04\x00\x00\x00\x01\x88",
        None,
    ),
    (
        "frames on a closed stream",
        Role::Server,
        b"\x00\x00\x04\x03\x00\x00\x00\x00\x01\x00\x00\x00\x08\x00\x00\x01\x00\x00\x00\x00\x00\x01\x61\x00\x00\x04\x03\x00\x00\x00\x00\x01\x00\x00\x00\x08\x00\x00\x04\x08\x00\x00\x00\x00\x01\x00\x00\x00\x01\x00\x00\x03\x01\x05\x00\x00\x00\x01\x83\x86\x84",
        None,
    ),
    (
        "an unknown frame",
        Role::Server,
        b"\x00\x00\x03\x0b\xff\x00\x00\x00\x01abc",
        None,
    ),
];

/// Stream 1 is open: at a server the head of its request came, at a client it went.
fn opens_one(alloc: Global, conn: &mut Conn) -> Result<bool, NoMemory> {
    match conn.role() {
        Role::Server => {
            conn.feed(alloc, crate::call_rows::PREFACE)?;
            conn.feed(alloc, b"\x00\x00\x03\x01\x04\x00\x00\x00\x01\x83\x86\x84")?;
            Ok(true)
        }
        Role::Client => {
            conn.feed(alloc, crate::call_rows::SETTINGS)?;
            begins(alloc, conn, Ok(1))
        }
    }
}

fn fails_as(
    alloc: Global,
    conn: &mut Conn,
    frames: &[u8],
    code: Option<u32>,
) -> Result<bool, NoMemory> {
    conn.feed(alloc, frames)?;
    Ok(conn.over() == code)
}

fn try_case(rt: &impl Abort, alloc: Global, case: &Case) -> Result<(), Fail> {
    let (name, role, frames, code) = case;
    let mut conn = Conn::new(alloc, *role)?;
    assert!(rt; opens_one(alloc, &mut conn)?, "{name}: stream 1");
    assert!(rt; fails_as(alloc, &mut conn, frames, *code)?, "{name}");
    Ok(())
}

fn try_all(rt: &impl Abort, alloc: Global, cases: &[Case]) -> Result<(), Fail> {
    for case in cases {
        try_case(rt, alloc, case)?;
    }
    Ok(())
}

#[test]
fn each_rule_has_its_code(rt: HostRuntime) -> Result<(), Fail> {
    try_all(&rt, rt.alloc(), &CASES)
}
