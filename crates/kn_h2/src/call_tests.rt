//! Each call once with enough memory: what the peer's bytes and the owner's calls are answered with.

use crate::call_rows::{Row, Step, Told};
use crate::*;
use kn_hpack::Headers;
use kn_io::NoMemory;
use std::alloc::Global;
use std::process::Abort;
use std::test::Fail;

/// The fields of this end's heads.
const REQUEST: [(&[u8], &[u8]); 3] = [
    (b":method", b"POST"),
    (b":scheme", b"http"),
    (b":path", b"/"),
];

const RESPONSE: [(&[u8], &[u8]); 1] = [(b":status", b"200")];

const TRAILERS: [(&[u8], &[u8]); 1] = [(b"grpc-status", b"0")];

fn headers(alloc: Global, fields: &[(&[u8], &[u8])]) -> Result<Headers, NoMemory> {
    let mut headers = Headers::new(alloc);
    for (name, value) in fields {
        headers.add(alloc, name, value)?;
    }
    Ok(headers)
}

fn joined(alloc: Global, parts: &[&[u8]]) -> Result<Vec<u8>, NoMemory> {
    let mut bytes = Vec::new(alloc);
    for part in parts {
        bytes.extend_from_slice(part)?;
    }
    Ok(bytes)
}

fn feed_joined(alloc: Global, conn: &mut Conn, parts: &[&[u8]]) -> Result<bool, NoMemory> {
    let bytes = joined(alloc, parts)?;
    conn.feed(alloc, &bytes)?;
    Ok(true)
}

fn feed_times(
    alloc: Global,
    conn: &mut Conn,
    times: usize,
    bytes: &[u8],
) -> Result<bool, NoMemory> {
    for _ in 0..times {
        conn.feed(alloc, bytes)?;
    }
    Ok(true)
}

fn feed_singly(alloc: Global, conn: &mut Conn, bytes: &[u8]) -> Result<bool, NoMemory> {
    for byte in bytes {
        conn.feed(alloc, &[*byte])?;
    }
    Ok(true)
}

/// These bytes, and so many zeros.
fn feed_long(alloc: Global, conn: &mut Conn, bytes: &[u8], zeros: usize) -> Result<bool, NoMemory> {
    conn.feed(alloc, bytes)?;
    feed_times(alloc, conn, zeros, &[0])
}

/// A request whose head ends nothing, on each of so many streams from this one on.
fn feed_requests(alloc: Global, conn: &mut Conn, first: u8, count: u8) -> Result<bool, NoMemory> {
    let mut stream = first;
    for _ in 0..count {
        conn.feed(alloc, &[0, 0, 3, 1, 4, 0, 0, 0, stream, 0x83, 0x86, 0x84])?;
        stream = stream.wrapping_add(2);
    }
    Ok(true)
}

fn told(event: &H2Event) -> Told {
    match event {
        H2Event::Opened { stream, headers } => Told::Opened(*stream, headers.len()),
        H2Event::Head { stream, headers } => Told::Head(*stream, headers.len()),
        H2Event::Text { stream } => Told::Text(*stream),
        H2Event::Ended { stream } => Told::Ended(*stream),
        H2Event::Reset { stream, code } => Told::Reset(*stream, *code),
        H2Event::Away { code } => Told::Away(*code),
        H2Event::Closed { code } => Told::Closed(*code),
    }
}

/// These are the next events, and the last.
fn tells(conn: &mut Conn, events: &[Told]) -> bool {
    for want in events {
        match conn.next_event() {
            Some(event) => if told(&event) != *want {
                return false;
            },
            None => return false,
        }
    }
    conn.next_event().is_none()
}

/// So many events were told, and not one more.
fn tells_so_many(conn: &mut Conn, count: usize) -> bool {
    for _ in 0..count {
        if conn.next_event().is_none() {
            return false;
        }
    }
    conn.next_event().is_none()
}

pub(crate) fn begins(
    alloc: Global,
    conn: &mut Conn,
    want: Result<u32, BeginRefusal>,
) -> Result<bool, NoMemory> {
    let head = headers(alloc, &REQUEST)?;
    match conn.role() {
        Role::Client => Ok(conn.begin(alloc, &head) == want),
        Role::Server => Ok(false),
    }
}

fn answers(
    alloc: Global,
    conn: &mut Conn,
    stream: u32,
    want: Result<(), QueueRefusal>,
) -> Result<bool, NoMemory> {
    let head = headers(alloc, &RESPONSE)?;
    if conn.awaits_answer(stream) {
        Ok(conn.answer(alloc, stream, &head) == want)
    } else {
        Ok(false)
    }
}

fn queues(conn: &mut Conn, stream: u32, bytes: &[u8], want: Result<(), QueueRefusal>) -> bool {
    if conn.awaits_answer(stream) {
        false
    } else {
        conn.queue(stream, bytes) == want
    }
}

fn queues_long(
    alloc: Global,
    conn: &mut Conn,
    stream: u32,
    count: usize,
) -> Result<bool, NoMemory> {
    let bytes = vec![in alloc; 7; count]?;
    Ok(queues(conn, stream, &bytes, Ok(())))
}

fn finishes(
    alloc: Global,
    conn: &mut Conn,
    stream: u32,
    want: Result<(), QueueRefusal>,
) -> Result<bool, NoMemory> {
    match conn.role() {
        Role::Client => Ok(conn.finish(stream, Headers::new(alloc)) == want),
        Role::Server => {
            let trailers = headers(alloc, &TRAILERS)?;
            Ok(conn.finish(stream, trailers) == want)
        }
    }
}

/// All that waits for the socket is taken, and was this.
fn writes(alloc: Global, conn: &mut Conn, parts: &[&[u8]]) -> Result<bool, NoMemory> {
    let bytes = joined(alloc, parts)?;
    let same = conn.out() == bytes.as_slice();
    took_all(conn);
    Ok(same)
}

fn writes_so_many(conn: &mut Conn, count: usize) -> bool {
    let same = conn.out().len() == count;
    took_all(conn);
    same
}

fn took_all(conn: &mut Conn) {
    let count = conn.out().len();
    conn.took(count);
}

fn takes(conn: &mut Conn, stream: u32, count: usize) -> bool {
    let is_there = count <= conn.text(stream).len();
    if is_there {
        conn.take(stream, count);
    }
    is_there
}

fn holds_text(conn: &Conn, stream: u32, bytes: &[u8]) -> bool {
    conn.text(stream) == bytes
}

fn fills(alloc: Global, conn: &mut Conn) -> Result<bool, NoMemory> {
    conn.fill(alloc)?;
    Ok(true)
}

/// The step is answered as it says.
fn is_so(alloc: Global, conn: &mut Conn, step: &Step) -> Result<bool, NoMemory> {
    match step {
        Step::Feed(parts) => feed_joined(alloc, conn, parts),
        Step::FeedTimes(times, bytes) => feed_times(alloc, conn, *times, bytes),
        Step::FeedSingly(bytes) => feed_singly(alloc, conn, bytes),
        Step::FeedLong(bytes, zeros) => feed_long(alloc, conn, bytes, *zeros),
        Step::FeedRequests(first, count) => feed_requests(alloc, conn, *first, *count),
        Step::Begin(want) => begins(alloc, conn, *want),
        Step::Answer(stream, want) => answers(alloc, conn, *stream, *want),
        Step::QueueLong(stream, count) => queues_long(alloc, conn, *stream, *count),
        Step::Finish(stream, want) => finishes(alloc, conn, *stream, *want),
        Step::Reset(stream, code, want) => Ok(conn.reset(alloc, *stream, *code) == *want),
        Step::Fill => fills(alloc, conn),
        Step::Writes(parts) => writes(alloc, conn, parts),
        Step::Tells(_)
        | Step::TellsSoMany(_)
        | Step::Queue(_, _, _)
        | Step::WritesSoMany(_)
        | Step::Take(_, _)
        | Step::Text(_, _)
        | Step::Queued(_, _)
        | Step::Unsent(_)
        | Step::Held(_)
        | Step::Closed(_, _)
        | Step::Over(_) => Ok(is_seen(conn, step)),
    }
}

/// The same of a step that takes no memory.
fn is_seen(conn: &mut Conn, step: &Step) -> bool {
    match step {
        Step::Tells(events) => tells(conn, events),
        Step::TellsSoMany(count) => tells_so_many(conn, *count),
        Step::Queue(stream, bytes, want) => queues(conn, *stream, bytes, *want),
        Step::WritesSoMany(count) => writes_so_many(conn, *count),
        Step::Take(stream, count) => takes(conn, *stream, *count),
        Step::Text(stream, bytes) => holds_text(conn, *stream, bytes),
        Step::Queued(stream, count) => conn.queued(*stream) == *count,
        Step::Unsent(count) => conn.unsent() == *count,
        Step::Held(count) => conn.held() == *count,
        Step::Closed(stream, want) => conn.closed(*stream) == *want,
        Step::Over(code) => conn.over() == *code,
        _ => false,
    }
}

fn play(rt: &impl Abort, alloc: Global, row: &Row) -> Result<(), Fail> {
    let (name, role, steps) = row;
    let mut conn = Conn::new(alloc, *role)?;
    for (index, step) in steps.iter().enumerate() {
        assert!(rt; is_so(alloc, &mut conn, step)?, "{name}: step {index}");
    }
    Ok(())
}

fn play_all(rt: &impl Abort, alloc: Global, rows: &[Row]) -> Result<(), Fail> {
    for row in rows {
        play(rt, alloc, row)?;
    }
    Ok(())
}

#[test]
fn each_call_is_answered(rt: HostRuntime) -> Result<(), Fail> {
    play_all(&rt, rt.alloc(), &crate::call_rows::ROWS)
}
