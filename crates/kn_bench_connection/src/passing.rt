use crate::copying::{PIECE, first_of, piece};
use crate::fault::Fault;
use kn_h2::{Conn, H2Event, Role};
use kn_hpack::Headers;
use std::alloc::Global;

/// The most events that are asked for after a piece.
const EVENTS: usize = 1_000;

/// The fields that a request has to have.
fn request(alloc: Global) -> Result<Headers, Fault> {
    let mut headers = Headers::new(alloc);
    headers.add(alloc, b":method", b"POST")?;
    headers.add(alloc, b":scheme", b"http")?;
    headers.add(alloc, b":path", b"/")?;
    headers.add(alloc, b":authority", b"bench")?;
    Ok(headers)
}

fn begin(alloc: Global, client: &mut Conn) -> Result<u32, Fault> {
    let headers = request(alloc)?;
    match client.role() {
        Role::Client => Ok(client.begin(alloc, &headers)?),
        Role::Server => Err(Fault::Refused),
    }
}

fn queue(client: &mut Conn, stream: u32, bytes: &[u8]) -> Result<(), Fault> {
    if client.awaits_answer(stream) {
        Err(Fault::Refused)
    } else {
        client.queue(stream, bytes)?;
        Ok(())
    }
}

fn finish(alloc: Global, client: &mut Conn, stream: u32) -> Result<(), Fault> {
    client.finish(stream, Headers::new(alloc))?;
    Ok(())
}

/// All that waits at the one end goes to the other.
fn hand_over(alloc: Global, from: &mut Conn, to: &mut Conn) -> Result<(), Fault> {
    from.fill(alloc)?;
    to.feed(alloc, from.out())?;
    let count = from.out().len();
    from.took(count);
    Ok(())
}

/// Takes all text of a stream that came, and tells how many bytes it was.
fn take(server: &mut Conn, stream: u32) -> usize {
    let count = server.text(stream).len();
    server.take(stream, count);
    count
}

/// Takes the text of each event, and tells how many bytes it was. Other events are let go.
fn take_told(server: &mut Conn) -> u64 {
    let mut count = 0u64;
    for _ in 0..EVENTS {
        match server.next_event() {
            Some(H2Event::Text { stream }) => {
                count = count.saturating_add(take(server, stream) as u64);
            }
            Some(_) => {}
            None => return count,
        }
    }
    count
}

/// What the client may write goes to the server, which takes it, and what the server grants goes back.
fn exchange(alloc: Global, client: &mut Conn, server: &mut Conn) -> Result<u64, Fault> {
    hand_over(alloc, client, server)?;
    let count = take_told(server);
    hand_over(alloc, server, client)?;
    Ok(count)
}

fn pass(
    alloc: Global,
    client: &mut Conn,
    server: &mut Conn,
    stream: u32,
    bytes: &[u8],
) -> Result<u64, Fault> {
    queue(client, stream, bytes)?;
    exchange(alloc, client, server)
}

/// Whole pieces, so many.
fn pass_pieces(
    alloc: Global,
    client: &mut Conn,
    server: &mut Conn,
    stream: u32,
    pieces: u64,
) -> Result<u64, Fault> {
    let bytes = piece(alloc)?;
    let mut count = 0u64;
    for _ in 0..pieces {
        let taken = pass(alloc, client, server, stream, &bytes)?;
        count = count.saturating_add(taken);
    }
    Ok(count)
}

/// Less than a piece, and the end of the client's half.
fn pass_rest(
    alloc: Global,
    client: &mut Conn,
    server: &mut Conn,
    stream: u32,
    rest: usize,
) -> Result<u64, Fault> {
    let bytes = piece(alloc)?;
    let count = pass(alloc, client, server, stream, first_of(&bytes, rest))?;
    finish(alloc, client, stream)?;
    let late = exchange(alloc, client, server)?;
    Ok(count.saturating_add(late))
}

fn pass_on(alloc: Global, client: &mut Conn, server: &mut Conn, bytes: u64) -> Result<u64, Fault> {
    let stream = begin(alloc, client)?;
    let whole = pass_pieces(alloc, client, server, stream, bytes / PIECE as u64)?;
    let rest = pass_rest(
        alloc,
        client,
        server,
        stream,
        (bytes % PIECE as u64) as usize,
    )?;
    Ok(whole.saturating_add(rest))
}

/// Carries so many bytes on one stream of a connection from its client to its server, and tells how many the
/// server took.
fn pass_all(alloc: Global, bytes: u64) -> Result<u64, Fault> {
    let mut client = Conn::new(alloc, Role::Client)?;
    let mut server = Conn::new(alloc, Role::Server)?;
    pass_on(alloc, &mut client, &mut server, bytes)
}

/// So many times over, each on a connection of its own, all counted together.
pub fn pass_times(alloc: Global, bytes: u64, times: u32) -> Result<u64, Fault> {
    let mut count = 0u64;
    for _ in 0..times {
        count = count.saturating_add(pass_all(alloc, bytes)?);
    }
    Ok(count)
}
