//! Rows of what comes to a client, and of what it says of itself then; its bytes are those of the formats, made by hand.

use kn_client_node::ClientNode;
use kn_io::NoMemory;
use std::alloc::Global;
use std::test::Fail;

/// A server's first bytes: its opening, and the head of its answer on stream 1.
const OPENING: &[u8] =
    b"\0\0\x0c\x04\0\0\0\0\0\0\x03\0\0\0\x64\0\x06\0\0\x40\0\0\0\x04\x08\0\0\0\0\0\0\x62\xff\x9d\0\0\x21\x01\x04\0\0\0\x01\x20\x88\0\x0ccontent-type\x10application/grpc";

/// The head of an answer on stream 3.
const SECOND_HEAD: &[u8] = b"\0\0\x01\x01\x04\0\0\0\x03\x88";

/// DATA with a dial request of `tcp`, `b:2` and random 2.
const SECOND_DIAL: &[u8] =
    b"\0\0\x13\0\0\0\0\0\x01\0\0\0\0\x0e\x12\x0c\x0a\x03tcp\x12\x03b:2\x18\x02";

/// DATA with the reply of connectID 1 to the dial of random 1, and with further replies.
const REPLY: &[u8] = b"\0\0\x0d\0\0\0\0\0\x01\0\0\0\0\x08\x08\x01\x1a\x04\x10\x01\x18\x01";

const REFUSED: &[u8] = b"\0\0\x14\0\0\0\0\0\x01\0\0\0\0\x0f\x08\x01\x1a\x0b\x0a\x07refused\x18\x02";

const THIRD_REPLY: &[u8] = b"\0\0\x0d\0\0\0\0\0\x01\0\0\0\0\x08\x08\x01\x1a\x04\x10\x07\x18\x03";

const FOURTH_REPLY: &[u8] = b"\0\0\x0d\0\0\0\0\0\x01\0\0\0\0\x08\x08\x01\x1a\x04\x10\x08\x18\x04";

const FIFTH_REPLY: &[u8] = b"\0\0\x0d\0\0\0\0\0\x01\0\0\0\0\x08\x08\x01\x1a\x04\x10\x09\x18\x05";

/// DATA with bytes of connectID 1 and for it, and for others.
const HELLO: &[u8] = b"\0\0\x12\0\0\0\0\0\x01\0\0\0\0\x0d\x08\x04\x22\x09\x08\x01\x1a\x05hello";

const WORLD: &[u8] = b"\0\0\x12\0\0\0\0\0\x01\0\0\0\0\x0d\x08\x04\x22\x09\x08\x01\x1a\x05world";

const NOBODY: &[u8] = b"\0\0\x13\0\0\0\0\0\x01\0\0\0\0\x0e\x08\x04\x22\x0a\x08\x09\x1a\x06nobody";

const LATE: &[u8] = b"\0\0\x11\0\0\0\0\0\x01\0\0\0\0\x0c\x08\x04\x22\x08\x08\x08\x1a\x04late";

const UNSEEN: &[u8] = b"\0\0\x13\0\0\0\0\0\x01\0\0\0\0\x0e\x08\x04\x22\x0a\x08\x09\x1a\x06unseen";

/// DATA that says that connectID 1 is closed, with an error, and connectID 8, with none.
const GONE: &[u8] = b"\0\0\x11\0\0\0\0\0\x01\0\0\0\0\x0c\x08\x03\x32\x08\x0a\x04gone\x10\x01";

const CLOSED: &[u8] = b"\0\0\x0b\0\0\0\0\0\x01\0\0\0\0\x06\x08\x03\x32\x02\x10\x08";

/// The server ends stream 1.
const TRAILERS: &[u8] = b"\0\0\x0f\x01\x05\0\0\0\x01\0\x0bgrpc-status\x010";

/// The server takes no further streams.
const GOAWAY: &[u8] = b"\0\0\x08\x07\0\0\0\0\0\0\0\0\0\0\0\0\0";

/// DATA on stream 1 with a message that says that it is compressed.
const COMPRESSED: &[u8] = b"\0\0\x05\0\0\0\0\0\x01\x01\0\0\0\0";

/// A frame that no server may send: SETTINGS of five bytes.
const BROKEN: &[u8] = b"\0\0\x05\x04\0\0\0\0\0\0\0\0\0\0";

/// Stream 1 is given up, by the server or the client.
const CANCEL: &[u8] = b"\0\0\x04\x03\0\0\0\0\x01\0\0\0\x08";

/// What the client writes where a message of stream 1 is bad.
const PROTOCOL_ERROR: &[u8] = b"\0\0\x04\x03\0\0\0\0\x01\0\0\0\x01";

/// What a row of a table does.
#[derive(Clone, Copy)]
enum Act {
    /// Bytes of a connection.
    Bytes(u64, &'static [u8]),
    /// This is to be written on a connection, and is.
    Writes(u64, &'static [u8]),
    /// All that is to be written on a connection is.
    Took(u64),
    /// An app comes, and asks for an address.
    App(u64, &'static str),
    /// What was told to an app that left is handed out.
    Told(u64, bool, &'static str),
    Ended(u64),
    Lost(u64),
}

/// Bytes come, where they are wanted.
fn feed(alloc: Global, client: &mut ClientNode, conn: u64, piece: &[u8]) -> Result<bool, NoMemory> {
    if client.wants(conn) && piece.len() > 0 && piece.len() <= 16_384 {
        client.bytes(alloc, conn, piece)?;
        Ok(true)
    } else {
        Ok(false)
    }
}

fn take(alloc: Global, client: &mut ClientNode, conn: u64) -> Result<bool, NoMemory> {
    let count = client.out(conn).len();
    client.took(alloc, conn, count)?;
    Ok(true)
}

fn writes(
    alloc: Global,
    client: &mut ClientNode,
    conn: u64,
    bytes: &[u8],
) -> Result<bool, NoMemory> {
    if client.out(conn) == bytes {
        take(alloc, client, conn)
    } else {
        Ok(false)
    }
}

fn come(
    alloc: Global,
    client: &mut ClientNode,
    conn: u64,
    address: &str,
) -> Result<bool, NoMemory> {
    if client.top() < conn && address.len() <= 1_048_576 {
        client.app(alloc, conn, address)?;
        Ok(true)
    } else {
        Ok(false)
    }
}

fn tells(client: &mut ClientNode, want: u64, want_early: bool, want_error: &str) -> bool {
    match client.next_ended() {
        Some((conn, early, error)) => {
            conn == want && early == want_early && error.as_str() == want_error
        }
        None => false,
    }
}

fn end(alloc: Global, client: &mut ClientNode, conn: u64) -> Result<bool, NoMemory> {
    client.ended(alloc, conn)?;
    Ok(true)
}

fn lose(alloc: Global, client: &mut ClientNode, conn: u64) -> Result<bool, NoMemory> {
    client.lost(alloc, conn)?;
    Ok(true)
}

/// Whether it went as it should.
fn make(alloc: Global, client: &mut ClientNode, act: Act) -> Result<bool, NoMemory> {
    match act {
        Act::Bytes(conn, bytes) => feed(alloc, client, conn, bytes),
        Act::Writes(conn, bytes) => writes(alloc, client, conn, bytes),
        Act::Took(conn) => take(alloc, client, conn),
        Act::App(conn, address) => come(alloc, client, conn, address),
        Act::Told(conn, early, error) => Ok(tells(client, conn, early, error)),
        Act::Ended(conn) => end(alloc, client, conn),
        Act::Lost(conn) => lose(alloc, client, conn),
    }
}

fn app_of(client: &ClientNode, conn: u64) -> u64 {
    match client.app_of(conn) {
        Some(app) => app,
        None => 0,
    }
}

fn add_side(seen: &mut Vec<u64>, client: &ClientNode, conn: u64) -> Result<(), NoMemory> {
    let wants = u64::from(client.wants(conn));
    let out = client.out(conn).len() as u64;
    seen.extend_from_slice(&[conn, app_of(client, conn), wants, out])?;
    Ok(())
}

fn add_counts(seen: &mut Vec<u64>, client: &ClientNode) -> Result<(), NoMemory> {
    let lost = u64::from(client.server_lost());
    seen.extend_from_slice(&[client.handled(), client.gone(), lost])?;
    Ok(())
}

/// What the client says of itself: the packets that it handled, what is gone, and whether the server is lost; then each
/// connection, its app, whether its bytes are wanted, and how many are to be written to it.
fn seen(alloc: Global, client: &ClientNode) -> Result<Vec<u64>, NoMemory> {
    let mut seen = Vec::new(alloc);
    add_counts(&mut seen, client)?;
    for conn in client.numbers() {
        add_side(&mut seen, client, *conn)?;
    }
    Ok(seen)
}

fn is_right(
    alloc: Global,
    client: &mut ClientNode,
    act: Act,
    want: &[u64],
) -> Result<bool, NoMemory> {
    if make(alloc, client, act)? {
        Ok(seen(alloc, client)?.as_slice() == want)
    } else {
        Ok(false)
    }
}

/// How many rows are as they should be, from the first on.
fn count_right(
    alloc: Global,
    client: &mut ClientNode,
    rows: &[(Act, &[u64])],
) -> Result<usize, NoMemory> {
    let mut count = 0usize;
    for (act, want) in rows {
        if !is_right(alloc, client, *act, want)? {
            return Ok(count);
        }
        count = count.saturating_add(1);
    }
    Ok(count)
}

/// A client whose connection to the server is 1.
fn fresh(alloc: Global) -> Result<Box<ClientNode>, NoMemory> {
    let client = ClientNode::new(alloc, 1, "server:8090")?;
    Ok(Box::new(alloc, client)?)
}

/// A client with one app, whose call is answered.
fn started(alloc: Global) -> Result<Box<ClientNode>, NoMemory> {
    let mut client = fresh(alloc)?;
    come(alloc, &mut client, 2, "a:1")?;
    take(alloc, &mut client, 1)?;
    feed(alloc, &mut client, 1, OPENING)?;
    take(alloc, &mut client, 1)?;
    Ok(client)
}

static TUNNEL: [(Act, &[u64]); 28] = [
    (Act::Bytes(1, REPLY), &[1, 0, 0, 2, 1, 1, 0]),
    (Act::Bytes(2, b"hello"), &[1, 0, 0, 2, 1, 1, 0]),
    (Act::Writes(1, HELLO), &[1, 0, 0, 2, 1, 1, 0]),
    (Act::Bytes(1, WORLD), &[2, 0, 0, 2, 1, 1, 5]),
    (Act::Bytes(1, NOBODY), &[3, 0, 0, 2, 1, 1, 5]),
    (Act::Bytes(1, GONE), &[4, 0, 0, 2, 1, 0, 5]),
    (Act::Writes(2, b"world"), &[4, 1, 0]),
    (Act::Told(2, false, "gone"), &[4, 1, 0]),
    (Act::Took(1), &[4, 1, 0]),
    (Act::App(3, "b:2"), &[4, 1, 0, 3, 2, 0, 0]),
    (Act::Writes(1, SECOND_DIAL), &[4, 1, 0, 3, 2, 0, 0]),
    (Act::Bytes(1, REFUSED), &[5, 2, 0]),
    (Act::Told(3, true, "refused"), &[5, 2, 0]),
    (Act::App(4, "c:3"), &[5, 2, 0, 4, 3, 0, 0]),
    (Act::Ended(4), &[5, 3, 0]),
    (Act::Told(4, true, ""), &[5, 3, 0]),
    (Act::Bytes(1, THIRD_REPLY), &[6, 3, 0]),
    (Act::App(5, "d:4"), &[6, 3, 0, 5, 4, 0, 0]),
    (Act::Bytes(1, FOURTH_REPLY), &[7, 3, 0, 5, 4, 1, 0]),
    (Act::Ended(5), &[7, 3, 0, 5, 4, 0, 0]),
    (Act::Bytes(1, LATE), &[8, 3, 0, 5, 4, 0, 0]),
    (Act::Bytes(1, CLOSED), &[9, 4, 0]),
    (Act::Told(5, false, ""), &[9, 4, 0]),
    (Act::App(6, "e:5"), &[9, 4, 0, 6, 5, 0, 0]),
    (Act::Bytes(1, FIFTH_REPLY), &[10, 4, 0, 6, 5, 1, 0]),
    (Act::Bytes(1, UNSEEN), &[11, 4, 0, 6, 5, 1, 6]),
    (Act::Lost(6), &[11, 5, 0]),
    (Act::Told(6, false, ""), &[11, 5, 0]),
];

fn tunnel() -> &'static [(Act, &'static [u64])] {
    &TUNNEL
}

#[test]
fn a_tunnel(rt: HostRuntime) -> Result<(), Fail> {
    let mut client = started(rt.alloc())?;
    assert!(rt; client.bare(1) && client.shuts(3));
    assert!(rt; client.bare(2) && !client.shuts(2));
    assert_eq!(rt; count_right(rt.alloc(), &mut client, tunnel())?, 28);
    assert_eq!(rt; client.core().apps(), 0);
    Ok(())
}

static STREAMS: [(Act, &[u64]); 18] = [
    (Act::Bytes(1, REPLY), &[1, 0, 0, 2, 1, 1, 0]),
    (Act::Bytes(1, WORLD), &[2, 0, 0, 2, 1, 1, 5]),
    (Act::App(3, "b:2"), &[2, 0, 0, 2, 1, 1, 5, 3, 2, 0, 0]),
    (
        Act::Writes(1, SECOND_DIAL),
        &[2, 0, 0, 2, 1, 1, 5, 3, 2, 0, 0],
    ),
    (Act::Bytes(1, TRAILERS), &[2, 1, 0, 2, 1, 0, 5]),
    (Act::Writes(1, CANCEL), &[2, 1, 0, 2, 1, 0, 5]),
    (Act::Writes(2, b"world"), &[2, 2, 0]),
    (Act::Told(3, true, "stream ended"), &[2, 2, 0]),
    (Act::Told(2, false, "stream ended"), &[2, 2, 0]),
    (Act::App(4, "c:3"), &[2, 2, 0, 4, 3, 0, 0]),
    (Act::Bytes(1, SECOND_HEAD), &[2, 2, 0, 4, 3, 0, 0]),
    (Act::Bytes(1, GOAWAY), &[2, 2, 0, 4, 3, 0, 0]),
    (Act::App(5, "d:4"), &[2, 2, 0, 4, 3, 0, 0, 5, 4, 0, 0]),
    (Act::Bytes(1, BROKEN), &[2, 4, 1]),
    (Act::Told(4, true, "server lost"), &[2, 4, 1]),
    (Act::Told(5, true, "server lost"), &[2, 4, 1]),
    (Act::App(6, "e:5"), &[2, 4, 1]),
    (Act::Told(6, true, "server lost"), &[2, 4, 1]),
];

fn streams() -> &'static [(Act, &'static [u64])] {
    &STREAMS
}

#[test]
fn streams_end(rt: HostRuntime) -> Result<(), Fail> {
    let mut client = started(rt.alloc())?;
    assert_eq!(rt; count_right(rt.alloc(), &mut client, streams())?, 18);
    assert!(rt; client.shuts(1) && !client.wants(1));
    assert!(rt; client.out(1).len() > 0 && client.shuts(6));
    Ok(())
}

/// How stream 1 ends, what is told to its app, and what the client writes.
static CAUSES: [(Act, u64, &str, &[u8]); 4] = [
    (Act::Bytes(1, COMPRESSED), 0, "stream ended", PROTOCOL_ERROR),
    (Act::Bytes(1, CANCEL), 0, "stream ended", b""),
    (Act::Lost(1), 1, "server lost", b""),
    (Act::Ended(1), 1, "server lost", b""),
];

fn causes() -> &'static [(Act, u64, &'static str, &'static [u8])] {
    &CAUSES
}

fn ends_by(
    alloc: Global,
    act: Act,
    lost: u64,
    error: &'static str,
    out: &'static [u8],
) -> Result<bool, NoMemory> {
    let mut client = started(alloc)?;
    let left = is_right(alloc, &mut client, act, &[0, 1, lost])?;
    Ok(left && tells(&mut client, 2, true, error) && client.out(1) == out)
}

#[test]
fn causes_of_an_end(rt: HostRuntime) -> Result<(), Fail> {
    for (act, lost, error, out) in causes() {
        assert!(rt; ends_by(rt.alloc(), *act, *lost, error, out)?);
    }
    Ok(())
}

/// Bytes of the server come one by one.
fn feed_slowly(alloc: Global, client: &mut ClientNode, bytes: &[u8]) -> Result<bool, NoMemory> {
    for byte in bytes {
        if !feed(alloc, client, 1, &[*byte])? {
            return Ok(false);
        }
    }
    Ok(true)
}

#[test]
fn pieces_of_one_byte(rt: HostRuntime) -> Result<(), Fail> {
    let mut client = started(rt.alloc())?;
    assert!(rt; feed_slowly(rt.alloc(), &mut client, REPLY)?);
    assert!(rt; client.wants(2) && client.bare(1));
    assert_eq!(rt; client.handled(), 1);
    Ok(())
}

/// An address of the greatest length.
fn long_address(alloc: Global) -> Result<String, NoMemory> {
    let mut address = String::new(alloc);
    for _letter in 0..1_048_576 {
        address.push_str("a")?;
    }
    Ok(address)
}

/// Six more apps ask for addresses of the greatest length: more waits than the queue takes.
fn crowd(alloc: Global, client: &mut ClientNode) -> Result<(), NoMemory> {
    let address = long_address(alloc)?;
    for conn in 3..9 {
        come(alloc, client, conn, address.as_str())?;
    }
    Ok(())
}

/// A window for all that waits, on the stream and on the connection.
const WINDOWS: &[u8] = b"\0\0\x04\x08\0\0\0\0\x01\x01\0\0\0\0\0\x04\x08\0\0\0\0\0\x01\0\0\0";

/// No packet is handled while the queue is full, and the cancel of a dial goes behind it.
fn holds_up(alloc: Global, client: &mut ClientNode) -> Result<bool, NoMemory> {
    feed(alloc, client, 1, REPLY)?;
    lose(alloc, client, 3)?;
    Ok(client.handled() == 0 && !client.bare(1))
}

fn takes_all(alloc: Global, client: &mut ClientNode) -> Result<bool, NoMemory> {
    feed(alloc, client, 1, WINDOWS)?;
    for _round in 0..1000 {
        take(alloc, client, 1)?;
    }
    Ok(client.handled() == 1 && client.bare(1) && client.wants(2))
}

#[test]
fn a_full_queue(rt: HostRuntime) -> Result<(), Fail> {
    let mut client = started(rt.alloc())?;
    crowd(rt.alloc(), &mut client)?;
    assert!(rt; come(rt.alloc(), &mut client, 9, "late:1")?);
    assert!(rt; tells(&mut client, 9, true, "client busy"));
    assert!(rt; holds_up(rt.alloc(), &mut client)?);
    assert!(rt; takes_all(rt.alloc(), &mut client)?);
    Ok(())
}

static NO_STREAM: [(Act, &[u64]); 6] = [
    (Act::Bytes(1, b"\0\0\0\x04\0\0\0\0\0"), &[0, 0, 0]),
    (Act::Bytes(1, GOAWAY), &[0, 0, 0]),
    (Act::App(2, "a:1"), &[0, 0, 0]),
    (Act::Told(2, true, "too many streams"), &[0, 0, 0]),
    (Act::Took(1), &[0, 0, 0]),
    (Act::App(3, "b:2"), &[0, 0, 0]),
];

fn no_stream_rows() -> &'static [(Act, &'static [u64])] {
    &NO_STREAM
}

fn drops_what_was_told(alloc: Global, client: &mut ClientNode) -> bool {
    client.drop_ended(alloc);
    client.next_ended().is_none()
}

#[test]
fn no_stream(rt: HostRuntime) -> Result<(), Fail> {
    let mut client = fresh(rt.alloc())?;
    assert_eq!(rt; count_right(rt.alloc(), &mut client, no_stream_rows())?, 6);
    assert!(rt; drops_what_was_told(rt.alloc(), &mut client));
    assert!(rt; client.bare(1) && client.shuts(2));
    assert!(rt; client.server() == 1 && client.top() == 3);
    Ok(())
}

/// An app comes on connection 2 of a client whose connection to the server is 1.
fn with_one_app(alloc: Global) -> Result<Box<ClientNode>, NoMemory> {
    let mut node = fresh(alloc)?;
    come(alloc, &mut node, 2, "a:1")?;
    Ok(node)
}

/// Whether the client names its server's connection as one to write on.
fn names_its_server(node: &mut ClientNode) -> bool {
    for _conn in 0..9 {
        if node.next_stirred() == Some(1) {
            return true;
        }
    }
    false
}

#[test]
fn a_connection_to_write_on(rt: HostRuntime) -> Result<(), Fail> {
    let mut node = with_one_app(rt.alloc())?;
    assert!(rt; names_its_server(&mut node));
    Ok(())
}
