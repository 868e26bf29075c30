//! Rows of what comes to an agent, and of what it says of itself then; its bytes are those of the formats, made by hand.

use kn_agent_node::AgentNode;
use kn_io::NoMemory;
use std::alloc::Global;
use std::test::Fail;

/// A server's first bytes: its opening, and the head of its answer on stream 1.
const OPENING: &[u8] =
    b"\0\0\x0c\x04\0\0\0\0\0\0\x03\0\0\0\x64\0\x06\0\0\x40\0\0\0\x04\x08\0\0\0\0\0\0\x62\xff\x9d\0\0\x21\x01\x04\0\0\0\x01\x20\x88\0\x0ccontent-type\x10application/grpc";

/// DATA with a dial request of `tcp`, `a:1` and random 1; the next ones ask for other addresses.
const DIAL: &[u8] = b"\0\0\x13\0\0\0\0\0\x01\0\0\0\0\x0e\x12\x0c\x0a\x03tcp\x12\x03a:1\x18\x01";

const SECOND_DIAL: &[u8] =
    b"\0\0\x13\0\0\0\0\0\x01\0\0\0\0\x0e\x12\x0c\x0a\x03tcp\x12\x03b:1\x18\x02";

const THIRD_DIAL: &[u8] =
    b"\0\0\x13\0\0\0\0\0\x01\0\0\0\0\x0e\x12\x0c\x0a\x03tcp\x12\x03c:1\x18\x03";

const FOURTH_DIAL: &[u8] =
    b"\0\0\x13\0\0\0\0\0\x01\0\0\0\0\x0e\x12\x0c\x0a\x03tcp\x12\x03d:1\x18\x04";

const FIFTH_DIAL: &[u8] =
    b"\0\0\x13\0\0\0\0\0\x01\0\0\0\0\x0e\x12\x0c\x0a\x03tcp\x12\x03e:1\x18\x05";

/// DATA with the answer of connectID 1 to the first.
const REPLY: &[u8] = b"\0\0\x0d\0\0\0\0\0\x01\0\0\0\0\x08\x08\x01\x1a\x04\x10\x01\x18\x01";

/// DATA with bytes for connectID 1, and with bytes of it.
const HELLO: &[u8] = b"\0\0\x12\0\0\0\0\0\x01\0\0\0\0\x0d\x08\x04\x22\x09\x08\x01\x1a\x05hello";

const WORLD: &[u8] = b"\0\0\x12\0\0\0\0\0\x01\0\0\0\0\x0d\x08\x04\x22\x09\x08\x01\x1a\x05world";

/// DATA that asks to close connectID 1, that says that it is closed, and that it is not known.
const CLOSE: &[u8] = b"\0\0\x0b\0\0\0\0\0\x01\0\0\0\0\x06\x08\x02\x2a\x02\x08\x01";

const CLOSED: &[u8] = b"\0\0\x0b\0\0\0\0\0\x01\0\0\0\0\x06\x08\x03\x32\x02\x10\x01";

const UNKNOWN: &[u8] =
    b"\0\0\x1f\0\0\0\0\0\x01\0\0\0\0\x1a\x08\x03\x32\x16\x0a\x12unknown connection\x10\x01";

/// DATA with 8,000 bytes for connectID 1, up to these.
const MANY: &[u8] =
    b"\0\x1f\x4f\0\0\0\0\0\x01\0\0\0\x1f\x4a\x08\x04\x22\xc5\x3e\x08\x01\x1a\xc0\x3e";

/// The head of DATA with 16,000 bytes.
const FULL: &[u8] = b"\0\x3e\x80\0\0\0\0\0\x01";

/// What stands in front of 4,191,981 bytes for connectID 1, in a message of 262 times 16,000 bytes.
const HEAD: &[u8] = b"\0\0\x3f\xf6\xfb\x08\x04\x22\xf4\xed\xff\x01\x08\x01\x1a\xed\xed\xff\x01";

/// DATA of a flag byte that no message begins with, and the RST_STREAM that answers it.
const BAD: &[u8] = b"\0\0\x05\0\0\0\0\0\x01\x02\0\0\0\0";

const RESET: &[u8] = b"\0\0\x04\x03\0\0\0\0\x01\0\0\0\x01";

/// The server ends the stream of the call, or resets it.
const TRAILERS: &[u8] = b"\0\0\x0f\x01\x05\0\0\0\x01\0\x0bgrpc-status\x010";

const CANCEL: &[u8] = b"\0\0\x04\x03\0\0\0\0\x01\0\0\0\x08";

/// SETTINGS of five bytes, which no server may send, and the GOAWAY that answers them.
const BROKEN: &[u8] = b"\0\0\x05\x04\0\0\0\0\0\0\0\0\0\0";

const GOAWAY: &[u8] = b"\0\0\x08\x07\0\0\0\0\0\0\0\0\0\0\0\0\x06";

/// What a row of a table does.
#[derive(Clone, Copy)]
enum Act {
    /// Bytes of a connection.
    Bytes(u64, &'static [u8]),
    /// This is to be written on a connection, and is.
    Writes(u64, &'static [u8]),
    /// All that is to be written on a connection is.
    Took(u64),
    /// The next dial is handed out.
    Dial(u64, &'static str),
    Began(u64, u64),
    NotBegun(u64),
    Up(u64),
    Refused(u64),
    Ended(u64),
    Lost(u64),
    Drain,
}

/// Bytes come, where they are wanted.
fn feed(alloc: Global, agent: &mut AgentNode, conn: u64, piece: &[u8]) -> Result<bool, NoMemory> {
    if agent.wants(conn) && piece.len() > 0 && piece.len() <= 16_384 {
        agent.bytes(alloc, conn, piece)?;
        Ok(true)
    } else {
        Ok(false)
    }
}

fn take(alloc: Global, agent: &mut AgentNode, conn: u64) -> Result<bool, NoMemory> {
    let count = agent.out(conn).len();
    agent.took(alloc, conn, count)?;
    Ok(true)
}

fn writes(alloc: Global, agent: &mut AgentNode, conn: u64, bytes: &[u8]) -> Result<bool, NoMemory> {
    if agent.out(conn) == bytes {
        take(alloc, agent, conn)
    } else {
        Ok(false)
    }
}

fn hands_out(agent: &mut AgentNode, want: u64, want_address: &str) -> bool {
    match agent.next_dial() {
        Some((ticket, address)) => ticket == want && address.as_str() == want_address,
        None => false,
    }
}

fn begin(alloc: Global, agent: &mut AgentNode, ticket: u64, conn: u64) -> Result<bool, NoMemory> {
    if agent.top() < conn {
        agent.began(alloc, ticket, conn)?;
        Ok(true)
    } else {
        Ok(false)
    }
}

fn refuse(alloc: Global, agent: &mut AgentNode, ticket: u64) -> Result<bool, NoMemory> {
    agent.not_begun(alloc, ticket)?;
    Ok(true)
}

fn dialled(alloc: Global, agent: &mut AgentNode, conn: u64, up: bool) -> Result<bool, NoMemory> {
    agent.dialled(alloc, conn, up)?;
    Ok(true)
}

fn end(alloc: Global, agent: &mut AgentNode, conn: u64) -> Result<bool, NoMemory> {
    agent.ended(alloc, conn)?;
    Ok(true)
}

fn lose(alloc: Global, agent: &mut AgentNode, conn: u64) -> Result<bool, NoMemory> {
    agent.lost(alloc, conn)?;
    Ok(true)
}

fn drain(alloc: Global, agent: &mut AgentNode) -> Result<bool, NoMemory> {
    agent.drain(alloc)?;
    Ok(true)
}

/// Whether it went as it should.
fn make(alloc: Global, agent: &mut AgentNode, act: Act) -> Result<bool, NoMemory> {
    match act {
        Act::Bytes(conn, bytes) => feed(alloc, agent, conn, bytes),
        Act::Writes(conn, bytes) => writes(alloc, agent, conn, bytes),
        Act::Took(conn) => take(alloc, agent, conn),
        Act::Dial(ticket, address) => Ok(hands_out(agent, ticket, address)),
        Act::Began(ticket, conn) => begin(alloc, agent, ticket, conn),
        Act::NotBegun(ticket) => refuse(alloc, agent, ticket),
        Act::Up(conn) => dialled(alloc, agent, conn, true),
        Act::Refused(conn) => dialled(alloc, agent, conn, false),
        Act::Ended(conn) => end(alloc, agent, conn),
        Act::Lost(conn) => lose(alloc, agent, conn),
        Act::Drain => drain(alloc, agent),
    }
}

fn id_of(agent: &AgentNode, conn: u64) -> u64 {
    match agent.connection(conn) {
        Some(id) => id.unsigned_abs(),
        None => 0,
    }
}

fn add_side(seen: &mut Vec<u64>, agent: &AgentNode, conn: u64) -> Result<(), NoMemory> {
    let wants = u64::from(agent.wants(conn));
    let out = agent.out(conn).len() as u64;
    seen.extend_from_slice(&[conn, id_of(agent, conn), wants, out])?;
    Ok(())
}

fn add_counts(seen: &mut Vec<u64>, agent: &AgentNode) -> Result<(), NoMemory> {
    let lost = u64::from(agent.server_lost());
    seen.extend_from_slice(&[agent.handled(), agent.asked(), agent.gone(), lost])?;
    Ok(())
}

/// What the agent says of itself: the packets and the dial requests that it handled, what is gone, and whether the server is
/// lost; then each connection, its connectID, whether its bytes are wanted, and how many are to be written to it.
fn seen(alloc: Global, agent: &AgentNode) -> Result<Vec<u64>, NoMemory> {
    let mut seen = Vec::new(alloc);
    add_counts(&mut seen, agent)?;
    for conn in agent.numbers() {
        add_side(&mut seen, agent, *conn)?;
    }
    Ok(seen)
}

fn is_right(
    alloc: Global,
    agent: &mut AgentNode,
    act: Act,
    want: &[u64],
) -> Result<bool, NoMemory> {
    if make(alloc, agent, act)? {
        Ok(seen(alloc, agent)?.as_slice() == want)
    } else {
        Ok(false)
    }
}

/// How many rows are as they should be, from the first on.
fn count_right(
    alloc: Global,
    agent: &mut AgentNode,
    rows: &[(Act, &[u64])],
) -> Result<usize, NoMemory> {
    let mut count = 0usize;
    for (act, want) in rows {
        if !is_right(alloc, agent, *act, want)? {
            return Ok(count);
        }
        count = count.saturating_add(1);
    }
    Ok(count)
}

/// An agent whose connection to the server is 1.
fn new_agent(alloc: Global) -> Result<Box<AgentNode>, NoMemory> {
    let agent = AgentNode::new(alloc, 1, "server:8091", "agent-1", "host=a")?;
    Ok(Box::new(alloc, agent)?)
}

/// The same, where its call is written.
fn fresh(alloc: Global) -> Result<Box<AgentNode>, NoMemory> {
    let mut agent = new_agent(alloc)?;
    take(alloc, &mut agent, 1)?;
    Ok(agent)
}

/// An agent whose call is answered.
fn started(alloc: Global) -> Result<Box<AgentNode>, NoMemory> {
    let mut agent = fresh(alloc)?;
    feed(alloc, &mut agent, 1, OPENING)?;
    take(alloc, &mut agent, 1)?;
    Ok(agent)
}

static TUNNEL: [(Act, &[u64]); 13] = [
    (Act::Bytes(1, DIAL), &[1, 1, 0, 0]),
    (Act::Dial(1, "a:1"), &[1, 1, 0, 0]),
    (Act::Began(1, 2), &[1, 1, 0, 0, 2, 0, 0, 0]),
    (Act::Up(2), &[1, 1, 0, 0, 2, 1, 1, 0]),
    (Act::Writes(1, REPLY), &[1, 1, 0, 0, 2, 1, 1, 0]),
    (Act::Bytes(1, HELLO), &[2, 1, 0, 0, 2, 1, 1, 5]),
    (Act::Bytes(2, b"world"), &[2, 1, 0, 0, 2, 1, 1, 5]),
    (Act::Writes(1, WORLD), &[2, 1, 0, 0, 2, 1, 1, 5]),
    (Act::Bytes(1, CLOSE), &[3, 1, 0, 0, 2, 1, 0, 5]),
    (Act::Writes(2, b"hello"), &[3, 1, 1, 0]),
    (Act::Writes(1, CLOSED), &[3, 1, 1, 0]),
    (Act::Bytes(1, CLOSE), &[4, 1, 1, 0]),
    (Act::Writes(1, UNKNOWN), &[4, 1, 1, 0]),
];

fn tunnel() -> &'static [(Act, &'static [u64])] {
    &TUNNEL
}

#[test]
fn a_dial_and_bytes_both_ways(rt: HostRuntime) -> Result<(), Fail> {
    let mut agent = started(rt.alloc())?;
    assert_eq!(rt; count_right(rt.alloc(), &mut agent, tunnel())?, 13);
    assert!(rt; agent.bare(1) && agent.bare(2));
    assert!(rt; agent.shuts(2) && !agent.shuts(1));
    assert_eq!(rt; agent.core().connections(), 0);
    Ok(())
}

static FAILURES: [(Act, &[u64]); 20] = [
    (Act::Bytes(1, DIAL), &[1, 1, 0, 0]),
    (Act::Dial(1, "a:1"), &[1, 1, 0, 0]),
    (Act::NotBegun(1), &[1, 1, 1, 0]),
    (Act::Bytes(1, SECOND_DIAL), &[2, 2, 1, 0]),
    (Act::Dial(2, "b:1"), &[2, 2, 1, 0]),
    (Act::Began(2, 5), &[2, 2, 1, 0, 5, 0, 0, 0]),
    (Act::Refused(5), &[2, 2, 2, 0]),
    (Act::Bytes(1, THIRD_DIAL), &[3, 3, 2, 0]),
    (Act::Dial(3, "c:1"), &[3, 3, 2, 0]),
    (Act::Began(3, 6), &[3, 3, 2, 0, 6, 0, 0, 0]),
    (Act::Ended(6), &[3, 3, 3, 0]),
    (Act::Bytes(1, FOURTH_DIAL), &[4, 4, 3, 0]),
    (Act::Dial(4, "d:1"), &[4, 4, 3, 0]),
    (Act::Bytes(1, FIFTH_DIAL), &[5, 5, 3, 0]),
    (Act::Dial(5, "e:1"), &[5, 5, 3, 0]),
    (Act::Began(5, 9), &[5, 5, 3, 0, 9, 0, 0, 0]),
    (Act::Up(9), &[5, 5, 3, 0, 9, 1, 1, 0]),
    (Act::Drain, &[5, 5, 3, 0, 9, 1, 1, 0]),
    (Act::Lost(1), &[5, 5, 5, 1]),
    (Act::Began(4, 10), &[5, 5, 5, 1]),
];

fn failures() -> &'static [(Act, &'static [u64])] {
    &FAILURES
}

#[test]
fn dials_fail_and_the_link_is_lost(rt: HostRuntime) -> Result<(), Fail> {
    let mut agent = started(rt.alloc())?;
    assert_eq!(rt; count_right(rt.alloc(), &mut agent, failures())?, 20);
    assert!(rt; agent.shuts(1) && agent.shuts(10));
    assert!(rt; agent.bare(1) && agent.out(1).is_empty());
    assert!(rt; agent.server() == 1 && agent.top() == 10);
    Ok(())
}

/// What the server sends, and what answers it.
static CAUSES: [(&[u8], &[u8]); 4] = [
    (BAD, RESET),
    (TRAILERS, b""),
    (CANCEL, b""),
    (BROKEN, GOAWAY),
];

fn causes() -> &'static [(&'static [u8], &'static [u8])] {
    &CAUSES
}

static DIALLING: [(Act, &[u64]); 3] = [
    (Act::Bytes(1, DIAL), &[1, 1, 0, 0]),
    (Act::Dial(1, "a:1"), &[1, 1, 0, 0]),
    (Act::Began(1, 2), &[1, 1, 0, 0, 2, 0, 0, 0]),
];

fn dialling() -> &'static [(Act, &'static [u64])] {
    &DIALLING
}

/// An agent with one dial under way, on the connection 2.
fn with_dial(alloc: Global) -> Result<Box<AgentNode>, NoMemory> {
    let mut agent = started(alloc)?;
    count_right(alloc, &mut agent, dialling())?;
    Ok(agent)
}

/// The agent's end for this cause.
fn ends_by(alloc: Global, piece: &'static [u8], sent: &[u8]) -> Result<bool, NoMemory> {
    let mut agent = with_dial(alloc)?;
    let lost = is_right(alloc, &mut agent, Act::Bytes(1, piece), &[1, 1, 1, 1])?;
    Ok(lost && agent.out(1) == sent)
}

#[test]
fn the_server_ends_or_errs(rt: HostRuntime) -> Result<(), Fail> {
    for (piece, sent) in causes() {
        assert!(rt; ends_by(rt.alloc(), piece, sent)?);
    }
    Ok(())
}

/// Bytes of the server come one by one.
fn feed_slowly(alloc: Global, agent: &mut AgentNode, bytes: &[u8]) -> Result<bool, NoMemory> {
    for byte in bytes {
        if !feed(alloc, agent, 1, &[*byte])? {
            return Ok(false);
        }
    }
    take(alloc, agent, 1)
}

#[test]
fn pieces_of_one_byte(rt: HostRuntime) -> Result<(), Fail> {
    let mut agent = fresh(rt.alloc())?;
    assert!(rt; feed_slowly(rt.alloc(), &mut agent, OPENING)?);
    assert!(rt; feed_slowly(rt.alloc(), &mut agent, DIAL)?);
    assert!(rt; hands_out(&mut agent, 1, "a:1"));
    assert!(rt; agent.bare(1));
    Ok(())
}

/// These bytes, and so many more.
fn longer(alloc: Global, head: &[u8], count: usize) -> Result<Vec<u8>, NoMemory> {
    let mut bytes = Vec::new(alloc);
    bytes.extend_from_slice(head)?;
    for _byte in 0..count {
        bytes.push(7)?;
    }
    Ok(bytes)
}

/// The same piece comes from the server again and again, and what answers it is taken.
fn feed_often(
    alloc: Global,
    agent: &mut AgentNode,
    piece: &[u8],
    times: usize,
) -> Result<bool, NoMemory> {
    for _round in 0..times {
        if !feed(alloc, agent, 1, piece)? {
            return Ok(false);
        }
        take(alloc, agent, 1)?;
    }
    Ok(true)
}

/// An agent with a destination of connectID 1, on the connection 2.
fn with_destination(alloc: Global) -> Result<Box<AgentNode>, NoMemory> {
    let mut agent = with_dial(alloc)?;
    dialled(alloc, &mut agent, 2, true)?;
    Ok(agent)
}

/// Nine times 8,000 bytes for the destination.
fn crowded(alloc: Global) -> Result<Box<AgentNode>, NoMemory> {
    let mut agent = with_destination(alloc)?;
    let piece = longer(alloc, MANY, 8_000)?;
    feed_often(alloc, &mut agent, &piece, 9)?;
    Ok(agent)
}

/// The destination takes so many bytes.
fn take_some(alloc: Global, agent: &mut AgentNode, count: usize) -> Result<bool, NoMemory> {
    if count <= agent.out(2).len() {
        agent.took(alloc, 2, count)?;
        Ok(true)
    } else {
        Ok(false)
    }
}

fn says(alloc: Global, agent: &AgentNode, want: &[u64]) -> Result<bool, NoMemory> {
    Ok(seen(alloc, agent)?.as_slice() == want)
}

static BEHIND: [(Act, &[u64]); 2] = [
    (Act::Bytes(1, HELLO), &[10, 1, 0, 0, 2, 1, 1, 72_000]),
    (Act::Bytes(1, CLOSE), &[10, 1, 0, 0, 2, 1, 1, 72_000]),
];

fn behind() -> &'static [(Act, &'static [u64])] {
    &BEHIND
}

#[test]
fn a_slow_destination_holds_up_data(rt: HostRuntime) -> Result<(), Fail> {
    let mut agent = crowded(rt.alloc())?;
    assert_eq!(rt; count_right(rt.alloc(), &mut agent, behind())?, 2);
    assert!(rt; take_some(rt.alloc(), &mut agent, 10_000)?);
    assert!(rt; says(rt.alloc(), &agent, &[12, 1, 0, 0, 2, 1, 0, 62_005])?);
    Ok(())
}

/// A message of four million bytes for the destination.
fn feed_millions(alloc: Global, agent: &mut AgentNode) -> Result<bool, NoMemory> {
    let mut first = longer(alloc, FULL, 0)?;
    first.extend_from_slice(&longer(alloc, HEAD, 15_981)?)?;
    let piece = longer(alloc, FULL, 16_000)?;
    Ok(feed_often(alloc, agent, &first, 1)? && feed_often(alloc, agent, &piece, 261)?)
}

#[test]
fn a_message_of_four_million_bytes(rt: HostRuntime) -> Result<(), Fail> {
    let mut agent = with_destination(rt.alloc())?;
    assert!(rt; feed_millions(rt.alloc(), &mut agent)?);
    assert!(rt; says(rt.alloc(), &agent, &[2, 1, 0, 0, 2, 1, 1, 4_191_981])?);
    Ok(())
}

/// Whether an agent names its server's connection, as often as it was stirred, and no other.
fn names_its_server(agent: &mut AgentNode) -> bool {
    let mut is_named = false;
    for _time in 0..99 {
        match agent.next_stirred() {
            Some(conn) => {
                if conn != 1 {
                    return false;
                }
                is_named = true;
            }
            None => return is_named,
        }
    }
    false
}

#[test]
fn a_connection_to_write_on(rt: HostRuntime) -> Result<(), Fail> {
    let mut agent = started(rt.alloc())?;
    assert!(rt; names_its_server(&mut agent));
    Ok(())
}
