//! Bytes that come and go, each row once. All bytes are written out by hand, apart from the crate's own encoders.

use kn_io::{NoMemory, Text};
use kn_route::Strategies;
use kn_server_node::{ServerKind, ServerNode};
use std::alloc::Global;
use std::test::Fail;

/// What peers send. A client's dial has the random 5, the server's own first one 1, and the agent's connection is 7.
#[derive(Clone, Copy)]
pub enum Sent {
    Preface,
    Settings,
    Grant,
    ClientCall,
    AgentCall,
    Ping,
    Dial,
    DialDone,
    DialFailed,
    HelloOfClient,
    WorldOfAgent,
    CloseDone,
    BadFlag,
    BadPacket,
    BadLength,
    Compressed,
    Connect,
    ConnectFront,
    ConnectBack,
    Early,
    OtherConnect,
    Get,
    Cancel,
}

fn sent_text(part: Sent) -> &'static [u8] {
    match part {
        Sent::Preface => b"PRI * HTTP/2.0\r\n\r\nSM\r\n\r\n",
        Sent::Settings => b"\x00\x00\x00\x04\x00\x00\x00\x00\x00",
        Sent::Grant => b"\x00\x00\x04\x08\x00\x00\x00\x00\x00\x00\x0f\x00\x01",
        Sent::ClientCall => {
            b"\x00\x00\x4a\x01\x04\x00\x00\x00\x01\x83\x86\x44\x13/ProxyService/Proxy\x41\x09localhost\x5f\x10application/grpc\x40\x02te\x08trailers\x7a\x07grpc-go"
        }
        Sent::AgentCall => {
            b"\x00\x00\x2b\x01\x04\x00\x00\x00\x01\x83\x86\x44\x15/AgentService/Connect\x5f\x10application/grpc"
        }
        Sent::Ping => b"\x00\x00\x08\x06\x00\x00\x00\x00\x00\x01\x02\x03\x04\x05\x06\x07\x08",
        Sent::BadFlag => b"\x00\x00\x05\x00\x00\x00\x00\x00\x01\x02\x00\x00\x00\x00",
        Sent::BadPacket => b"\x00\x00\x06\x00\x00\x00\x00\x00\x01\x00\x00\x00\x00\x01\xff",
        Sent::BadLength => b"\x00\x00\x05\x00\x00\x00\x00\x00\x01\x00\x00\x40\x00\x01",
        Sent::Compressed => b"\x00\x00\x05\x00\x00\x00\x00\x00\x01\x01\x00\x00\x00\x00",
        Sent::Connect => b"CONNECT a:1 HTTP/1.1\r\n\r\n",
        Sent::ConnectFront => b"CONNECT a:1 HT",
        Sent::ConnectBack => b"TP/1.1\r\n\r\nearly",
        Sent::Early => b"er",
        Sent::OtherConnect => b"CONNECT b:1 HTTP/1.1\r\n\r\nx",
        Sent::Get => b"GET / HTTP/1.1\r\n\r\nx",
        Sent::Cancel => b"\x00\x00\x04\x03\x00\x00\x00\x00\x01\x00\x00\x00\x08",
        other => packet_text(other),
    }
}

/// The frames of the packets that peers send.
fn packet_text(part: Sent) -> &'static [u8] {
    match part {
        Sent::Dial => {
            b"\x00\x00\x1b\x00\x00\x00\x00\x00\x01\x00\x00\x00\x00\x16\x12\x14\x0a\x03tcp\x12\x0b10.0.0.1:80\x18\x05"
        }
        Sent::DialDone => {
            b"\x00\x00\x0d\x00\x00\x00\x00\x00\x01\x00\x00\x00\x00\x08\x08\x01\x1a\x04\x10\x07\x18\x01"
        }
        Sent::DialFailed => {
            b"\x00\x00\x11\x00\x00\x00\x00\x00\x01\x00\x00\x00\x00\x0c\x08\x01\x1a\x08\x0a\x04down\x18\x02"
        }
        Sent::HelloOfClient => {
            b"\x00\x00\x12\x00\x00\x00\x00\x00\x01\x00\x00\x00\x00\x0d\x08\x04\x22\x09\x08\x01\x1a\x05hello"
        }
        Sent::WorldOfAgent => {
            b"\x00\x00\x12\x00\x00\x00\x00\x00\x01\x00\x00\x00\x00\x0d\x08\x04\x22\x09\x08\x07\x1a\x05world"
        }
        Sent::CloseDone => {
            b"\x00\x00\x0b\x00\x00\x00\x00\x00\x01\x00\x00\x00\x00\x06\x08\x03\x32\x02\x10\x07"
        }
        _ => b"",
    }
}

/// What the server writes.
#[derive(Clone, Copy)]
pub enum Written {
    Opening,
    SettingsAck,
    Response,
    PingAck,
    NoAgent,
    Dial,
    DialDone,
    HelloToAgent,
    WorldToClient,
    Close,
    ConnectDial,
    EarlyToAgent,
    ConnectDone,
    World,
    BadGateway,
    ResetRefused,
}

fn written_text(part: Written) -> &'static [u8] {
    match part {
        Written::Opening => {
            b"\x00\x00\x0c\x04\x00\x00\x00\x00\x00\x00\x03\x00\x00\x00\x64\x00\x06\x00\x00\x40\x00\x00\x00\x04\x08\x00\x00\x00\x00\x00\x00\x62\xff\x9d"
        }
        Written::SettingsAck => b"\x00\x00\x00\x04\x01\x00\x00\x00\x00",
        Written::Response => {
            b"\x00\x00\x21\x01\x04\x00\x00\x00\x01\x20\x88\x00\x0ccontent-type\x10application/grpc"
        }
        Written::PingAck => b"\x00\x00\x08\x06\x01\x00\x00\x00\x00\x01\x02\x03\x04\x05\x06\x07\x08",
        Written::ConnectDone => b"HTTP/1.1 200 Connection Established\r\n\r\n",
        Written::World => b"world",
        Written::BadGateway => {
            b"HTTP/1.1 502 Bad Gateway\r\nContent-Length: 0\r\nConnection: close\r\n\r\n"
        }
        Written::ResetRefused => b"\x00\x00\x04\x03\x00\x00\x00\x00\x01\x00\x00\x00\x07",
        other => reply_text(other),
    }
}

/// The frames of the packets that the server writes.
fn reply_text(part: Written) -> &'static [u8] {
    match part {
        Written::NoAgent => {
            b"\x00\x00\x1f\x00\x00\x00\x00\x00\x01\x00\x00\x00\x00\x1a\x08\x01\x1a\x16\x0a\x12no agent available\x18\x05"
        }
        Written::Dial => {
            b"\x00\x00\x1b\x00\x00\x00\x00\x00\x01\x00\x00\x00\x00\x16\x12\x14\x0a\x03tcp\x12\x0b10.0.0.1:80\x18\x01"
        }
        Written::DialDone => {
            b"\x00\x00\x0d\x00\x00\x00\x00\x00\x01\x00\x00\x00\x00\x08\x08\x01\x1a\x04\x10\x01\x18\x05"
        }
        Written::HelloToAgent => {
            b"\x00\x00\x12\x00\x00\x00\x00\x00\x01\x00\x00\x00\x00\x0d\x08\x04\x22\x09\x08\x07\x1a\x05hello"
        }
        Written::WorldToClient => {
            b"\x00\x00\x12\x00\x00\x00\x00\x00\x01\x00\x00\x00\x00\x0d\x08\x04\x22\x09\x08\x01\x1a\x05world"
        }
        Written::Close => {
            b"\x00\x00\x0b\x00\x00\x00\x00\x00\x01\x00\x00\x00\x00\x06\x08\x02\x2a\x02\x08\x07"
        }
        Written::ConnectDial => {
            b"\x00\x00\x13\x00\x00\x00\x00\x00\x01\x00\x00\x00\x00\x0e\x12\x0c\x0a\x03tcp\x12\x03a:1\x18\x01"
        }
        Written::EarlyToAgent => {
            b"\x00\x00\x14\x00\x00\x00\x00\x00\x01\x00\x00\x00\x00\x0f\x08\x04\x22\x0b\x08\x07\x1a\x07earlyer"
        }
        _ => b"",
    }
}

fn bytes_of(alloc: Global, parts: &[Sent]) -> Result<Vec<u8>, NoMemory> {
    let mut bytes = Vec::new(alloc);
    for part in parts {
        bytes.extend_from_slice(sent_text(*part))?;
    }
    Ok(bytes)
}

fn wanted_of(alloc: Global, parts: &[Written]) -> Result<Vec<u8>, NoMemory> {
    let mut bytes = Vec::new(alloc);
    for part in parts {
        bytes.extend_from_slice(written_text(*part))?;
    }
    Ok(bytes)
}

fn strategies(alloc: Global) -> Result<Strategies, NoMemory> {
    match Strategies::read(alloc, "default") {
        Ok(strategies) => Ok(strategies),
        Err(_fault) => Err(NoMemory),
    }
}

pub fn server(alloc: Global) -> Result<Box<ServerNode>, NoMemory> {
    let id = Text::of(alloc, "s1")?;
    let node = ServerNode::new(alloc, strategies(alloc)?, id);
    Ok(Box::new(alloc, node)?)
}

/// A connection begins, where its number is above all earlier ones.
pub fn open(
    alloc: Global,
    node: &mut ServerNode,
    conn: u64,
    kind: ServerKind,
) -> Result<(), NoMemory> {
    if node.top() < conn {
        node.opened(alloc, conn, kind)
    } else {
        Err(NoMemory)
    }
}

/// A connection ends, where there was one.
pub fn lose(alloc: Global, node: &mut ServerNode, conn: u64) -> Result<(), NoMemory> {
    if conn <= node.top() {
        node.lost(alloc, conn)
    } else {
        Err(NoMemory)
    }
}

/// What waits for the socket goes to it.
pub fn pass_on(alloc: Global, node: &mut ServerNode, conn: u64) -> Result<(), NoMemory> {
    let count = node.out(conn).len();
    if conn <= node.top() {
        node.took(alloc, conn, count)
    } else {
        Err(NoMemory)
    }
}

/// What waits for the socket is taken off, behind what was taken before.
fn take(
    alloc: Global,
    node: &mut ServerNode,
    conn: u64,
    got: &mut Vec<u8>,
) -> Result<(), NoMemory> {
    got.extend_from_slice(node.out(conn))?;
    pass_on(alloc, node, conn)
}

/// Bytes come, where they are wanted.
pub fn come(alloc: Global, node: &mut ServerNode, conn: u64, piece: &[u8]) -> Result<(), NoMemory> {
    if node.wants(conn) && piece.len() >= 1 && piece.len() <= 16384 {
        node.bytes(alloc, conn, piece)
    } else {
        Ok(())
    }
}

/// These come on a connection, in one piece.
pub fn comes(
    alloc: Global,
    node: &mut ServerNode,
    conn: u64,
    parts: &[Sent],
) -> Result<(), NoMemory> {
    let piece = bytes_of(alloc, parts)?;
    come(alloc, node, conn, &piece)
}

/// Whether these are what waits for the socket, which takes it.
pub fn gives(
    alloc: Global,
    node: &mut ServerNode,
    conn: u64,
    parts: &[Written],
) -> Result<bool, NoMemory> {
    let want = wanted_of(alloc, parts)?;
    let is_wanted = node.out(conn) == want.as_slice();
    pass_on(alloc, node, conn)?;
    Ok(is_wanted)
}

/// A part comes on a connection, and whether these are written on another.
pub fn passes(
    alloc: Global,
    node: &mut ServerNode,
    from: u64,
    part: Sent,
    to: u64,
    wants: &[Written],
) -> Result<bool, NoMemory> {
    comes(alloc, node, from, &[part])?;
    gives(alloc, node, to, wants)
}

/// A connection with its first bytes; what the server writes on it goes to its socket.
pub fn begin(
    alloc: Global,
    node: &mut ServerNode,
    conn: u64,
    kind: ServerKind,
    parts: &[Sent],
) -> Result<(), NoMemory> {
    open(alloc, node, conn, kind)?;
    comes(alloc, node, conn, parts)?;
    pass_on(alloc, node, conn)
}

pub fn with_client(alloc: Global) -> Result<Box<ServerNode>, NoMemory> {
    let mut node = server(alloc)?;
    open(alloc, &mut node, 1, ServerKind::Clients)?;
    Ok(node)
}

// ---- a client alone

static DIALS: [Sent; 6] = [
    Sent::Preface,
    Sent::Settings,
    Sent::Grant,
    Sent::ClientCall,
    Sent::Ping,
    Sent::Dial,
];

/// The answers to the parts one by one.
static STEPWISE: [Written; 5] = [
    Written::Opening,
    Written::SettingsAck,
    Written::Response,
    Written::PingAck,
    Written::NoAgent,
];

/// The answers to all parts at once.
static AT_ONCE: [Written; 5] = [
    Written::Opening,
    Written::SettingsAck,
    Written::PingAck,
    Written::Response,
    Written::NoAgent,
];

/// What a client's connection writes that gets these parts one by one.
fn answers_to_parts(alloc: Global, parts: &[Sent]) -> Result<Vec<u8>, NoMemory> {
    let mut node = with_client(alloc)?;
    let mut got = Vec::new(alloc);
    for part in parts {
        comes(alloc, &mut node, 1, &[*part])?;
        take(alloc, &mut node, 1, &mut got)?;
    }
    Ok(got)
}

/// What a client's connection writes that gets these bytes one by one.
fn answers_to_bytes(alloc: Global, bytes: &[u8]) -> Result<Vec<u8>, NoMemory> {
    let mut node = with_client(alloc)?;
    let mut got = Vec::new(alloc);
    for byte in bytes {
        come(alloc, &mut node, 1, &[*byte])?;
        take(alloc, &mut node, 1, &mut got)?;
    }
    Ok(got)
}

/// What a client's connection writes that gets these two pieces.
fn answers_to_two(alloc: Global, first: &[u8], second: &[u8]) -> Result<Vec<u8>, NoMemory> {
    let mut node = with_client(alloc)?;
    let mut got = Vec::new(alloc);
    come(alloc, &mut node, 1, first)?;
    take(alloc, &mut node, 1, &mut got)?;
    come(alloc, &mut node, 1, second)?;
    take(alloc, &mut node, 1, &mut got)?;
    Ok(got)
}

#[test]
fn a_dial_without_agents(rt: HostRuntime) -> Result<(), Fail> {
    let alloc = rt.alloc();
    let got = answers_to_parts(alloc, &DIALS)?;
    let want = wanted_of(alloc, &STEPWISE)?;
    assert!(rt; got.as_slice() == want.as_slice());
    Ok(())
}

#[test]
fn a_dial_by_single_bytes(rt: HostRuntime) -> Result<(), Fail> {
    let alloc = rt.alloc();
    let bytes = bytes_of(alloc, &DIALS)?;
    let got = answers_to_bytes(alloc, &bytes)?;
    let want = wanted_of(alloc, &STEPWISE)?;
    assert!(rt; got.as_slice() == want.as_slice());
    Ok(())
}

/// How many cuts of the bytes into two pieces have one of the two answers.
fn count_right_cuts(
    alloc: Global,
    bytes: &[u8],
    one: &[u8],
    other: &[u8],
) -> Result<usize, NoMemory> {
    let mut count = 0usize;
    for cut in 0..bytes.len() {
        let (first, second) = bytes.split_at(cut);
        let got = answers_to_two(alloc, first, second)?;
        if got.as_slice() == one || got.as_slice() == other {
            count = count.saturating_add(1);
        }
    }
    Ok(count)
}

#[test]
fn a_dial_in_two_pieces(rt: HostRuntime) -> Result<(), Fail> {
    let alloc = rt.alloc();
    let bytes = bytes_of(alloc, &DIALS)?;
    let one = wanted_of(alloc, &STEPWISE)?;
    let other = wanted_of(alloc, &AT_ONCE)?;
    assert_eq!(rt; count_right_cuts(alloc, &bytes, &one, &other)?, bytes.len());
    Ok(())
}

// ---- two peers

pub fn with_agent(alloc: Global) -> Result<Box<ServerNode>, NoMemory> {
    let mut node = server(alloc)?;
    let parts = [Sent::Preface, Sent::Settings, Sent::AgentCall];
    begin(alloc, &mut node, 1, ServerKind::Agents, &parts)?;
    Ok(node)
}

/// A server with an agent's connection 1 and a client's connection 2.
pub fn with_peers(alloc: Global) -> Result<Box<ServerNode>, NoMemory> {
    let mut node = with_agent(alloc)?;
    let parts = [Sent::Preface, Sent::Settings, Sent::ClientCall];
    begin(alloc, &mut node, 2, ServerKind::Clients, &parts)?;
    Ok(node)
}

pub fn is_dialled(alloc: Global, node: &mut ServerNode) -> Result<bool, NoMemory> {
    Ok(
        passes(alloc, node, 2, Sent::Dial, 1, &[Written::Dial])?
            && passes(alloc, node, 1, Sent::DialDone, 2, &[Written::DialDone])?,
    )
}

fn carries_both_ways(alloc: Global, node: &mut ServerNode) -> Result<bool, NoMemory> {
    let up = [Written::HelloToAgent];
    let down = [Written::WorldToClient];
    Ok(
        passes(alloc, node, 2, Sent::HelloOfClient, 1, &up)?
            && passes(alloc, node, 1, Sent::WorldOfAgent, 2, &down)?,
    )
}

fn closes_with_its_client(alloc: Global, node: &mut ServerNode) -> Result<bool, NoMemory> {
    lose(alloc, node, 2)?;
    gives(alloc, node, 1, &[Written::Close])
}

/// How many fronts ended, and which connections are kept.
fn has_left(node: &ServerNode, ended: u64, kept: &[u64]) -> bool {
    node.gone() == ended && node.numbers() == kept
}

/// It takes nothing more, and is to be shut.
fn is_over(node: &ServerNode, conn: u64) -> bool {
    node.shuts(conn) && !node.wants(conn)
}

#[test]
fn a_tunnel(rt: HostRuntime) -> Result<(), Fail> {
    let alloc = rt.alloc();
    let mut node = with_peers(alloc)?;
    assert!(rt; is_dialled(alloc, &mut node)?);
    assert!(rt; carries_both_ways(alloc, &mut node)?);
    assert_eq!(rt; node.handled(), 4);
    assert!(rt; closes_with_its_client(alloc, &mut node)?);
    assert!(rt; has_left(&node, 1, &[1]) && is_over(&node, 2));
    Ok(())
}

fn waits_for_its_head(alloc: Global, node: &mut ServerNode) -> Result<bool, NoMemory> {
    open(alloc, node, 3, ServerKind::Connect)?;
    let dial = [Written::ConnectDial];
    Ok(
        passes(alloc, node, 3, Sent::ConnectFront, 1, &[])?
            && passes(alloc, node, 3, Sent::ConnectBack, 1, &dial)?,
    )
}

/// More bytes come before the agent's answer, and go behind it with those that came with the head.
fn keeps_early_bytes(alloc: Global, node: &mut ServerNode) -> Result<bool, NoMemory> {
    let early = [Written::EarlyToAgent];
    Ok(
        passes(alloc, node, 3, Sent::Early, 1, &[])?
            && passes(alloc, node, 1, Sent::DialDone, 1, &early)?,
    )
}

/// The agent's bytes come behind the reply, and its close shuts the connection.
fn replies_and_shuts(alloc: Global, node: &mut ServerNode) -> Result<bool, NoMemory> {
    let want = [Written::ConnectDone, Written::World];
    Ok(
        passes(alloc, node, 1, Sent::WorldOfAgent, 3, &want)?
            && passes(alloc, node, 1, Sent::CloseDone, 3, &[])?,
    )
}

#[test]
fn a_tunnel_by_connect(rt: HostRuntime) -> Result<(), Fail> {
    let alloc = rt.alloc();
    let mut node = with_peers(alloc)?;
    assert!(rt; waits_for_its_head(alloc, &mut node)?);
    assert!(rt; keeps_early_bytes(alloc, &mut node)?);
    assert!(rt; replies_and_shuts(alloc, &mut node)?);
    assert!(rt; has_left(&node, 1, &[1, 2]) && is_over(&node, 3));
    Ok(())
}

/// A second connection by CONNECT, whose dial the agent refuses.
fn is_refused(alloc: Global, node: &mut ServerNode) -> Result<bool, NoMemory> {
    open(alloc, node, 2, ServerKind::Connect)?;
    comes(alloc, node, 2, &[Sent::Connect])?;
    open(alloc, node, 3, ServerKind::Connect)?;
    comes(alloc, node, 3, &[Sent::OtherConnect])?;
    passes(alloc, node, 1, Sent::DialFailed, 3, &[Written::BadGateway])
}

/// Another method than CONNECT.
fn is_no_connect(alloc: Global, node: &mut ServerNode) -> Result<bool, NoMemory> {
    open(alloc, node, 4, ServerKind::Connect)?;
    comes(alloc, node, 4, &[Sent::Get])?;
    Ok(node.out(4).len() == 89 && node.bare(4))
}

#[test]
fn refusals_by_connect(rt: HostRuntime) -> Result<(), Fail> {
    let alloc = rt.alloc();
    let mut node = with_agent(alloc)?;
    assert!(rt; is_refused(alloc, &mut node)? && is_over(&node, 3));
    assert!(rt; is_no_connect(alloc, &mut node)? && is_over(&node, 4));
    assert_eq!(rt; node.gone(), 1);
    Ok(())
}

// ---- bad messages, limits and services

/// Whether what is out on a connection ends with trailers of this status and a reset without an error.
pub fn ends_with(
    alloc: Global,
    node: &ServerNode,
    conn: u64,
    status: &[u8],
) -> Result<bool, NoMemory> {
    let mut end = Vec::new(alloc);
    end.extend_from_slice(b"grpc-status")?;
    end.extend_from_slice(status)?;
    end.extend_from_slice(b"\x00\x00\x04\x03\x00\x00\x00\x00\x01\x00\x00\x00\x00")?;
    Ok(node.out(conn).ends_with(end.as_slice()))
}

/// Whether a client's call ends with this status where this comes on it, and the connection goes on.
fn ends_call(alloc: Global, part: Sent, status: &[u8]) -> Result<bool, NoMemory> {
    let mut node = with_peers(alloc)?;
    comes(alloc, &mut node, 2, &[part])?;
    Ok(ends_with(alloc, &node, 2, status)? && node.gone() == 1 && node.wants(2))
}

#[test]
fn bad_messages_have_a_status(rt: HostRuntime) -> Result<(), Fail> {
    let alloc = rt.alloc();
    assert!(rt; ends_call(alloc, Sent::BadFlag, b"\x0213")?);
    assert!(rt; ends_call(alloc, Sent::BadPacket, b"\x0213")?);
    assert!(rt; ends_call(alloc, Sent::BadLength, b"\x018")?);
    assert!(rt; ends_call(alloc, Sent::Compressed, b"\x0212")?);
    Ok(())
}

/// So many agents, each on its own connection.
fn add_agents(alloc: Global, node: &mut ServerNode, count: u64) -> Result<(), NoMemory> {
    let parts = [Sent::Preface, Sent::Settings, Sent::AgentCall];
    for conn in 1..count.saturating_add(1) {
        begin(alloc, node, conn, ServerKind::Agents, &parts)?;
    }
    Ok(())
}

pub fn count_links(node: &ServerNode) -> usize {
    node.core().links().len()
}

/// Whether the call of one more agent is refused.
fn is_one_too_many(alloc: Global, node: &mut ServerNode, conn: u64) -> Result<bool, NoMemory> {
    let parts = [Sent::Preface, Sent::Settings];
    begin(alloc, node, conn, ServerKind::Agents, &parts)?;
    passes(
        alloc,
        node,
        conn,
        Sent::AgentCall,
        conn,
        &[Written::ResetRefused],
    )
}

#[test]
fn there_are_a_hundred_links_at_most(rt: HostRuntime) -> Result<(), Fail> {
    let alloc = rt.alloc();
    let mut node = server(alloc)?;
    add_agents(alloc, &mut node, 100)?;
    assert_eq!(rt; count_links(&node), 100);
    assert!(rt; is_one_too_many(alloc, &mut node, 101)?);
    assert_eq!(rt; count_links(&node), 100);
    lose(alloc, &mut node, 50)?;
    assert_eq!(rt; count_links(&node), 99);
    Ok(())
}

#[test]
fn a_call_of_the_other_kind_is_no_path(rt: HostRuntime) -> Result<(), Fail> {
    let alloc = rt.alloc();
    let mut node = with_client(alloc)?;
    let parts = [Sent::Preface, Sent::Settings, Sent::AgentCall];
    comes(alloc, &mut node, 1, &parts)?;
    assert!(rt; ends_with(alloc, &node, 1, b"\x0212")?);
    assert_eq!(rt; count_links(&node), 0);
    Ok(())
}

/// Whether the server names connection 1, as often as it was stirred, and no other.
fn names_one_alone(node: &mut ServerNode) -> bool {
    let mut is_named = false;
    for _time in 0..99 {
        match node.next_stirred() {
            Some(conn) => {
                if conn != 1 {
                    return false;
                }
                is_named = true;
            }
            None => return is_named,
        }
    }
    false
}

#[test]
fn a_connection_to_write_on(rt: HostRuntime) -> Result<(), Fail> {
    let alloc = rt.alloc();
    let mut node = with_client(alloc)?;
    comes(alloc, &mut node, 1, &[Sent::Preface])?;
    assert!(rt; names_one_alone(&mut node));
    Ok(())
}
