//! What a server does at its limits, and with streams that are over as soon as they began.

use crate::rows::{
    Sent, Written, begin, come, comes, count_links, gives, lose, open, passes, server, with_agent,
    with_client,
};
use kn_io::NoMemory;
use kn_server_node::{ServerKind, ServerNode};
use std::alloc::Global;
use std::test::Fail;

const UNAVAILABLE: &[u8] =
    b"HTTP/1.1 503 Service Unavailable\r\nContent-Length: 0\r\nConnection: close\r\n\r\n";

const TOO_LARGE: &[u8] =
    b"HTTP/1.1 431 Request Header Fields Too Large\r\nContent-Length: 0\r\nConnection: close\r\n\r\n";

// ---- fronts

/// One asks by CONNECT on a connection; whether it waits for its answer.
fn asks(alloc: Global, node: &mut ServerNode, conn: u64) -> Result<bool, NoMemory> {
    open(alloc, node, conn, ServerKind::Connect)?;
    comes(alloc, node, conn, &[Sent::Connect])?;
    Ok(node.out(conn).is_empty() && !node.shuts(conn))
}

/// How many of so many that ask by CONNECT wait for their answer, on the connections from 2 on.
fn count_asking(alloc: Global, node: &mut ServerNode, count: u64) -> Result<u64, NoMemory> {
    let mut asking = 0u64;
    for conn in 2..count.saturating_add(2) {
        if asks(alloc, node, conn)? {
            asking = asking.saturating_add(1);
        }
    }
    Ok(asking)
}

/// Whether one more that asks is answered that the service is unavailable.
fn is_turned_away(alloc: Global, node: &mut ServerNode, conn: u64) -> Result<bool, NoMemory> {
    Ok(!asks(alloc, node, conn)? && node.out(conn) == UNAVAILABLE && node.shuts(conn))
}

/// Whether one more may ask once another has gone.
fn asks_for_another(
    alloc: Global,
    node: &mut ServerNode,
    gone: u64,
    conn: u64,
) -> Result<bool, NoMemory> {
    lose(alloc, node, gone)?;
    asks(alloc, node, conn)
}

#[test]
fn there_are_six_hundred_fronts_at_most(rt: HostRuntime) -> Result<(), Fail> {
    let alloc = rt.alloc();
    let mut node = with_agent(alloc)?;
    assert_eq!(rt; count_asking(alloc, &mut node, 600)?, 600);
    assert!(rt; is_turned_away(alloc, &mut node, 602)?);
    assert!(rt; asks_for_another(alloc, &mut node, 300, 603)?);
    Ok(())
}

// ---- heads of CONNECT

/// A head of CONNECT with so many bytes, 29 at least.
fn head_of(alloc: Global, size: usize) -> Result<Vec<u8>, NoMemory> {
    let mut head = Vec::new(alloc);
    head.extend_from_slice(b"CONNECT a:1 HTTP/1.1\r\nx: ")?;
    for _byte in 29..size {
        head.push(b'a')?;
    }
    head.extend_from_slice(b"\r\n\r\n")?;
    Ok(head)
}

/// A server with an agent's connection 1, and a connection 2 with a head of CONNECT of so many bytes.
fn with_head(alloc: Global, size: usize) -> Result<Box<ServerNode>, NoMemory> {
    let mut node = with_agent(alloc)?;
    open(alloc, &mut node, 2, ServerKind::Connect)?;
    let head = head_of(alloc, size)?;
    come(alloc, &mut node, 2, &head)?;
    Ok(node)
}

fn is_dialled(alloc: Global, size: usize) -> Result<bool, NoMemory> {
    let mut node = with_head(alloc, size)?;
    gives(alloc, &mut node, 1, &[Written::ConnectDial])
}

fn is_too_large(alloc: Global, size: usize) -> Result<bool, NoMemory> {
    let node = with_head(alloc, size)?;
    Ok(node.out(1).is_empty() && node.out(2) == TOO_LARGE && node.shuts(2))
}

#[test]
fn a_head_by_connect_has_8192_bytes_at_most(rt: HostRuntime) -> Result<(), Fail> {
    let alloc = rt.alloc();
    assert!(rt; is_dialled(alloc, 8_192)?);
    assert!(rt; is_too_large(alloc, 8_193)?);
    Ok(())
}

// ---- a head and its reset

/// Whether a client whose call was reset in the piece that began it hears no more of it, and goes on.
fn forgets_a_call(alloc: Global) -> Result<bool, NoMemory> {
    let mut node = with_client(alloc)?;
    let parts = [
        Sent::Preface,
        Sent::Settings,
        Sent::ClientCall,
        Sent::Cancel,
    ];
    comes(alloc, &mut node, 1, &parts)?;
    Ok(
        gives(
            alloc,
            &mut node,
            1,
            &[Written::Opening, Written::SettingsAck],
        )? && passes(alloc, &mut node, 1, Sent::Ping, 1, &[Written::PingAck])?,
    )
}

/// How many links there are where an agent's call was reset in the piece that began it.
fn count_links_of_a_reset(alloc: Global) -> Result<usize, NoMemory> {
    let mut node = server(alloc)?;
    let parts = [Sent::Preface, Sent::Settings, Sent::AgentCall, Sent::Cancel];
    begin(alloc, &mut node, 1, ServerKind::Agents, &parts)?;
    Ok(count_links(&node))
}

#[test]
fn a_call_and_its_reset_in_one_piece(rt: HostRuntime) -> Result<(), Fail> {
    let alloc = rt.alloc();
    assert!(rt; forgets_a_call(alloc)?);
    assert_eq!(rt; count_links_of_a_reset(alloc)?, 0);
    Ok(())
}
