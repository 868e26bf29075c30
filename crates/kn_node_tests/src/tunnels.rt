//! Tunnels through three nodes in memory, whose bytes come equal at both ends, whatever the pieces.

use crate::joined::Joined;
use crate::peer::{Peer, sample};
use kn_io::{NoMemory, Text};
use std::alloc::Global;
use std::test::Fail;

/// What asks for a tunnel by CONNECT, and what is said first to the one that asks.
const ASKS: &[u8] = b"CONNECT a:1 HTTP/1.1\r\n\r\n";

const ANSWER: &[u8] = b"HTTP/1.1 200 Connection Established\r\n\r\n";

/// How many apps and destinations, pair by pair in the order of their dials, have all of each other's bytes and no more.
fn count_equal(apps: &[Peer], destinations: &[Peer]) -> usize {
    let mut count = 0usize;
    for (app, destination) in apps.iter().zip(destinations) {
        if app.got() == destination.bytes() && destination.got() == app.bytes() {
            count = count.saturating_add(1);
        }
    }
    count
}

/// Whether these bytes are the first ones, and then the others.
fn joins(bytes: &[u8], first: &[u8], others: &[u8]) -> bool {
    match bytes.strip_prefix(first) {
        Some(left) => left == others,
        None => false,
    }
}

/// The tunnels that carried all of their bytes both ways, of so many with so many bytes, in pieces of this size.
fn count_carried(
    alloc: Global,
    tunnels: u64,
    count: usize,
    size: usize,
) -> Result<usize, NoMemory> {
    let mut joined = Joined::started(alloc, count, size)?;
    for app in 0..tunnels {
        joined.add_app(alloc, "a:1", sample(alloc, app.wrapping_add(1_000), count)?)?;
    }
    joined.run(alloc)?;
    Ok(count_equal(joined.apps(), joined.destinations()))
}

#[test]
fn pieces_of_one_byte(rt: HostRuntime) -> Result<(), Fail> {
    assert_eq!(rt; count_carried(rt.alloc(), 1, 10_000, 1)?, 1);
    Ok(())
}

#[test]
fn pieces_of_seven_bytes(rt: HostRuntime) -> Result<(), Fail> {
    assert_eq!(rt; count_carried(rt.alloc(), 1, 50_000, 7)?, 1);
    Ok(())
}

#[test]
fn pieces_of_a_whole_frame(rt: HostRuntime) -> Result<(), Fail> {
    assert_eq!(rt; count_carried(rt.alloc(), 1, 1_000_000, 16_384)?, 1);
    Ok(())
}

#[test]
fn fifty_tunnels_at_once(rt: HostRuntime) -> Result<(), Fail> {
    assert_eq!(rt; count_carried(rt.alloc(), 50, 10_000, 16_384)?, 50);
    Ok(())
}

/// What one that asks by CONNECT sends, with these bytes behind its request.
fn asking(alloc: Global, bytes: &[u8]) -> Result<Vec<u8>, NoMemory> {
    let mut sent = Vec::new(alloc);
    sent.extend_from_slice(ASKS)?;
    sent.extend_from_slice(bytes)?;
    Ok(sent)
}

/// Whether one that asked by CONNECT and its destination have each other's bytes.
fn is_answered(front: &Peer, destination: &Peer) -> bool {
    joins(front.got(), ANSWER, destination.bytes()) && joins(front.bytes(), ASKS, destination.got())
}

fn are_answered(fronts: &[Peer], destinations: &[Peer]) -> bool {
    match (fronts.first(), destinations.first()) {
        (Some(front), Some(destination)) => is_answered(front, destination),
        _ => false,
    }
}

fn carries_by_connect(alloc: Global, count: usize, size: usize) -> Result<bool, NoMemory> {
    let mut joined = Joined::started(alloc, count, size)?;
    let bytes = sample(alloc, 1_000, count)?;
    joined.add_front(alloc, asking(alloc, &bytes)?)?;
    joined.run(alloc)?;
    Ok(are_answered(joined.fronts(), joined.destinations()))
}

#[test]
fn a_tunnel_by_connect(rt: HostRuntime) -> Result<(), Fail> {
    assert!(rt; carries_by_connect(rt.alloc(), 2_000, 1)?);
    assert!(rt; carries_by_connect(rt.alloc(), 10_000, 7)?);
    assert!(rt; carries_by_connect(rt.alloc(), 100_000, 16_384)?);
    Ok(())
}

fn are(addresses: &[Text], wants: &[&str]) -> bool {
    if addresses.len() != wants.len() {
        return false;
    }
    for (address, want) in addresses.iter().zip(wants) {
        if address.as_str() != *want {
            return false;
        }
    }
    true
}

fn add(joined: &mut Joined, alloc: Global, address: &str, seed: u64) -> Result<(), NoMemory> {
    let bytes = sample(alloc, seed, 10)?;
    joined.add_app(alloc, address, bytes)
}

fn two_apps(alloc: Global) -> Result<Joined, NoMemory> {
    let mut joined = Joined::started(alloc, 10, 7)?;
    add(&mut joined, alloc, "a:1", 1)?;
    add(&mut joined, alloc, "b:2", 2)?;
    Ok(joined)
}

fn dials_in_order(alloc: Global) -> Result<bool, NoMemory> {
    let mut joined = two_apps(alloc)?;
    joined.run(alloc)?;
    Ok(are(joined.addresses(), &["a:1", "b:2"]))
}

#[test]
fn each_app_has_its_own_address(rt: HostRuntime) -> Result<(), Fail> {
    assert!(rt; dials_in_order(rt.alloc())?);
    Ok(())
}

#[test]
fn an_agent_knows_its_server(rt: HostRuntime) -> Result<(), Fail> {
    let alloc = rt.alloc();
    assert!(rt; !Joined::new(alloc, 0, 1)?.knows("s1", 1));
    assert!(rt; Joined::started(alloc, 0, 1)?.knows("s1", 1));
    Ok(())
}
