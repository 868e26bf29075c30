//! A link whose peer grants nothing is cut for its queue.

use crate::rows::{come, count_links, ends_with, is_dialled, pass_on, with_peers};
use kn_io::NoMemory;
use kn_server_node::ServerNode;
use std::alloc::Global;
use std::test::Fail;

/// The message of a reply that nobody awaits, with the connectID -1. The request to close that answers it has as many
/// bytes.
const REPLY: &[u8] =
    b"\x00\x00\x00\x00\x0f\x08\x01\x1a\x0b\x10\xff\xff\xff\xff\xff\xff\xff\xff\xff\x01";

/// Heads of DATA frames on stream 1, for fifteen of these messages and for one.
const FIFTEEN: &[u8] = b"\x00\x01\x2c\x00\x00\x00\x00\x00\x01";

const ONE: &[u8] = b"\x00\x00\x14\x00\x00\x00\x00\x00\x01";

/// The message of a dial's request with the random 5 and an address of 300 bytes, up to that address, and from behind
/// its host on; there the message that takes the dial back follows. Both together have 329 bytes.
const DIAL: &[u8] = b"\x00\x00\x00\x01\x39\x12\xb6\x02\x0a\x03tcp\x12\xac\x02";

const TAKEN_BACK: &[u8] = b":1\x18\x05\x00\x00\x00\x00\x06\x08\x05\x3a\x02\x08\x05";

/// Heads of DATA frames on stream 1, for 49 dials that are taken back and for 34.
const MANY: &[u8] = b"\x00\x3e\xf9\x00\x00\x00\x00\x00\x01";

const SOME: &[u8] = b"\x00\x2b\xb2\x00\x00\x00\x00\x00\x01";

/// The head of a DATA frame of 16,000 bytes on stream 1, and the first bytes of a message of 4,000,000: Data of the
/// connectID 1 with 3,999,981 bytes.
const FULL: &[u8] = b"\x00\x3e\x80\x00\x00\x00\x00\x00\x01";

const LARGE: &[u8] =
    b"\x00\x00\x3d\x08\xfb\x08\x04\x22\xf4\x91\xf4\x01\x08\x01\x1a\xed\x91\xf4\x01";

/// The DATA by which a client hears that its tunnel's agent is lost.
const AGENT_LOST: &[u8] =
    b"\x00\x00\x17\x00\x00\x00\x00\x00\x01\x00\x00\x00\x00\x12\x08\x03\x32\x0e\x0a\x0aagent lost\x10\x01";

/// A window for all that waits, on the stream and on the connection.
const WINDOWS: &[u8] =
    b"\x00\x00\x04\x08\x00\x00\x00\x00\x01\x01\x00\x00\x00\x00\x00\x04\x08\x00\x00\x00\x00\x00\x01\x00\x00\x00";

/// These bytes, and so often the others.
fn repeated(alloc: Global, first: &[u8], others: &[u8], times: u64) -> Result<Vec<u8>, NoMemory> {
    let mut bytes = Vec::new(alloc);
    bytes.extend_from_slice(first)?;
    for _time in 0..times {
        bytes.extend_from_slice(others)?;
    }
    Ok(bytes)
}

/// The piece comes so many times; the socket takes all that is written, also behind the last.
fn come_often(
    alloc: Global,
    node: &mut ServerNode,
    conn: u64,
    piece: &[u8],
    times: u64,
) -> Result<(), NoMemory> {
    for _time in 0..times {
        come(alloc, node, conn, piece)?;
        pass_on(alloc, node, conn)?;
    }
    Ok(())
}

/// All that is granted is written.
fn drain(alloc: Global, node: &mut ServerNode, conn: u64) -> Result<(), NoMemory> {
    for _round in 0..9 {
        pass_on(alloc, node, conn)?;
    }
    Ok(())
}

/// The client's message of 4,000,000 bytes comes, and goes to the link.
fn fill(alloc: Global, node: &mut ServerNode) -> Result<(), NoMemory> {
    let mut first = repeated(alloc, FULL, LARGE, 1)?;
    first.extend_from_slice(&repeated(alloc, b"", b"a", 15_981)?)?;
    let piece = repeated(alloc, FULL, b"a", 16_000)?;
    come_often(alloc, node, 2, &first, 1)?;
    come_often(alloc, node, 2, &piece, 249)
}

/// Dials with long hosts, each taken back at once: 83 frames of 49, and one of 34.
fn dial_often(alloc: Global, node: &mut ServerNode) -> Result<(), NoMemory> {
    let mut dial = repeated(alloc, DIAL, b"a", 298)?;
    dial.extend_from_slice(TAKEN_BACK)?;
    let many = repeated(alloc, MANY, &dial, 49)?;
    let some = repeated(alloc, SOME, &dial, 34)?;
    come_often(alloc, node, 2, &many, 83)?;
    come_often(alloc, node, 2, &some, 1)
}

/// How many links there are once a frame with this head came on the link, with so many replies.
fn count_links_past(
    alloc: Global,
    node: &mut ServerNode,
    head: &[u8],
    count: u64,
) -> Result<usize, NoMemory> {
    let frame = repeated(alloc, head, REPLY, count)?;
    come_often(alloc, node, 1, &frame, 1)?;
    Ok(count_links(node))
}

/// A server whose link has 5,242,585 bytes waiting. It wrote 65,535 of the first dial's 27 bytes, of the 4,000,000, and of
/// what 4,101 dials give: 126 with 318 bytes, and those from number 128 on with 319.
fn with_queue(alloc: Global) -> Result<Box<ServerNode>, NoMemory> {
    let mut node = with_peers(alloc)?;
    is_dialled(alloc, &mut node)?;
    fill(alloc, &mut node)?;
    drain(alloc, &mut node, 1)?;
    dial_often(alloc, &mut node)?;
    Ok(node)
}

/// What waits is written as soon as the peer grants it, and the status 14 behind it.
fn ends_behind_its_queue(alloc: Global, node: &mut ServerNode) -> Result<bool, NoMemory> {
    come(alloc, node, 1, WINDOWS)?;
    for _round in 0..1_000 {
        if ends_with(alloc, node, 1, b"\x0214")? {
            return Ok(true);
        }
        pass_on(alloc, node, 1)?;
    }
    Ok(false)
}

/// Fourteen requests to close are still within 5,242,880 bytes, and the fifteenth is not.
#[test]
fn a_link_is_cut_for_its_queue(rt: HostRuntime) -> Result<(), Fail> {
    let alloc = rt.alloc();
    let mut node = with_queue(alloc)?;
    assert_eq!(rt; count_links_past(alloc, &mut node, FIFTEEN, 15)?, 1);
    assert_eq!(rt; count_links_past(alloc, &mut node, ONE, 1)?, 0);
    assert!(rt; node.out(2) == AGENT_LOST);
    assert!(rt; ends_behind_its_queue(alloc, &mut node)?);
    Ok(())
}
