//! Bytes that come on a connection by CONNECT.

ghost use Rattle.std.specs.Prelude.{◌≡◌, false, Some, None, OnOk};
ghost use Rattle.kn_connect.specs.Replies.{IsReplyStatus};
ghost use Rattle.kn_rising.specs.Members.{at};
ghost use Rattle.kn_server_node.specs.declared.end.End.TheVariants.{Connect};
ghost use Rattle.kn_server_node.specs.declared.door.Door.{Door};
ghost use Rattle.kn_server_node.specs.Callers as spec;
ghost use Rattle.kn_server_node.specs.Nodes.{on_end};
ghost use Rattle.kn_server_node.specs.Ends.{on_door};
ghost use Rattle.kn_server_node.specs.Doors as door;

use crate::limits::{counting, has_no_front};
use crate::node::Node;
use crate::outputs::event;
use crate::place::Place;
use kn_connect::{ConnectAnswer, ConnectError, fault_status};
use kn_io::{Blob, NoMemory, Text};
use kn_packet::Packet;
use kn_server_core::ServerEvent;
use std::alloc::Global;

/// The head is whole, and within the limit: the connection is a front, and asks for its dial.
#[tactic(auto, unfolding(crate::specs::Callers::door_up))]
fn door_up(
    alloc: Global,
    node: &mut Node,
    conn: u64,
    target: Text,
    early: Blob,
) -> Result<(), NoMemory>
    requires { spec.has_no_front node.old ≡ false }
    ensures { OnOk result (node.new ≡ spec.door_up conn target early node.old) }
{
    let front = node.core.top_front() + 1;
    node.past_fronts = counting(alloc, &node.ends, &node.past_fronts)?;
    node.fronts.insert(front, Place { conn, stream: 0 })?;
    node.stirred.add(conn)?;
    node.ends.begin_door(alloc, conn, front, early)?;
    event(alloc, node, ServerEvent::FrontUp { front })?;
    let packet = Packet::DialReq {
        protocol: Text::of(alloc, "tcp")?,
        address: target,
        random: 0,
    };
    event(alloc, node, ServerEvent::FrontPacket { front, packet })
}

/// The head is refused.
fn refuse(alloc: Global, node: &mut Node, conn: u64, status: u32) -> Result<(), NoMemory>
    requires { IsReplyStatus status }
    ensures { OnOk result (node.new ≡ on_end conn (on_door (door.refused status)) node.old) }
{
    node.stirred.add(conn)?;
    node.ends.refuse_door(alloc, conn, status)
}

fn asked(
    alloc: Global,
    node: &mut Node,
    conn: u64,
    target: Text,
    early: Blob,
) -> Result<(), NoMemory>
    ensures { OnOk result (node.new ≡ spec.head_whole conn target early node.old) }
{
    if has_no_front(node) {
        refuse(alloc, node, conn, 503)
    } else {
        door_up(alloc, node, conn, target, early)
    }
}

/// Bytes of the head come.
pub fn head_bytes(alloc: Global, node: &mut Node, conn: u64, piece: &[u8]) -> Result<(), NoMemory>
    ensures { OnOk result (spec.HeadHears conn piece.now (at node.old.ends conn) node.old node.new) }
{
    node.stirred.add(conn)?;
    match node.ends.feed_head(alloc, conn, piece) {
        Ok(ConnectAnswer::More) => Ok(()),
        Ok(ConnectAnswer::Head { target, early }) => asked(alloc, node, conn, target, early),
        Err(ConnectError::Fault(fault)) => refuse(alloc, node, conn, fault_status(fault)),
        Err(ConnectError::NoMemory) => Err(NoMemory),
    }
}
