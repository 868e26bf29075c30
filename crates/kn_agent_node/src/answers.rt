//! What the node answers of a connection.

ghost use Rattle.std.specs.Prelude.{◌≡◌, ◌≤◌};
ghost use Rattle.kn_edge_core.specs.AgentTables.{connection_at};
ghost use Rattle.kn_rising.specs.Members.{at};
ghost use Rattle.kn_agent_node.specs.Answers as answer;
ghost use Rattle.kn_agent_node.specs.Missing.{missing_of};

use crate::calls::purpose_at;
use crate::node::Node;
use crate::purpose::Purpose;
use crate::sending::queue_len;
use crate::side::Side;
use kn_edge_core::DestState;
use kn_ends::{is_bare, is_live};
use kn_rising::Rising;

/// From over this length of the queue to the server on no destination's bytes are wanted.
const LONG_QUEUE: usize = 65_536;

fn is_open(node: &Node, connect_id: &i64) -> bool
    ensures { result ≡ answer.is_open (connection_at connect_id.now node.now.core.connections) }
{
    match node.core.state_of(*connect_id) {
        Some(DestState::Open) => true,
        Some(DestState::Lingering) => false,
        None => false,
    }
}

fn purpose_wants(node: &Node, purpose: Option<Purpose>) -> bool
    ensures { result ≡ answer.purpose_wants node.now purpose }
{
    match purpose {
        None => false,
        Some(Purpose::Dials { .. }) => false,
        Some(Purpose::Carries { connect_id }) => {
            is_open(node, &connect_id) && queue_len(node) <= LONG_QUEUE
        }
    }
}

/// The bytes of a connection are wanted.
pub fn wants(node: &Node, conn: u64) -> bool
    ensures { result ≡ answer.wants_of node.now conn }
{
    if conn == node.server {
        is_live(&node.carrier)
    } else {
        purpose_wants(node, purpose_at(&node.sides, conn))
    }
}

fn side_out(sides: &Rising<Side>, conn: u64) -> &[u8]
    ensures { result.now ≡ answer.side_out (at sides.now conn) }
{
    match sides.get(conn) {
        Some(side) => side.out.as_slice(),
        None => &[],
    }
}

/// What is to be written on a connection.
pub fn out(node: &Node, conn: u64) -> &[u8]
    ensures { result.now ≡ answer.out_of node.now conn }
{
    if conn == node.server {
        kn_ends::out(&node.carrier)
    } else {
        side_out(&node.sides, conn)
    }
}

/// A connection is to be closed once all is written.
pub fn shuts(node: &Node, conn: u64) -> bool
    ensures { result ≡ answer.shuts_of node.now conn }
{
    if conn == node.server {
        !is_live(&node.carrier)
    } else {
        node.sides.get(conn).is_none()
    }
}

fn server_is_bare(node: &Node) -> bool
    ensures { result ≡ answer.server_is_bare node.now }
{
    is_bare(&node.carrier) && (!is_live(&node.carrier) || node.behind.is_empty())
}

/// Nothing is under way on a connection.
pub fn bare(node: &Node, conn: u64) -> bool
    ensures { result ≡ answer.bare_of node.now conn }
{
    if conn == node.server {
        server_is_bare(node)
    } else {
        true
    }
}

/// How many bytes of a connection are missing to the end of what is under way on it.
pub fn missing(node: &Node, conn: u64) -> usize
    ensures value { result ≡ missing_of node.now conn }
    ensures some { 1 ≤ result }
{
    if conn == node.server {
        kn_ends::missing(&node.carrier)
    } else {
        1
    }
}

fn id_for(purpose: Option<Purpose>) -> Option<i64>
    ensures { result ≡ answer.id_for purpose }
{
    match purpose {
        None => None,
        Some(Purpose::Dials { .. }) => None,
        Some(Purpose::Carries { connect_id }) => Some(connect_id),
    }
}

/// The connectID of a destination's connection.
pub fn connection(node: &Node, conn: u64) -> Option<i64>
    ensures { result ≡ answer.connection_of node.now conn }
{
    id_for(purpose_at(&node.sides, conn))
}

/// The server's connection ended or failed, or the stream of the agent's call did.
pub fn server_lost(node: &Node) -> bool
    ensures { result ≡ answer.has_lost_server node.now }
{
    !is_live(&node.carrier) || node.carrier.inlets.get(node.stream).is_none()
}
