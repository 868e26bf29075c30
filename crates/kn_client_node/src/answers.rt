//! What the node answers of a connection.

ghost use Rattle.std.specs.Prelude.{◌≡◌, ◌≤◌};
ghost use Rattle.kn_rising.specs.Members.{at};
ghost use Rattle.kn_client_node.specs.Nodes as spec;
ghost use Rattle.kn_client_node.specs.Calls as call;
ghost use Rattle.kn_client_node.specs.Missing.{missing_of};

use crate::node::Node;
use crate::sending::queue_len;
use crate::side::Side;
use kn_edge_core::{AppState, ClientCore};
use kn_ends::{is_bare, is_live};
use kn_rising::Rising;

/// While more bytes wait on the stream to the server, no app's bytes are wanted.
const LONG_QUEUE: usize = 65_536;

fn is_open_state(state: Option<AppState>) -> bool
    ensures { result ≡ call.is_open_state state }
{
    match state {
        Some(AppState::Open) => true,
        Some(AppState::Dialling) => false,
        Some(AppState::Closing) => false,
        Some(AppState::Lingering) => false,
        None => false,
    }
}

fn is_open_app(core: &ClientCore, app: Option<u64>) -> bool
    ensures { result ≡ call.is_open_app core.now app }
{
    match app {
        Some(app) => is_open_state(core.state_of(app)),
        None => false,
    }
}

fn is_long(node: &Node) -> bool
    ensures { result ≡ spec.is_long (spec.queue_len node.now) }
{
    queue_len(node) > LONG_QUEUE
}

fn side_wants(node: &Node, conn: u64) -> bool
    ensures { result ≡ call.side_wants node.now (at node.now.sides conn) }
{
    match node.sides.get(conn) {
        Some(side) => !side.ended && is_open_app(&node.core, side.app) && !is_long(node),
        None => false,
    }
}

/// The bytes of a connection are wanted.
#[tactic(auto, unfolding(crate::specs::Calls::wants_of))]
pub fn wants(node: &Node, conn: u64) -> bool
    ensures { result ≡ call.wants_of node.now conn }
{
    if conn == node.server {
        is_live(&node.carrier)
    } else {
        side_wants(node, conn)
    }
}

fn side_out(sides: &Rising<Side>, conn: u64) -> &[u8]
    ensures { result.now ≡ call.side_out (at sides.now conn) }
{
    match sides.get(conn) {
        Some(side) => side.out.as_slice(),
        None => &[],
    }
}

/// What is to be written on a connection.
#[tactic(auto, unfolding(crate::specs::Calls::out_of))]
pub fn out(node: &Node, conn: u64) -> &[u8]
    ensures { result.now ≡ call.out_of node.now conn }
{
    if conn == node.server {
        kn_ends::out(&node.carrier)
    } else {
        side_out(&node.sides, conn)
    }
}

/// The app of a connection.
#[tactic(auto, unfolding(crate::specs::Calls::app_of))]
pub fn app_of(node: &Node, conn: u64) -> Option<u64>
    ensures { result ≡ call.app_of node.now conn }
{
    match node.sides.get(conn) {
        Some(side) => side.app,
        None => None,
    }
}

/// A connection is to be closed once all is written.
#[tactic(auto, unfolding(crate::specs::Calls::shuts_of, crate::specs::Calls::app_of))]
pub fn shuts(node: &Node, conn: u64) -> bool
    ensures { result ≡ call.shuts_of node.now conn }
{
    if conn == node.server {
        !is_live(&node.carrier)
    } else {
        app_of(node, conn).is_none()
    }
}

fn server_is_bare(node: &Node) -> bool
    ensures { result ≡ call.server_is_bare node.now }
{
    is_bare(&node.carrier) && (node.behind.is_empty() || !is_live(&node.carrier))
}

/// Nothing is under way on a connection.
#[tactic(auto, unfolding(crate::specs::Calls::bare_of))]
pub fn bare(node: &Node, conn: u64) -> bool
    ensures { result ≡ call.bare_of node.now conn }
{
    if conn == node.server {
        server_is_bare(node)
    } else {
        true
    }
}

/// How many bytes of a connection are missing to the end of what is under way on it.
pub fn missing(node: &Node, conn: u64) -> usize
    ensures value { result ≡ missing_of node.now conn }
    ensures some { 1 ≤ result }
{
    if conn == node.server {
        kn_ends::missing(&node.carrier)
    } else {
        1
    }
}

/// The server's connection was lost or has failed.
pub fn server_lost(node: &Node) -> bool
    ensures { result ≡ call.is_server_lost node.now }
{
    !is_live(&node.carrier)
}
