//! What a call does itself, before the steps that follow.

ghost use Rattle.std.specs.Prelude.{◌≡◌, ◌≤◌, length, OnOk};
ghost use Rattle.kn_rising.specs.Members.{at, change};
ghost use Rattle.kn_client_node.specs.Calls as call;
ghost use Rattle.kn_client_node.specs.Calls.{Bytes, Took, Ended, Lost};

use crate::handling::any_stream_over;
use crate::node::Node;
use crate::outputs::{event, event_if_fits};
use crate::side::Side;
use kn_edge_core::ClientEvent;
use kn_ends::{feed, is_gone, lose};
use kn_io::{Blob, NoMemory};
use kn_rising::Rising;
use std::alloc::Global;

fn app_at(node: &Node, conn: u64) -> Option<u64>
    ensures { result ≡ call.app_at node.now conn }
{
    match node.sides.get(conn) {
        Some(side) => side.app,
        None => None,
    }
}

fn side_sent(alloc: Global, node: &mut Node, conn: u64, piece: &[u8]) -> Result<(), NoMemory>
    ensures { OnOk result (node.new ≡ call.side_sent conn piece.now node.old) }
{
    match app_at(node, conn) {
        Some(app) => {
            let bytes = Blob::of(alloc, piece)?;
            event(alloc, node, ClientEvent::AppBytes { app, bytes })
        }
        None => Ok(()),
    }
}

/// Bytes were read from a connection.
#[tactic(auto, unfolding(crate::specs::Calls::called))]
pub fn bytes(alloc: Global, node: &mut Node, conn: u64, piece: &[u8]) -> Result<(), NoMemory>
    ensures { OnOk result (node.new ≡ call.called (Bytes conn piece.now) node.old) }
{
    if conn == node.server {
        feed(&mut node.carrier, alloc, piece)
    } else {
        side_sent(alloc, node, conn, piece)
    }
}

fn drop_front(sides: &mut Rising<Side>, conn: u64, count: usize)
    requires { count ≤ length (call.side_out (at sides.old conn)) }
    ensures { sides.new ≡ change sides.old conn (call.without_first count) }
{
    if let Some(side) = sides.get_mut(conn) {
        side.out.advance(count);
    }
}

/// The first bytes of what is to be written on a connection were.
fn take_front(sides: &mut Rising<Side>, conn: u64, count: usize)
    requires { count ≤ length (call.side_out (at sides.old conn)) }
    ensures { sides.new ≡ call.less_at (at sides.old conn) conn count sides.old }
{
    match sides.get(conn) {
        Some(side) => {
            if side.app.is_none() && side.out.len() == count {
                sides.remove(conn);
            } else {
                drop_front(sides, conn, count);
            }
        }
        None => {}
    }
}

fn app_wrote(alloc: Global, node: &mut Node, app: Option<u64>, count: usize) -> Result<(), NoMemory>
    ensures { OnOk result (node.new ≡ call.app_wrote app count node.old) }
{
    match app {
        Some(app) => event_if_fits(alloc, node, ClientEvent::AppWrote { app, count }),
        None => Ok(()),
    }
}

fn side_took(alloc: Global, node: &mut Node, conn: u64, count: usize) -> Result<(), NoMemory>
    requires { count ≤ length (call.side_out (at node.old.sides conn)) }
    ensures { OnOk result (node.new ≡ call.side_took conn count node.old) }
{
    let app = app_at(node, conn);
    take_front(&mut node.sides, conn, count);
    app_wrote(alloc, node, app, count)
}

/// A connection took so many bytes of what waits for it.
#[tactic(auto, unfolding(crate::specs::Calls::called, crate::specs::Calls::out_of))]
pub fn took(alloc: Global, node: &mut Node, conn: u64, count: usize) -> Result<(), NoMemory>
    requires { count ≤ length (call.out_of node.old conn) }
    ensures { OnOk result (node.new ≡ call.called (Took conn count) node.old) }
{
    if conn == node.server {
        kn_ends::took(&mut node.carrier, count);
        Ok(())
    } else {
        side_took(alloc, node, conn, count)
    }
}

fn set_ended(sides: &mut Rising<Side>, conn: u64)
    ensures { sides.new ≡ change sides.old conn call.with_end }
{
    if let Some(side) = sides.get_mut(conn) {
        side.ended = true;
    }
}

fn app_ended(alloc: Global, node: &mut Node, app: Option<u64>) -> Result<(), NoMemory>
    ensures { OnOk result (node.new ≡ call.app_ended app node.old) }
{
    match app {
        Some(app) => event(alloc, node, ClientEvent::AppEnd { app }),
        None => Ok(()),
    }
}

fn side_ended(alloc: Global, node: &mut Node, conn: u64) -> Result<(), NoMemory>
    ensures { OnOk result (node.new ≡ call.side_ended conn node.old) }
{
    let app = app_at(node, conn);
    set_ended(&mut node.sides, conn);
    app_ended(alloc, node, app)
}

/// The server's connection is lost.
fn lose_server(alloc: Global, node: &mut Node) -> Result<(), NoMemory>
    ensures { OnOk result (node.new ≡ call.lose_server node.old) }
{
    if is_gone(&node.carrier) {
        Ok(())
    } else {
        lose(&mut node.carrier);
        any_stream_over(alloc, node)
    }
}

/// The bytes that come from a connection ended.
#[tactic(auto, unfolding(crate::specs::Calls::called))]
pub fn ended(alloc: Global, node: &mut Node, conn: u64) -> Result<(), NoMemory>
    ensures { OnOk result (node.new ≡ call.called (Ended conn) node.old) }
{
    if conn == node.server {
        lose_server(alloc, node)
    } else {
        side_ended(alloc, node, conn)
    }
}

fn app_failed(alloc: Global, node: &mut Node, app: Option<u64>) -> Result<(), NoMemory>
    ensures { OnOk result (node.new ≡ call.app_failed app node.old) }
{
    match app {
        Some(app) => event(alloc, node, ClientEvent::AppFailed { app }),
        None => Ok(()),
    }
}

fn side_lost(alloc: Global, node: &mut Node, conn: u64) -> Result<(), NoMemory>
    ensures { OnOk result (node.new ≡ call.side_lost conn node.old) }
{
    let app = app_at(node, conn);
    node.sides.remove(conn);
    app_failed(alloc, node, app)
}

/// A connection failed.
#[tactic(auto, unfolding(crate::specs::Calls::called))]
pub fn lost(alloc: Global, node: &mut Node, conn: u64) -> Result<(), NoMemory>
    ensures { OnOk result (node.new ≡ call.called (Lost conn) node.old) }
{
    if conn == node.server {
        lose_server(alloc, node)
    } else {
        side_lost(alloc, node, conn)
    }
}
