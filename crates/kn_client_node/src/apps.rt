//! What is told and written to apps.

ghost use Rattle.std.specs.Prelude.{◌≡◌, not, OnOk};
ghost use Rattle.kn_rising.specs.Members.{at, change};
ghost use Rattle.kn_client_node.specs.Nodes as spec;

use crate::ending::Ending;
use crate::node::Node;
use crate::side::Side;
use crate::stirring::stir_for;
use crate::tunnel::Tunnel;
use kn_io::{NoMemory, Text};
use kn_rising::Rising;

fn tunnel_of(by_app: &Rising<Tunnel>, app: u64) -> Option<Tunnel>
    ensures { result ≡ at by_app.now app }
{
    by_app.get(app).copied()
}

fn add_bytes(side: &mut Side, bytes: &[u8]) -> Result<(), NoMemory>
    ensures { OnOk result (side.new ≡ spec.with_bytes bytes.now side.old) }
{
    side.out.append(bytes)
}

fn write_side(sides: &mut Rising<Side>, conn: u64, bytes: &[u8]) -> Result<(), NoMemory>
    ensures { OnOk result (sides.new ≡ change sides.old conn (spec.with_bytes bytes.now)) }
{
    match sides.get_mut(conn) {
        Some(side) => add_bytes(side, bytes),
        None => Ok(()),
    }
}

fn write_to(sides: &mut Rising<Side>, tunnel: Option<Tunnel>, bytes: &[u8]) -> Result<(), NoMemory>
    ensures { OnOk result (sides.new ≡ spec.written_to tunnel bytes.now sides.old) }
{
    match tunnel {
        Some(tunnel) => write_side(sides, tunnel.conn, bytes),
        None => Ok(()),
    }
}

/// Bytes are to be written to an app.
pub fn to_app(node: &mut Node, app: u64, bytes: &[u8]) -> Result<(), NoMemory>
    ensures { OnOk result (node.new ≡ spec.to_app app bytes.now node.old) }
{
    let tunnel = tunnel_of(&node.by_app, app);
    stir_for(&mut node.stirred, tunnel)?;
    write_to(&mut node.sides, tunnel, bytes)
}

fn clear_app(sides: &mut Rising<Side>, conn: u64)
    ensures { sides.new ≡ change sides.old conn spec.without_app }
{
    if let Some(side) = sides.get_mut(conn) {
        side.app = None;
    }
}

/// A connection belongs to no app any more. It is forgotten where nothing is to be written to it.
fn release(sides: &mut Rising<Side>, conn: u64)
    ensures { sides.new ≡ spec.released sides.old conn (at sides.old conn) }
{
    match sides.get(conn) {
        Some(side) => {
            if side.out.is_empty() {
                sides.remove(conn);
            } else {
                clear_app(sides, conn);
            }
        }
        None => {}
    }
}

fn leave(node: &mut Node, app: u64, conn: u64, early: bool, error: Text) -> Result<(), NoMemory>
    ensures { OnOk result (node.new ≡ spec.left app conn early error node.old) }
{
    node.stirred.add(conn)?;
    release(&mut node.sides, conn);
    node.by_app.remove(app);
    node.gone = node.gone.saturating_add(1);
    node.ended.push(Ending { conn, early, error })
}

/// An app left, and is told an error or the empty text.
pub fn end_app(node: &mut Node, app: u64, error: Text) -> Result<(), NoMemory>
    ensures { OnOk result (node.new ≡ spec.end_app app error (at node.old.by_app app) node.old) }
{
    match tunnel_of(&node.by_app, app) {
        Some(tunnel) => leave(node, app, tunnel.conn, !tunnel.up, error),
        None => {
            node.gone = node.gone.saturating_add(1);
            Ok(())
        }
    }
}

fn set_up(by_app: &mut Rising<Tunnel>, app: u64)
    ensures { by_app.new ≡ change by_app.old app spec.with_up }
{
    if let Some(tunnel) = by_app.get_mut(app) {
        tunnel.up = true;
    }
}

/// The tunnel of an app is up.
pub fn tunnel_up(by_app: &mut Rising<Tunnel>, app: Option<u64>)
    ensures { by_app.new ≡ spec.up_at app by_app.old }
{
    if let Some(app) = app {
        set_up(by_app, app);
    }
}
