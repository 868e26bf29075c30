//! Bytes for destinations, and the ends of their connections.

ghost use Rattle.std.specs.Prelude.{◌≡◌, OnOk};
ghost use Rattle.kn_rising.specs.Members.{at, change};
ghost use Rattle.kn_agent_node.specs.Nodes as spec;

use crate::node::Node;
use crate::side::Side;
use crate::stirring::stir_at;
use kn_io::NoMemory;
use kn_rising::Rising;

fn conn_at(by_id: &Rising<u64>, id: u64) -> Option<u64>
    ensures { result ≡ at by_id.now id }
{
    by_id.get(id).copied()
}

/// The connection of a connectID.
fn conn_of(node: &Node, connect_id: &i64) -> Option<u64>
    ensures { result ≡ spec.conn_of node.now connect_id.now }
{
    if *connect_id < 0 {
        None
    } else {
        conn_at(&node.by_id, *connect_id as u64)
    }
}

fn add_bytes(side: &mut Side, bytes: &[u8]) -> Result<(), NoMemory>
    ensures { OnOk result (side.new ≡ spec.with_more bytes.now side.old) }
{
    side.out.append(bytes)
}

fn write_side(sides: &mut Rising<Side>, conn: u64, bytes: &[u8]) -> Result<(), NoMemory>
    ensures { OnOk result (sides.new ≡ change sides.old conn (spec.with_more bytes.now)) }
{
    match sides.get_mut(conn) {
        Some(side) => add_bytes(side, bytes),
        None => Ok(()),
    }
}

fn write_at(sides: &mut Rising<Side>, conn: Option<u64>, bytes: &[u8]) -> Result<(), NoMemory>
    ensures { OnOk result (sides.new ≡ spec.written_at conn bytes.now sides.old) }
{
    match conn {
        Some(conn) => write_side(sides, conn, bytes),
        None => Ok(()),
    }
}

/// Bytes wait to be written to a destination.
pub fn to_destination(node: &mut Node, connect_id: &i64, bytes: &[u8]) -> Result<(), NoMemory>
    ensures { OnOk result (node.new ≡ spec.to_destination connect_id.now bytes.now node.old) }
{
    let conn = conn_of(node, connect_id);
    stir_at(&mut node.stirred, conn)?;
    write_at(&mut node.sides, conn, bytes)
}

fn close_at(sides: &mut Rising<Side>, conn: Option<u64>)
    ensures { sides.new ≡ spec.closed_at conn sides.old }
{
    if let Some(conn) = conn {
        sides.remove(conn);
    }
}

fn remove_id(by_id: &mut Rising<u64>, connect_id: &i64)
    ensures { by_id.new ≡ spec.without_id connect_id.now by_id.old }
{
    if *connect_id >= 0 {
        by_id.remove(*connect_id as u64);
    }
}

/// The connection of a destination is to be closed.
pub fn close_destination(node: &mut Node, connect_id: &i64) -> Result<(), NoMemory>
    ensures { OnOk result (node.new ≡ spec.destination_closed connect_id.now node.old) }
{
    let conn = conn_of(node, connect_id);
    stir_at(&mut node.stirred, conn)?;
    close_at(&mut node.sides, conn);
    remove_id(&mut node.by_id, connect_id);
    Ok(())
}
