//! Connections that are stirred: what is to be written on them, or whether they are to be closed, may be other
//! than it was.

ghost use Rattle.std.specs.Prelude.{◌≡◌, OnOk};
ghost use Rattle.kn_rising.specs.Members.{AreMembers};
ghost use Rattle.kn_client_node.specs.Nodes as spec;

use crate::node::Node;
use crate::tunnel::Tunnel;
use kn_io::NoMemory;
use kn_rising::Stirred;

/// A call of a connection begins, and stirs the server's and this one.
pub fn enter(node: &mut Node, conn: u64) -> Result<(), NoMemory>
    ensures stirred { OnOk result (node.new ≡ spec.stir conn (spec.stir node.old.server node.old)) }
    ensures members { AreMembers node.old.sides }
{
    node.sides.holds();
    node.stirred.add(node.server)?;
    node.stirred.add(conn)?;
    Ok(())
}

/// Stirs the connection of a tunnel, if there is one.
pub fn stir_for(stirred: &mut Stirred, tunnel: Option<Tunnel>) -> Result<(), NoMemory>
    ensures { OnOk result (stirred.new ≡ spec.stirred_for tunnel stirred.old) }
{
    match tunnel {
        Some(tunnel) => stirred.add(tunnel.conn),
        None => Ok(()),
    }
}
