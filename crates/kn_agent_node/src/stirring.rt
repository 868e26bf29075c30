//! Connections that are stirred: what is to be written on them, or whether they are to be closed, may be other
//! than it was.

ghost use Rattle.std.specs.Prelude.{◌≡◌, OnOk};
ghost use Rattle.kn_rising.specs.Members.{AreMembers};
ghost use Rattle.kn_agent_node.specs.Nodes as spec;

use crate::node::Node;
use kn_io::NoMemory;
use kn_rising::Stirred;

/// A call begins, and stirs the server's connection.
pub fn enter(node: &mut Node) -> Result<(), NoMemory>
    ensures stirred { OnOk result (node.new ≡ spec.stir node.old.server node.old) }
    ensures members { AreMembers node.old.sides }
{
    node.sides.holds();
    node.stirred.add(node.server)?;
    Ok(())
}

/// A call of a connection begins, and stirs the server's and this one.
pub fn enter_at(node: &mut Node, conn: u64) -> Result<(), NoMemory>
    ensures stirred { OnOk result (node.new ≡ spec.stir conn (spec.stir node.old.server node.old)) }
    ensures members { AreMembers node.old.sides }
{
    enter(node)?;
    node.stirred.add(conn)?;
    Ok(())
}

/// Stirs a connection, if there is one.
pub fn stir_at(stirred: &mut Stirred, conn: Option<u64>) -> Result<(), NoMemory>
    ensures { OnOk result (stirred.new ≡ spec.stirred_at conn stirred.old) }
{
    match conn {
        Some(conn) => stirred.add(conn),
        None => Ok(()),
    }
}
