//! Each call with the steps that follow it, until none is left.

ghost use Rattle.std.specs.Prelude.{◌≡◌, ◌≤◌, length, OnOk};
ghost use Rattle.kn_rising.specs.Members.{AreMembers};
ghost use Rattle.kn_client_node.specs.Calls as call;
ghost use Rattle.kn_client_node.specs.Calls.{Bytes, Took, Ended, Lost, App, Handling};

use crate::calls;
use crate::coming::app_came;
use crate::node::Node;
use crate::settling::settle;
use crate::stirring::enter;
use kn_io::NoMemory;
use std::alloc::Global;

/// Bytes were read from a connection.
pub fn bytes(alloc: Global, node: &mut Node, conn: u64, piece: &[u8]) -> Result<(), NoMemory>
    ensures handled { OnOk result (Handling node.old (Bytes conn piece.now) node.new) }
    ensures members { AreMembers node.old.sides }
{
    enter(node, conn)?;
    calls::bytes(alloc, node, conn, piece)?;
    settle(alloc, node)
}

/// A connection took so many bytes of what waits for it.
#[tactic(auto, unfolding(crate::specs::Calls::out_of))]
pub fn took(alloc: Global, node: &mut Node, conn: u64, count: usize) -> Result<(), NoMemory>
    requires { count ≤ length (call.out_of node.old conn) }
    ensures handled { OnOk result (Handling node.old (Took conn count) node.new) }
    ensures members { AreMembers node.old.sides }
{
    enter(node, conn)?;
    calls::took(alloc, node, conn, count)?;
    settle(alloc, node)
}

/// The bytes that come from a connection ended.
pub fn ended(alloc: Global, node: &mut Node, conn: u64) -> Result<(), NoMemory>
    ensures handled { OnOk result (Handling node.old (Ended conn) node.new) }
    ensures members { AreMembers node.old.sides }
{
    enter(node, conn)?;
    calls::ended(alloc, node, conn)?;
    settle(alloc, node)
}

/// A connection failed.
pub fn lost(alloc: Global, node: &mut Node, conn: u64) -> Result<(), NoMemory>
    ensures handled { OnOk result (Handling node.old (Lost conn) node.new) }
    ensures members { AreMembers node.old.sides }
{
    enter(node, conn)?;
    calls::lost(alloc, node, conn)?;
    settle(alloc, node)
}

/// An app came, and asks for an address.
pub fn app(alloc: Global, node: &mut Node, conn: u64, address: &str) -> Result<(), NoMemory>
    ensures handled { OnOk result (Handling node.old (App conn address.now) node.new) }
    ensures members { AreMembers node.old.sides }
{
    enter(node, conn)?;
    app_came(alloc, node, conn, address)?;
    settle(alloc, node)
}
