//! Dials that the core asks for, and gives up.

ghost use Rattle.std.specs.Prelude.{◌≡◌, OnOk};
ghost use Rattle.kn_rising.specs.Members.{at};
ghost use Rattle.kn_agent_node.specs.Nodes as spec;

use crate::dialling::Dialling;
use crate::node::Node;
use crate::request::Request;
use kn_io::{NoMemory, Text};
use kn_rising::Rising;

/// How far the dial of a ticket came.
pub fn dialling_at(by_ticket: &Rising<Dialling>, ticket: u64) -> Option<Dialling>
    ensures { result ≡ at by_ticket.now ticket }
{
    by_ticket.get(ticket).copied()
}

/// A dial waits to be handed out.
pub fn ask_dial(node: &mut Node, ticket: u64, address: Text) -> Result<(), NoMemory>
    ensures { OnOk result (node.new ≡ spec.dial_asked ticket address node.old) }
{
    node.by_ticket.insert(ticket, Dialling::Listed)?;
    node.dials.push(Request { ticket, address })
}

fn drop_one(node: &mut Node, ticket: u64, found: Option<Dialling>) -> Result<(), NoMemory>
    ensures { OnOk result (node.new ≡ spec.dial_dropped ticket found node.old) }
{
    match found {
        None => Ok(()),
        Some(Dialling::Listed) => {
            node.by_ticket.remove(ticket);
            node.dials.remove(ticket);
            Ok(())
        }
        Some(Dialling::HandedOut) => Ok(()),
        Some(Dialling::Began { conn }) => {
            node.stirred.add(conn)?;
            node.by_ticket.remove(ticket);
            node.sides.remove(conn);
            Ok(())
        }
    }
}

/// A dial is given up.
pub fn drop_dial(node: &mut Node, ticket: u64) -> Result<(), NoMemory>
    ensures { OnOk result (node.new ≡ spec.dial_dropped ticket (at node.old.by_ticket ticket) node.old) }
{
    let found = dialling_at(&node.by_ticket, ticket);
    drop_one(node, ticket, found)
}
