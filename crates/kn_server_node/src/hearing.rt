//! What connections told is heard.

ghost use Rattle.std.specs.Prelude.{◌≡◌, OnOk};
ghost use Rattle.kn_ends.specs.Carriers.{on_inlet, after_read, with_end, with_reset};
ghost use Rattle.kn_rising.specs.Members.{at};
ghost use Rattle.kn_server_node.specs.Ends.{on_carrier};
ghost use Rattle.kn_server_node.specs.Nodes.{on_end};
ghost use Rattle.kn_server_node.specs.Steps as spec;

use crate::callers::opened;
use crate::end::End;
use crate::loss::Loss;
use crate::losses::Losses;
use crate::node::Node;
use kn_ends::{Heard, Inlet, Who};
use kn_h2::H2Event;
use kn_io::NoMemory;
use std::alloc::Global;

/// Somebody is to be lost before all others.
pub fn lose_who(todo: &mut Losses, who: Who, status: u32) -> Result<(), NoMemory>
    ensures { OnOk result (todo.new ≡ spec.loss_of status who todo.old) }
{
    match who {
        Who::Link { link } => todo.push_front(Loss::OfLink { link, status }),
        Who::Front { front } => todo.push_front(Loss::OfFront { front, status }),
        Who::Server => Ok(()),
    }
}

fn lose_inlets(todo: &mut Losses, inlets: &[Inlet]) -> Result<(), NoMemory>
    ensures { OnOk result (todo.new ≡ spec.losses inlets.now todo.old) }
{
    let mut left = inlets.len();
    while left > 0 {
        left -= 1;
        lose_who(todo, inlets[left].who, 0)?;
    }
    Ok(())
}

fn lose_front(todo: &mut Losses, front: Option<u64>) -> Result<(), NoMemory>
    ensures { OnOk result (todo.new ≡ spec.door_loss front todo.old) }
{
    match front {
        Some(front) => todo.push_front(Loss::OfFront { front, status: 0 }),
        None => Ok(()),
    }
}

fn lose_end(todo: &mut Losses, end: &End) -> Result<(), NoMemory>
    ensures { OnOk result (todo.new ≡ spec.losses_at (Some end.now) todo.old) }
{
    match end {
        End::Streams { carrier, .. } => lose_inlets(todo, carrier.inlets.as_slice()),
        End::Connect { door } => lose_front(todo, door.front),
    }
}

/// All that stand on a connection are lost.
pub fn lose_all(node: &mut Node, conn: u64) -> Result<(), NoMemory>
    ensures { OnOk result (node.new ≡ record node.old { todo = spec.losses_at (at node.old.ends conn) node.old.todo }) }
{
    match node.ends.get(conn) {
        Some(end) => lose_end(&mut node.todo, end),
        None => Ok(()),
    }
}

/// Text of a stream is read.
fn read(alloc: Global, node: &mut Node, conn: u64, stream: u32) -> Result<(), NoMemory>
    ensures { OnOk result (node.new ≡ on_end conn (on_carrier (after_read stream)) node.old) }
{
    node.stirred.add(conn)?;
    node.ends.read(alloc, conn, stream)
}

/// The peer's half of a stream ended.
fn note_end(alloc: Global, node: &mut Node, conn: u64, stream: u32) -> Result<(), NoMemory>
    ensures { OnOk result (node.new ≡ on_end conn (on_carrier (on_inlet stream with_end)) node.old) }
{
    node.stirred.add(conn)?;
    node.ends.note_end(alloc, conn, stream)
}

/// The peer reset a stream.
fn note_reset(alloc: Global, node: &mut Node, conn: u64, stream: u32) -> Result<(), NoMemory>
    ensures { OnOk result (node.new ≡ on_end conn (on_carrier (on_inlet stream with_reset)) node.old) }
{
    node.stirred.add(conn)?;
    node.ends.note_reset(alloc, conn, stream)
}

/// An event that a connection told.
#[tactic(auto, unfolding(crate::specs::Steps::heard))]
fn heard(alloc: Global, node: &mut Node, conn: u64, event: H2Event) -> Result<(), NoMemory>
    ensures { OnOk result (node.new ≡ spec.heard conn event node.old) }
{
    match event {
        H2Event::Opened { stream, headers } => opened(alloc, node, conn, stream, &headers),
        H2Event::Head { .. } => Ok(()),
        H2Event::Text { stream } => read(alloc, node, conn, stream),
        H2Event::Ended { stream } => note_end(alloc, node, conn, stream),
        H2Event::Reset { stream, code: _ } => note_reset(alloc, node, conn, stream),
        H2Event::Away { .. } => Ok(()),
        H2Event::Closed { .. } => lose_all(node, conn),
    }
}

/// The next event is heard.
#[tactic(auto, unfolding(crate::specs::Steps::hear))]
pub fn hear(alloc: Global, node: &mut Node) -> Result<(), NoMemory>
    ensures { OnOk result (node.new ≡ spec.hear node.old.told node.old) }
{
    match node.told.pop() {
        Some(Heard { conn, event }) => heard(alloc, node, conn, event),
        None => Ok(()),
    }
}
