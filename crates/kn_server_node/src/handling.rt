//! What stands at the front of a stream is handled, and losses follow.

ghost use Rattle.std.specs.Prelude.{◌≡◌, ℕ, List, Some, OnOk, IfOk};
ghost use Rattle.kn_ends.specs.Carriers.{inlet_at};
ghost use Rattle.kn_rising.specs.Members.{at};
ghost use Rattle.kn_server_node.specs.Fronts.{IsStanding, IsInletStanding, early_of, handle_standing, first_as};
ghost use Rattle.kn_server_node.specs.Steps as spec;

use crate::door::Door;
use crate::end::End;
use crate::front::{Front, front_of, own_front};
use crate::hearing::lose_who;
use crate::loss::Loss;
use crate::node::Node;
use crate::outputs::{end_front, end_link, event};
use crate::standing::Standing;
use kn_ends::{Carrier, Inlet, Who};
use kn_io::{Blob, NoMemory, Text};
use kn_packet::Packet;
use kn_server_core::ServerEvent;
use std::alloc::Global;

fn packet_event(alloc: Global, node: &mut Node, who: Who, packet: Packet) -> Result<(), NoMemory>
    ensures { OnOk result (node.new ≡ spec.packet_event who packet node.old) }
{
    match who {
        Who::Link { link } => event(alloc, node, ServerEvent::LinkPacket { link, packet }),
        Who::Front { front } => event(alloc, node, ServerEvent::FrontPacket { front, packet }),
        Who::Server => Ok(()),
    }
}

/// A whole message is taken from its stream, and its packet handled.
fn handle_packet(
    alloc: Global,
    node: &mut Node,
    conn: u64,
    stream: u32,
    who: Who,
    packet: Packet,
) -> Result<(), NoMemory>
    ensures { OnOk result (node.new ≡ spec.handle_packet conn stream who packet node.old) }
{
    node.stirred.add(conn)?;
    node.ends.take(alloc, conn, stream)?;
    node.handled = node.handled.saturating_add(1);
    packet_event(alloc, node, who, packet)
}

/// What stands at the front of a stream is handled.
#[tactic(auto, unfolding(crate::specs::Steps::handle))]
fn handle_front(
    alloc: Global,
    node: &mut Node,
    conn: u64,
    stream: u32,
    who: Who,
    front: Front,
) -> Result<(), NoMemory>
    ensures { OnOk result ((rest : List ℕ) → node.new ≡ spec.handle conn stream who (first_as front rest) node.old) }
{
    match front {
        Front::Less => lose_who(&mut node.todo, who, 0),
        Front::Packet { packet } => handle_packet(alloc, node, conn, stream, who, packet),
        Front::Bad { status } => lose_who(&mut node.todo, who, status),
    }
}

fn early_event(
    alloc: Global,
    node: &mut Node,
    front: Option<u64>,
    dial: &Option<i64>,
    bytes: Blob,
) -> Result<(), NoMemory>
    ensures { OnOk result (node.new ≡ spec.early_event front dial.now bytes node.old) }
{
    match (front, dial) {
        (Some(front), Some(connect_id)) => {
            let packet = Packet::Data {
                connect_id: *connect_id,
                error: Text::new(alloc),
                bytes,
            };
            event(alloc, node, ServerEvent::FrontPacket { front, packet })
        }
        (Some(_front), None) => Ok(()),
        (None, _) => Ok(()),
    }
}

fn handle_early(
    alloc: Global,
    node: &mut Node,
    conn: u64,
    front: Option<u64>,
    dial: &Option<i64>,
    bytes: Blob,
) -> Result<(), NoMemory>
    ensures { OnOk result (node.new ≡ spec.early_handled conn front dial.now bytes node.old) }
{
    node.stirred.add(conn)?;
    node.ends.drop_early(alloc, conn)?;
    node.handled = node.handled.saturating_add(1);
    early_event(alloc, node, front, dial, bytes)
}

/// What was found of a stream is handled.
pub fn handle(
    alloc: Global,
    node: &mut Node,
    conn: u64,
    stream: u32,
    standing: Standing,
) -> Result<(), NoMemory>
    ensures { OnOk result ((rest : List ℕ) → node.new ≡ handle_standing conn stream standing rest node.old) }
{
    match standing {
        Standing::Nothing => Ok(()),
        Standing::Stream { who, front } => handle_front(alloc, node, conn, stream, who, front),
        Standing::Early { front, dial, bytes } => {
            handle_early(alloc, node, conn, front, &dial, bytes)
        }
    }
}

// ---- what stands there

fn inlet_standing(alloc: Global, inlet: &Inlet) -> Result<Standing, NoMemory>
    ensures { IfOk result (λ found. IsInletStanding (Some inlet.now) found) }
{
    let front = own_front(alloc, front_of(&inlet.messages))?;
    Ok(Standing::Stream {
        who: inlet.who,
        front,
    })
}

fn stream_standing(alloc: Global, carrier: &Carrier, stream: u32) -> Result<Standing, NoMemory>
    ensures { IfOk result (λ found. IsInletStanding (inlet_at carrier.now.inlets stream) found) }
{
    match carrier.inlets.get(stream) {
        Some(inlet) => inlet_standing(alloc, inlet),
        None => Ok(Standing::Nothing),
    }
}

fn early_standing(alloc: Global, door: &Door) -> Result<Standing, NoMemory>
    ensures { IfOk result (λ found. found ≡ early_of door.now) }
{
    let bytes = Blob::of(alloc, door.early.as_slice())?;
    Ok(Standing::Early {
        front: door.front,
        dial: door.dial,
        bytes,
    })
}

/// What stands at the front of a stream.
pub fn standing_at(alloc: Global, node: &Node, conn: u64, stream: u32) -> Result<Standing, NoMemory>
    ensures { IfOk result (λ found. IsStanding (at node.now.ends conn) stream found) }
{
    match node.ends.get(conn) {
        Some(End::Streams { carrier, .. }) => stream_standing(alloc, carrier, stream),
        Some(End::Connect { door }) => early_standing(alloc, door),
        None => Ok(Standing::Nothing),
    }
}

// ---- losses

/// A link or front is lost.
#[tactic(auto, unfolding(crate::specs::Steps::lose))]
fn lose(alloc: Global, node: &mut Node, loss: Loss) -> Result<(), NoMemory>
    ensures { OnOk result (node.new ≡ spec.lose loss node.old) }
{
    match loss {
        Loss::OfLink { link, status } => {
            end_link(alloc, node, link, status)?;
            event(alloc, node, ServerEvent::LinkLost { link })
        }
        Loss::OfFront { front, status } => {
            end_front(alloc, node, front, status)?;
            event(alloc, node, ServerEvent::FrontLost { front })
        }
    }
}

/// The next loss follows.
pub fn follow(alloc: Global, node: &mut Node) -> Result<(), NoMemory>
    ensures { OnOk result (node.new ≡ spec.follow node.old.todo node.old) }
{
    match node.todo.pop() {
        Some(loss) => lose(alloc, node, loss),
        None => Ok(()),
    }
}
