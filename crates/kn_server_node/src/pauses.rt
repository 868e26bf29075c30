//! What waits, and what can be handled.

ghost use Rattle.std.specs.Prelude.{◌≡◌, Some};
ghost use Rattle.kn_packet.specs.Messages.{message};
ghost use Rattle.kn_ends.specs.Carriers.{inlet_at};
ghost use Rattle.kn_tables.specs.Holding.{has_front};
ghost use Rattle.kn_rising.specs.Members.{at};
ghost use Rattle.kn_server_core.specs.Server.{own, held_at};
ghost use Rattle.kn_server_node.specs.Ends.{queued_in};
ghost use Rattle.kn_server_node.specs.Nodes as spec;
ghost use Rattle.kn_server_node.specs.Least.{can_in};

use crate::candidate::Candidate;
use crate::door::Door;
use crate::end::End;
use crate::front::{Seen, front_of};
use crate::node::Node;
use crate::one;
use crate::place::Place;
use kn_ends::{Carrier, Inlet, Who};
use kn_packet::PacketRef;
use kn_rising::Rising;
use kn_server_core::ServerCore;
use kn_tables::HeldEntry;

/// Above this size of a queue packets wait.
const LONG_QUEUE: usize = 65_536;

/// Where a link or front stands.
pub fn place_at(places: &Rising<Place>, number: u64) -> Option<Place>
    ensures { result ≡ at places.now number }
{
    places.get(number).copied()
}

/// How many bytes wait at a place.
pub fn queue_at(node: &Node, place: Option<Place>) -> usize
    ensures { result ≡ spec.queue_at node.now.ends place }
{
    match place {
        Some(place) => queued(node, place.conn, place.stream),
        None => 0,
    }
}

fn queued(node: &Node, conn: u64, stream: u32) -> usize
    ensures { result ≡ queued_in (at node.now.ends conn) stream }
{
    match node.ends.get(conn) {
        Some(end) => one::queued(end, stream),
        None => 0,
    }
}

pub fn link_queue(node: &Node, link: u64) -> usize
    ensures { result ≡ spec.link_queue node.now link }
{
    queue_at(node, place_at(&node.links, link))
}

fn front_queue(node: &Node, front: u64) -> usize
    ensures { result ≡ spec.front_queue node.now front }
{
    queue_at(node, place_at(&node.fronts, front))
}

/// Packets wait while so many bytes wait.
fn is_long(queued: usize) -> bool
    ensures { result ≡ spec.is_long queued }
{
    queued > LONG_QUEUE
}

fn front_is_long(node: &Node, front: Option<u64>) -> bool
    ensures { result ≡ spec.front_is_long node.now front }
{
    match front {
        Some(front) => is_long(front_queue(node, front)),
        None => false,
    }
}

fn waits_for_link(node: &Node, entry: Option<HeldEntry>) -> bool
    ensures { result ≡ spec.waits_for_link node.now entry }
{
    match entry {
        Some(entry) => is_long(link_queue(node, entry.link)),
        None => false,
    }
}

fn waits_for_front(node: &Node, entry: Option<HeldEntry>) -> bool
    ensures { result ≡ spec.waits_for_front node.now entry }
{
    match entry {
        Some(entry) => front_is_long(node, entry.front),
        None => false,
    }
}

fn has_front(entry: &HeldEntry, front: u64) -> bool
    ensures { result ≡ has_front entry.now.front front }
{
    match entry.front {
        Some(other) => other == front,
        None => false,
    }
}

fn held_at(core: &ServerCore, connect_id: &i64) -> Option<HeldEntry>
    ensures { result ≡ held_at connect_id.now core.now.held }
{
    if *connect_id < 0 {
        None
    } else {
        core.held().find_dial(*connect_id as u64)
    }
}

fn own_of(entry: Option<HeldEntry>, front: u64) -> Option<HeldEntry>
    ensures { result ≡ own front entry }
{
    match entry {
        Some(entry) => {
            if has_front(&entry, front) {
                Some(entry)
            } else {
                None
            }
        }
        None => None,
    }
}

/// Data of an own dial waits for the queue of the dial's link.
fn own_waits(node: &Node, front: u64, connect_id: &i64) -> bool
    ensures { result ≡ spec.own_waits node.now front connect_id.now }
{
    waits_for_link(node, own_of(held_at(&node.core, connect_id), front))
}

fn front_data_waits(node: &Node, front: u64, packet: &PacketRef<'_>) -> bool
    ensures { result ≡ spec.front_data_waits node.now front (message packet.now) }
{
    match packet {
        PacketRef::Data { connect_id, .. } => own_waits(node, front, connect_id),
        PacketRef::DialReq { .. } => false,
        PacketRef::DialRsp { .. } => false,
        PacketRef::CloseReq { .. } => false,
        PacketRef::CloseRsp { .. } => false,
        PacketRef::DialCls { .. } => false,
        PacketRef::Drain => false,
        PacketRef::Other { .. } => false,
    }
}

fn front_waits(node: &Node, front: u64, packet: &PacketRef<'_>) -> bool
    ensures { result ≡ spec.front_waits node.now front (message packet.now) }
{
    is_long(front_queue(node, front)) || front_data_waits(node, front, packet)
}

fn link_waits(node: &Node, link: u64, packet: &PacketRef<'_>) -> bool
    ensures { result ≡ spec.link_waits node.now link (message packet.now) }
{
    match packet {
        PacketRef::Data { connect_id, .. } => {
            waits_for_front(node, node.core.held().find(link, *connect_id))
        }
        PacketRef::DialReq { .. } => false,
        PacketRef::DialRsp { .. } => false,
        PacketRef::CloseReq { .. } => false,
        PacketRef::CloseRsp { .. } => false,
        PacketRef::DialCls { .. } => false,
        PacketRef::Drain => false,
        PacketRef::Other { .. } => false,
    }
}

fn waits(node: &Node, who: Who, packet: &PacketRef<'_>) -> bool
    ensures { result ≡ spec.waits node.now who (message packet.now) }
{
    match who {
        Who::Link { link } => link_waits(node, link, packet),
        Who::Front { front } => front_waits(node, front, packet),
        Who::Server => false,
    }
}

fn inlet_can(node: &Node, inlet: &Inlet) -> bool
    ensures { result ≡ spec.inlet_can node.now (Some inlet.now) }
{
    match front_of(&inlet.messages) {
        Seen::Less => inlet.ended,
        Seen::Packet { packet } => !waits(node, inlet.who, &packet),
        Seen::Bad { .. } => true,
    }
}

fn stream_can(node: &Node, carrier: &Carrier, stream: u32) -> bool
    ensures { result ≡ spec.inlet_can node.now (inlet_at carrier.now.inlets stream) }
{
    match carrier.inlets.get(stream) {
        Some(inlet) => inlet_can(node, inlet),
        None => false,
    }
}

/// The link of a door's tunnel has a long queue.
pub fn door_waits(node: &Node, door: &Door) -> bool
    ensures { result ≡ spec.door_waits node.now door.now.front door.now.dial }
{
    match (door.front, &door.dial) {
        (Some(front), Some(connect_id)) => own_waits(node, front, connect_id),
        (Some(_front), None) => false,
        (None, _) => false,
    }
}

fn early_goes(node: &Node, door: &Door) -> bool
    ensures { result ≡ spec.early_goes node.now door.now }
{
    door.dial.is_some() && (!is_long(door.out.len()) && !door_waits(node, door))
}

fn door_can(node: &Node, door: &Door) -> bool
    ensures { result ≡ spec.door_can node.now door.now }
{
    !door.early.is_empty() && early_goes(node, door)
}

fn can_on(node: &Node, end: &End, stream: u32) -> bool
    ensures { result ≡ spec.can_on node.now (Some end.now) stream }
{
    match end {
        End::Streams { carrier, .. } => stream_can(node, carrier, stream),
        End::Connect { door } => stream == 0 && door_can(node, door),
    }
}

/// A stream has something to handle.
#[tactic(auto, unfolding(crate::specs::Nodes::can_handle))]
pub fn can_handle(node: &Node, x: Candidate) -> bool
    ensures { result ≡ can_in node.now x }
{
    match node.ends.get(x.conn) {
        Some(end) => can_on(node, end, x.stream),
        None => false,
    }
}
