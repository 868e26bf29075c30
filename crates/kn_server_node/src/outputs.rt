//! What the core gives out, and what comes of it.

ghost use Rattle.std.specs.Prelude.{◌≡◌, nat_lt, OnOk, IfOk};
ghost use Rattle.kn_rising.specs.Members.{at};
ghost use Rattle.kn_server_core.specs.Sound.{IsNext};
ghost use Rattle.kn_server_core.specs.Server as server;
ghost use Rattle.kn_server_node.specs.Ends.{given, closed, is_door};
ghost use Rattle.kn_server_node.specs.Nodes as spec;

use crate::choosing_links::chosen_at;
use crate::doors::ends_front;
use crate::loss::Loss;
use crate::losses::Losses;
use crate::node::Node;
use crate::one;
use crate::pauses::{link_queue, place_at};
use crate::place::Place;
use crate::places::Places;
use kn_io::NoMemory;
use kn_packet::Packet;
use kn_server_core::{ServerEvent, ServerOut};
use std::alloc::Global;

/// A link whose queue is over this size is cut by a packet that is not Data.
const FULL_QUEUE: usize = 5_242_880;

/// A packet waits to be sent at a place.
fn give_at(
    alloc: Global,
    node: &mut Node,
    place: Option<Place>,
    packet: &Packet,
) -> Result<(), NoMemory>
    ensures { OnOk result (node.new ≡ spec.at_place place (λ s. given s packet.now) node.old) }
{
    match place {
        Some(place) => {
            node.stirred.add(place.conn)?;
            node.ends.give(alloc, place.conn, place.stream, packet)
        }
        None => Ok(()),
    }
}

fn is_data(packet: &Packet) -> bool
    ensures { result ≡ spec.is_data packet.now }
{
    match packet {
        Packet::Data { .. } => true,
        Packet::DialReq { .. } => false,
        Packet::DialRsp { .. } => false,
        Packet::CloseReq { .. } => false,
        Packet::CloseRsp { .. } => false,
        Packet::DialCls { .. } => false,
        Packet::Drain => false,
        Packet::Other { .. } => false,
    }
}

/// So many bytes are more than a link may have waiting.
fn is_full(queued: usize) -> bool
    ensures { result ≡ nat_lt 5242880 queued }
{
    queued > FULL_QUEUE
}

fn is_too_long(node: &Node, link: u64, packet: &Packet) -> bool
    ensures { result ≡ spec.is_too_long node.now link packet.now }
{
    !is_data(packet) && is_full(link_queue(node, link))
}

/// A packet goes to a link.
fn to_link(alloc: Global, node: &mut Node, link: u64, packet: &Packet) -> Result<(), NoMemory>
    ensures { OnOk result (node.new ≡ spec.to_link link packet.now node.old) }
{
    if is_too_long(node, link, packet) {
        node.todo.insert(Loss::OfLink { link, status: 14 })
    } else {
        let place = place_at(&node.links, link);
        give_at(alloc, node, place, packet)
    }
}

fn is_door(node: &Node, conn: u64) -> bool
    ensures { result ≡ is_door (at node.now.ends conn) }
{
    match node.ends.get(conn) {
        Some(end) => one::is_door(end),
        None => false,
    }
}

fn is_door_at(node: &Node, place: Option<Place>) -> bool
    ensures { result ≡ spec.is_door_at node.now.ends place }
{
    match place {
        Some(place) => is_door(node, place.conn),
        None => false,
    }
}

fn note_front_loss(todo: &mut Losses, ends: bool, front: u64) -> Result<(), NoMemory>
    ensures { OnOk result (todo.new ≡ spec.with_front_loss ends front todo.old) }
{
    if ends {
        todo.insert(Loss::OfFront { front, status: 0 })
    } else {
        Ok(())
    }
}

/// A packet goes to a front.
fn to_front(alloc: Global, node: &mut Node, front: u64, packet: &Packet) -> Result<(), NoMemory>
    ensures { OnOk result (node.new ≡ spec.to_front front packet.now node.old) }
{
    let place = place_at(&node.fronts, front);
    let ends = ends_front(packet) && is_door_at(node, place);
    give_at(alloc, node, place, packet)?;
    note_front_loss(&mut node.todo, ends, front)
}

/// What one output comes to.
#[tactic(auto, unfolding(crate::specs::Nodes::output))]
fn give(alloc: Global, node: &mut Node, out: ServerOut) -> Result<(), NoMemory>
    ensures { OnOk result (node.new ≡ spec.output node.old out) }
{
    match out {
        ServerOut::ToLink { link, packet } => to_link(alloc, node, link, &packet),
        ServerOut::ToFront { front, packet } => to_front(alloc, node, front, &packet),
        ServerOut::CutLink { link } => end_link(alloc, node, link, 13),
        ServerOut::Made { .. } => Ok(()),
    }
}

/// The stream of a place is deaf, and ends with a status.
fn close_at(
    alloc: Global,
    node: &mut Node,
    place: Option<Place>,
    status: u32,
) -> Result<(), NoMemory>
    ensures { OnOk result (node.new ≡ spec.at_place place (closed status) node.old) }
{
    match place {
        Some(place) => {
            node.stirred.add(place.conn)?;
            node.ends.close(alloc, place.conn, place.stream, status)
        }
        None => Ok(()),
    }
}

fn keep(past: &mut Places, place: Option<Place>) -> Result<(), NoMemory>
    ensures { OnOk result (past.new ≡ spec.kept_with place past.old) }
{
    match place {
        Some(place) => past.push(place),
        None => Ok(()),
    }
}

fn gone_with(place: Option<Place>, gone: u64) -> u64
    ensures { result ≡ spec.gone_with place gone }
{
    match place {
        Some(_place) => gone.saturating_add(1),
        None => gone,
    }
}

/// A link stands nowhere any more.
pub fn end_link(alloc: Global, node: &mut Node, link: u64, status: u32) -> Result<(), NoMemory>
    ensures { OnOk result (node.new ≡ spec.link_ended link status node.old) }
{
    let place = place_at(&node.links, link);
    close_at(alloc, node, place, status)?;
    node.links.remove(link);
    keep(&mut node.past_links, place)
}

/// A front stands nowhere any more.
pub fn end_front(alloc: Global, node: &mut Node, front: u64, status: u32) -> Result<(), NoMemory>
    ensures { OnOk result (node.new ≡ spec.front_ended front status node.old) }
{
    let place = place_at(&node.fronts, front);
    close_at(alloc, node, place, status)?;
    node.fronts.remove(front);
    node.gone = gone_with(place, node.gone);
    keep(&mut node.past_fronts, place)
}

fn give_all(alloc: Global, node: &mut Node, outs: Vec<ServerOut>) -> Result<(), NoMemory>
    ensures { OnOk result (node.new ≡ spec.outputs node.old outs.items) }
{
    for out in outs {
        give(alloc, node, out)?;
    }
    Ok(())
}

/// The core hears of an event.
fn step_core(alloc: Global, node: &mut Node, event: ServerEvent) -> Result<Vec<ServerOut>, NoMemory>
    requires { IsNext node.old.core event }
    ensures node { OnOk result (node.new ≡ record node.old { core = (server.step node.old.core event).state }) }
    ensures outs { IfOk result (λ outs. outs.items ≡ (server.step node.old.core event).outs) }
{
    let mut outs = Vec::new(alloc);
    node.core.step(alloc, event, &mut outs)?;
    Ok(outs)
}

/// One event of the core, what it gives out, and the choice that it comes to.
#[tactic(auto, unfolding(crate::specs::Nodes::event))]
pub fn event(alloc: Global, node: &mut Node, event: ServerEvent) -> Result<(), NoMemory>
    requires next { IsNext node.old.core event }
    ensures { OnOk result (node.new ≡ spec.event event node.old) }
{
    let chosen = chosen_at(alloc, node, &event)?;
    let later = node.todo.take(alloc);
    let outs = step_core(alloc, node, event)?;
    give_all(alloc, node, outs)?;
    node.todo.append(later)?;
    node.choices.note(chosen)
}
