//! What the core chooses at an event.

ghost use Rattle.std.specs.Prelude.{◌≡◌, IfOk};
ghost use Rattle.kn_server_core.specs.Choices.{choice_at};
ghost use Rattle.kn_server_core.specs.declared.event.ServerEvent.TheVariants.{FrontPacket};
ghost use Rattle.kn_server_node.specs.Choices as spec;

use crate::chosen::Chosen;
use crate::node::Node;
use crate::pauses::place_at;
use crate::place::Place;
use kn_io::NoMemory;
use kn_packet::Packet;
use kn_server_core::{Choice, ServerEvent};
use std::alloc::Global;

fn conn_of(place: Option<Place>) -> Option<u64>
    ensures { result ≡ spec.conn_of place }
{
    match place {
        Some(place) => Some(place.conn),
        None => None,
    }
}

fn asked_by(conn: Option<u64>, front: u64, random: i64, choice: Option<Choice>) -> Option<Chosen>
    ensures { result ≡ spec.asked_by conn front random choice }
{
    match choice {
        Some(choice) => Some(Chosen {
            conn,
            front,
            random,
            choice,
        }),
        None => None,
    }
}

/// The choice that a packet of a front comes to.
fn chosen_for(
    alloc: Global,
    node: &Node,
    event: &ServerEvent,
    front: u64,
    packet: &Packet,
) -> Result<Option<Chosen>, NoMemory>
    requires { event.now ≡ FrontPacket front packet.now }
    ensures { IfOk result (λ found. found ≡ spec.chosen_for node.now front packet.now) }
{
    match packet {
        Packet::DialReq { random, .. } => {
            let choice = node.core.choice(alloc, event)?;
            let conn = conn_of(place_at(&node.fronts, front));
            Ok(asked_by(conn, front, *random, choice))
        }
        Packet::DialRsp { .. } => Ok(None),
        Packet::CloseReq { .. } => Ok(None),
        Packet::CloseRsp { .. } => Ok(None),
        Packet::Data { .. } => Ok(None),
        Packet::DialCls { .. } => Ok(None),
        Packet::Drain => Ok(None),
        Packet::Other { .. } => Ok(None),
    }
}

/// The choice that an event comes to, before the core hears of it.
pub fn chosen_at(
    alloc: Global,
    node: &Node,
    event: &ServerEvent,
) -> Result<Option<Chosen>, NoMemory>
    ensures { IfOk result (λ found. found ≡ spec.chosen_at node.now event.now) }
{
    match event {
        ServerEvent::FrontPacket { front, packet } => {
            chosen_for(alloc, node, event, *front, packet)
        }
        ServerEvent::LinkUp { .. } => Ok(None),
        ServerEvent::LinkPacket { .. } => Ok(None),
        ServerEvent::LinkLost { .. } => Ok(None),
        ServerEvent::FrontUp { .. } => Ok(None),
        ServerEvent::FrontLost { .. } => Ok(None),
    }
}
