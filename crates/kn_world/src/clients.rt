//! Clients and their streams: what enters a stream's lists and leaves them, and what a client's core does.
ghost use Rattle.std.specs.Prelude.{◌≡◌, ◌++◌, length, IfOk, OnOk};
ghost use Rattle.kn_edge_core.specs.Client as edge;
ghost use Rattle.kn_world.specs.Numbers.{nth, change};
ghost use Rattle.kn_world.specs.Clients as spec;

use crate::numbered::Numbered;
use crate::numbers::or_none;
use crate::packets::Packets;
use crate::parts::{Client, Home};
use kn_edge_core::{AppState, ClientEvent, ClientOut};
use kn_io::NoMemory;
use kn_packet::Packet;
use std::alloc::Global;

fn push_up(client: &mut Client, packet: Packet) -> Result<(), NoMemory>
    ensures { OnOk result (client.new ≡ spec.queued_up packet client.old) }
{
    if client.at_server && client.at_client {
        client.up.push(packet)
    } else {
        Ok(())
    }
}

fn push_down(client: &mut Client, packet: Packet) -> Result<(), NoMemory>
    ensures { OnOk result (client.new ≡ spec.with_down client.old.at_client packet client.old) }
{
    if client.at_client {
        client.down.push(packet)
    } else {
        Ok(())
    }
}

/// A packet goes to the server, which may have lost the stream.
pub fn queue_up(clients: &mut Numbered<Client>, number: u64, packet: Packet) -> Result<(), NoMemory>
    ensures { OnOk result (clients.new ≡ change (spec.queued_up packet) number clients.old) }
{
    match clients.get_mut(number) {
        Some(client) => push_up(client, packet),
        None => Ok(()),
    }
}

/// A packet goes to a client, which may have lost the stream.
pub fn queue_down(
    clients: &mut Numbered<Client>,
    number: u64,
    packet: Packet,
) -> Result<(), NoMemory>
    ensures { OnOk result (clients.new ≡ change (spec.queued_down packet) number clients.old) }
{
    match clients.get_mut(number) {
        Some(client) => push_down(client, packet),
        None => Ok(()),
    }
}

/// The first packet on its way to the server is taken off.
pub fn pop_up(clients: &mut Numbered<Client>, number: u64) -> Option<Packet>
    ensures first { result ≡ spec.first_up (nth number clients.old) }
    ensures rest { clients.new ≡ change spec.rest_up number clients.old }
{
    match clients.get_mut(number) {
        Some(client) => client.up.pop(),
        None => None,
    }
}

/// The first packet on its way to the client is taken off.
pub fn pop_down(clients: &mut Numbered<Client>, number: u64) -> Option<Packet>
    ensures first { result ≡ spec.first_down (nth number clients.old) }
    ensures rest { clients.new ≡ change spec.rest_down number clients.old }
{
    match clients.get_mut(number) {
        Some(client) => client.down.pop(),
        None => None,
    }
}

/// How many packets are on their way to the server.
pub fn up_count(clients: &Numbered<Client>, number: u64) -> usize
    ensures { result ≡ spec.up_count (nth number clients.now) }
{
    match clients.get(number) {
        Some(client) => client.up.len(),
        None => 0,
    }
}

/// How many packets are on their way to the client.
pub fn down_count(clients: &Numbered<Client>, number: u64) -> usize
    ensures { result ≡ spec.down_count (nth number clients.now) }
{
    match clients.get(number) {
        Some(client) => client.down.len(),
        None => 0,
    }
}

/// The server loses the stream: what is on its way to it is dropped.
pub fn lose_at_server(alloc: Global, clients: &mut Numbered<Client>, number: u64)
    ensures { clients.new ≡ change spec.lost_at_server number clients.old }
{
    if let Some(client) = clients.get_mut(number) {
        client.at_server = false;
        client.up = Packets::new(alloc);
    }
}

/// The client loses the stream: what is on its way to it is dropped.
pub fn lose_at_client(alloc: Global, clients: &mut Numbered<Client>, number: u64)
    ensures { clients.new ≡ change spec.lost_at_client number clients.old }
{
    if let Some(client) = clients.get_mut(number) {
        client.at_client = false;
        client.down = Packets::new(alloc);
    }
}

/// The client's next number is that of an app.
pub fn note_app(clients: &mut Numbered<Client>, number: u64, app: u64) -> Result<(), NoMemory>
    ensures { OnOk result (clients.new ≡ change (spec.with_app app) number clients.old) }
{
    match clients.get_mut(number) {
        Some(client) => client.apps.push(app),
        None => Ok(()),
    }
}

/// The number of the client's stream at the server, 0 where there is no such client.
pub fn front_of(clients: &Numbered<Client>, number: u64) -> u64
    ensures { result ≡ spec.front_of (nth number clients.now) }
{
    match clients.get(number) {
        Some(client) => client.front,
        None => 0,
    }
}

/// Whether a client still has its stream.
pub fn is_at_client(clients: &Numbered<Client>, number: u64) -> bool
    ensures { result ≡ spec.is_at_client (nth number clients.now) }
{
    match clients.get(number) {
        Some(client) => client.at_client,
        None => false,
    }
}

/// The app of a client's own number, 0 where there is none.
pub fn app_at(clients: &Numbered<Client>, number: u64, app: u64) -> u64
    ensures { result ≡ spec.app_at app (nth number clients.now) }
{
    match clients.get(number) {
        Some(client) => match client.apps.get(app) {
            Some(app) => *app,
            None => 0,
        },
        None => 0,
    }
}

/// The app that data of a connectID is for, 0 where there is none.
pub fn taker_at(clients: &Numbered<Client>, number: u64, connect_id: &i64) -> u64
    ensures { result ≡ spec.taker_at connect_id.now (nth number clients.now) }
{
    match clients.get(number) {
        Some(client) => {
            let app = or_none(client.core.taker_of(*connect_id));
            match client.apps.get(app) {
                Some(app) => *app,
                None => 0,
            }
        }
        None => 0,
    }
}

/// Where the tunnel of an app stands at its client.
pub fn state_at(clients: &Numbered<Client>, number: u64, app: u64) -> Option<AppState>
    ensures { result ≡ spec.state_at app (nth number clients.now) }
{
    match clients.get(number) {
        Some(client) => client.core.state_of(app),
        None => None,
    }
}

/// How many bytes an app's client has written to it that it has not taken.
pub fn unwritten_at(clients: &Numbered<Client>, number: u64, app: u64) -> usize
    ensures { result ≡ spec.unwritten_at app (nth number clients.now) }
{
    match clients.get(number) {
        Some(client) => match client.core.unwritten_of(app) {
            Some(count) => count,
            None => 0,
        },
        None => 0,
    }
}

/// Where an app's tunnel stands at its client; one by CONNECT has none.
pub fn state_of(clients: &Numbered<Client>, home: Home) -> Option<AppState>
    ensures { result ≡ spec.state_of home clients.now }
{
    match home {
        Home::Client { client, number } => state_at(clients, client, number),
        Home::Connect => None,
    }
}

fn step_one(
    alloc: Global,
    client: &mut Client,
    event: ClientEvent,
    outs: &mut Vec<ClientOut>,
) -> Result<(), NoMemory>
    ensures client { OnOk result (client.new ≡ spec.stepped event client.old) }
    ensures outs { OnOk result (outs.new.items ≡ outs.old.items ++ (edge.step client.old.core event).outs) }
{
    if client.core.fits(&event) {
        client.core.step(alloc, event, outs)
    } else {
        Err(NoMemory)
    }
}

/// The core of a client takes an event, and its outputs are told.
pub fn step_core(
    alloc: Global,
    clients: &mut Numbered<Client>,
    number: u64,
    event: ClientEvent,
) -> Result<Vec<ClientOut>, NoMemory>
    ensures clients { OnOk result (clients.new ≡ change (spec.stepped event) number clients.old) }
    ensures outs { IfOk result (λ outs. outs.items ≡ spec.told event (nth number clients.old)) }
{
    let mut outs = Vec::new(alloc);
    match clients.get_mut(number) {
        Some(client) => {
            step_one(alloc, client, event, &mut outs)?;
            Ok(outs)
        }
        None => Ok(outs),
    }
}
