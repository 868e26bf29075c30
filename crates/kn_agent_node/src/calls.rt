//! What each call does itself, before the steps that follow.

ghost use Rattle.std.specs.Prelude.{◌≡◌, ◌≤◌, length, pos, ◌<◌, OnOk};
ghost use Rattle.kn_rising.specs.Members.{at, change};
ghost use Rattle.kn_agent_node.specs.Calls as call;
ghost use Rattle.kn_agent_node.specs.Answers as answer;

use crate::dialling::Dialling;
use crate::dials::dialling_at;
use crate::node::Node;
use crate::outputs::{event, event_if_fits};
use crate::purpose::Purpose;
use crate::side::Side;
use kn_edge_core::AgentEvent;
use kn_ends::{feed, is_gone, lose, took};
use kn_h2_state::ByteQueue;
use kn_io::{Blob, NoMemory};
use kn_rising::Rising;
use std::alloc::Global;

/// The number that no connection draws: connectIDs are below 2^63 − 1.
const LAST_NUMBER: u64 = 9_223_372_036_854_775_807;

/// What the connection of a number is for.
pub fn purpose_at(sides: &Rising<Side>, conn: u64) -> Option<Purpose>
    ensures { result ≡ call.purpose_at (at sides.now conn) }
{
    match sides.get(conn) {
        Some(side) => Some(side.purpose),
        None => None,
    }
}

// ---- bytes

fn bytes_of_side(
    alloc: Global,
    node: &mut Node,
    purpose: Option<Purpose>,
    piece: &[u8],
) -> Result<(), NoMemory>
    ensures { OnOk result (node.new ≡ call.bytes_for piece.now purpose node.old) }
{
    match purpose {
        None => Ok(()),
        Some(Purpose::Dials { .. }) => Ok(()),
        Some(Purpose::Carries { connect_id }) => {
            let bytes = Blob::of(alloc, piece)?;
            event(alloc, node, AgentEvent::DestBytes { connect_id, bytes })
        }
    }
}

/// The next bytes of a connection.
#[tactic(auto, unfolding(crate::specs::Calls::called))]
pub fn bytes(alloc: Global, node: &mut Node, conn: u64, piece: &[u8]) -> Result<(), NoMemory>
    ensures { OnOk result (node.new ≡ call.called (call.Bytes conn piece.now) node.old) }
{
    if conn == node.server {
        feed(&mut node.carrier, alloc, piece)
    } else {
        let purpose = purpose_at(&node.sides, conn);
        bytes_of_side(alloc, node, purpose, piece)
    }
}

// ---- what was written

fn advance(side: &mut Side, count: usize)
    requires { count ≤ length side.old.out }
    ensures { side.new ≡ call.without_first count side.old }
{
    side.out.advance(count);
}

fn advance_at(sides: &mut Rising<Side>, conn: u64, count: usize)
    requires { count ≤ length (answer.side_out (at sides.old conn)) }
    ensures { sides.new ≡ change sides.old conn (call.without_first count) }
{
    if let Some(side) = sides.get_mut(conn) {
        advance(side, count);
    }
}

fn took_of_side(
    alloc: Global,
    node: &mut Node,
    conn: u64,
    purpose: Option<Purpose>,
    count: usize,
) -> Result<(), NoMemory>
    requires { count ≤ length (answer.side_out (at node.old.sides conn)) }
    ensures { OnOk result (node.new ≡ call.took_for conn count purpose node.old) }
{
    match purpose {
        None => Ok(()),
        Some(Purpose::Dials { .. }) => Ok(()),
        Some(Purpose::Carries { connect_id }) => {
            advance_at(&mut node.sides, conn, count);
            event_if_fits(alloc, node, AgentEvent::DestWrote { connect_id, count })
        }
    }
}

/// So many bytes of what was to be written on a connection were.
#[tactic(auto, unfolding(crate::specs::Calls::called))]
pub fn took_bytes(alloc: Global, node: &mut Node, conn: u64, count: usize) -> Result<(), NoMemory>
    requires { count ≤ length (answer.out_of node.old conn) }
    ensures { OnOk result (node.new ≡ call.called (call.Took conn count) node.old) }
{
    if conn == node.server {
        took(&mut node.carrier, count);
        Ok(())
    } else {
        let purpose = purpose_at(&node.sides, conn);
        took_of_side(alloc, node, conn, purpose, count)
    }
}

// ---- ends and failures

fn server_lost(node: &mut Node)
    ensures { node.new ≡ call.server_lost (call.has_gone node.old) node.old }
{
    if !is_gone(&node.carrier) {
        lose(&mut node.carrier);
        node.losing = true;
    }
}

/// The dial of a ticket failed on its connection.
fn dial_failed(alloc: Global, node: &mut Node, conn: u64, ticket: u64) -> Result<(), NoMemory>
    ensures { OnOk result (node.new ≡ call.dial_failed conn ticket node.old) }
{
    node.sides.remove(conn);
    node.by_ticket.remove(ticket);
    event(alloc, node, AgentEvent::DialRefused { ticket })
}

fn end_of_side(
    alloc: Global,
    node: &mut Node,
    conn: u64,
    purpose: Option<Purpose>,
) -> Result<(), NoMemory>
    ensures { OnOk result (node.new ≡ call.ended_for conn purpose node.old) }
{
    match purpose {
        None => Ok(()),
        Some(Purpose::Dials { ticket }) => dial_failed(alloc, node, conn, ticket),
        Some(Purpose::Carries { connect_id }) => {
            event(alloc, node, AgentEvent::DestEnd { connect_id })
        }
    }
}

/// The bytes of a connection ended. To the server's connection this is a loss.
#[tactic(auto, unfolding(crate::specs::Calls::called))]
pub fn ended(alloc: Global, node: &mut Node, conn: u64) -> Result<(), NoMemory>
    ensures { OnOk result (node.new ≡ call.called (call.Ended conn) node.old) }
{
    if conn == node.server {
        server_lost(node);
        Ok(())
    } else {
        let purpose = purpose_at(&node.sides, conn);
        end_of_side(alloc, node, conn, purpose)
    }
}

fn loss_of_side(
    alloc: Global,
    node: &mut Node,
    conn: u64,
    purpose: Option<Purpose>,
) -> Result<(), NoMemory>
    ensures { OnOk result (node.new ≡ call.lost_for conn purpose node.old) }
{
    match purpose {
        None => Ok(()),
        Some(Purpose::Dials { ticket }) => dial_failed(alloc, node, conn, ticket),
        Some(Purpose::Carries { connect_id }) => {
            event(alloc, node, AgentEvent::DestFailed { connect_id })
        }
    }
}

/// A connection failed.
#[tactic(auto, unfolding(crate::specs::Calls::called))]
pub fn lost(alloc: Global, node: &mut Node, conn: u64) -> Result<(), NoMemory>
    ensures { OnOk result (node.new ≡ call.called (call.Lost conn) node.old) }
{
    if conn == node.server {
        server_lost(node);
        Ok(())
    } else {
        let purpose = purpose_at(&node.sides, conn);
        loss_of_side(alloc, node, conn, purpose)
    }
}

// ---- dials

fn note_begun(by_ticket: &mut Rising<Dialling>, ticket: u64, conn: u64)
    ensures { by_ticket.new ≡ change by_ticket.old ticket (call.began_with conn) }
{
    if let Some(dialling) = by_ticket.get_mut(ticket) {
        *dialling = Dialling::Began { conn };
    }
}

fn new_side(alloc: Global, ticket: u64) -> Side
    ensures { result ≡ call.new_side ticket }
{
    Side {
        purpose: Purpose::Dials { ticket },
        out: ByteQueue::new(alloc),
    }
}

fn begin_wanted(alloc: Global, node: &mut Node, ticket: u64, conn: u64) -> Result<(), NoMemory>
    ensures { OnOk result (node.new ≡ call.begun (call.is_wanted node.old ticket) ticket conn node.old) }
{
    if node.core.random_of(ticket).is_some() {
        note_begun(&mut node.by_ticket, ticket, conn);
        node.sides.insert(conn, new_side(alloc, ticket))
    } else {
        node.by_ticket.remove(ticket);
        Ok(())
    }
}

fn begin_found(
    alloc: Global,
    node: &mut Node,
    found: Option<Dialling>,
    ticket: u64,
    conn: u64,
) -> Result<(), NoMemory>
    ensures { OnOk result (node.new ≡ call.began_at found ticket conn node.old) }
{
    match found {
        None => Ok(()),
        Some(Dialling::Listed) => Ok(()),
        Some(Dialling::HandedOut) => begin_wanted(alloc, node, ticket, conn),
        Some(Dialling::Began { .. }) => Ok(()),
    }
}

/// The dial of a ticket is under way on a connection.
#[tactic(auto, unfolding(crate::specs::Calls::called))]
pub fn began(alloc: Global, node: &mut Node, ticket: u64, conn: u64) -> Result<(), NoMemory>
    ensures { OnOk result (node.new ≡ call.called (call.Begins ticket conn) node.old) }
{
    node.top = conn;
    let found = dialling_at(&node.by_ticket, ticket);
    begin_found(alloc, node, found, ticket, conn)
}

fn refuse_found(
    alloc: Global,
    node: &mut Node,
    found: Option<Dialling>,
    ticket: u64,
) -> Result<(), NoMemory>
    ensures { OnOk result (node.new ≡ call.not_begun_at found ticket node.old) }
{
    match found {
        None => Ok(()),
        Some(Dialling::Listed) => Ok(()),
        Some(Dialling::HandedOut) => {
            node.by_ticket.remove(ticket);
            event(alloc, node, AgentEvent::DialRefused { ticket })
        }
        Some(Dialling::Began { .. }) => Ok(()),
    }
}

/// The dial of a ticket was refused at once.
#[tactic(auto, unfolding(crate::specs::Calls::called))]
pub fn not_begun(alloc: Global, node: &mut Node, ticket: u64) -> Result<(), NoMemory>
    ensures { OnOk result (node.new ≡ call.called (call.NotBegun ticket) node.old) }
{
    let found = dialling_at(&node.by_ticket, ticket);
    refuse_found(alloc, node, found, ticket)
}

fn carry(side: &mut Side, number: u64)
    requires { number < 9223372036854775807 }
    ensures { side.new ≡ call.carrying number side.old }
{
    side.purpose = Purpose::Carries {
        connect_id: number as i64,
    };
}

fn carry_at(sides: &mut Rising<Side>, conn: u64, number: u64)
    requires { number < 9223372036854775807 }
    ensures { sides.new ≡ change sides.old conn (call.carrying number) }
{
    if let Some(side) = sides.get_mut(conn) {
        carry(side, number);
    }
}

fn draw(node: &mut Node, conn: u64, ticket: u64) -> Result<(), NoMemory>
    ensures { OnOk result (node.new ≡ call.drawn (call.has_id_left node.old) conn ticket node.old) }
{
    let number = node.core.next_connect_id();
    if number < LAST_NUMBER {
        carry_at(&mut node.sides, conn, number);
        node.by_ticket.remove(ticket);
        node.by_id.insert(number, conn)
    } else {
        Ok(())
    }
}

fn dial_won(alloc: Global, node: &mut Node, conn: u64, ticket: u64) -> Result<(), NoMemory>
    ensures { OnOk result (node.new ≡ call.dial_won conn ticket node.old) }
{
    draw(node, conn, ticket)?;
    event(alloc, node, AgentEvent::DialUp { ticket })
}

fn dial_came(
    alloc: Global,
    node: &mut Node,
    conn: u64,
    ticket: u64,
    up: bool,
) -> Result<(), NoMemory>
    ensures { OnOk result (node.new ≡ call.dialled_by up conn ticket node.old) }
{
    if up {
        dial_won(alloc, node, conn, ticket)
    } else {
        dial_failed(alloc, node, conn, ticket)
    }
}

fn dialled_side(
    alloc: Global,
    node: &mut Node,
    conn: u64,
    purpose: Option<Purpose>,
    up: bool,
) -> Result<(), NoMemory>
    ensures { OnOk result (node.new ≡ call.dialled_for up conn purpose node.old) }
{
    match purpose {
        None => Ok(()),
        Some(Purpose::Dials { ticket }) => dial_came(alloc, node, conn, ticket, up),
        Some(Purpose::Carries { .. }) => Ok(()),
    }
}

/// A dial came to its end on its connection.
#[tactic(auto, unfolding(crate::specs::Calls::called))]
pub fn dialled(alloc: Global, node: &mut Node, conn: u64, up: bool) -> Result<(), NoMemory>
    ensures { OnOk result (node.new ≡ call.called (call.Dialled conn up) node.old) }
{
    let purpose = purpose_at(&node.sides, conn);
    dialled_side(alloc, node, conn, purpose, up)
}

/// The agent is to ask for no further dials.
#[tactic(auto, unfolding(crate::specs::Calls::called))]
pub fn drain(alloc: Global, node: &mut Node) -> Result<(), NoMemory>
    ensures { OnOk result (node.new ≡ call.called call.Drains node.old) }
{
    event(alloc, node, AgentEvent::DrainNow)
}
