//! Dials and their destinations.
ghost use Rattle.std.specs.Prelude.{◌≡◌, OnOk};
ghost use Rattle.kn_world.specs.Numbers.{nth, change};
ghost use Rattle.kn_world.specs.Dials as spec;

use crate::numbered::Numbered;
use crate::parts::{Agent, Dial};
use kn_edge_core::DestState;
use kn_io::{Blob, NoMemory};
use kn_packet::Packet;

/// The agent handles the request of a dial.
pub fn note_request(dials: &mut Numbered<Dial>, dial: u64)
    ensures { dials.new ≡ change spec.requested dial dials.old }
{
    if let Some(dial) = dials.get_mut(dial) {
        dial.handled = true;
    }
}

/// The agent begins a dial.
pub fn note_ticket(dials: &mut Numbered<Dial>, dial: u64, ticket: u64)
    ensures { dials.new ≡ change (spec.with_ticket ticket) dial dials.old }
{
    if let Some(dial) = dials.get_mut(dial) {
        dial.ticket = ticket;
    }
}

/// A dial won its connection.
pub fn note_connect_id(dials: &mut Numbered<Dial>, dial: u64, connect_id: &i64)
    ensures { dials.new ≡ change (spec.with_connect_id connect_id.now) dial dials.old }
{
    if let Some(dial) = dials.get_mut(dial) {
        dial.connect_id = *connect_id;
    }
}

/// The agent writes bytes to a destination, which has still to take them.
pub fn write(dials: &mut Numbered<Dial>, dial: u64, bytes: Blob) -> Result<(), NoMemory>
    ensures { OnOk result (dials.new ≡ change (spec.written bytes) dial dials.old) }
{
    match dials.get_mut(dial) {
        Some(dial) => dial.side.coming.append(bytes.as_slice()),
        None => Ok(()),
    }
}

/// A destination takes so many bytes.
pub fn take(dials: &mut Numbered<Dial>, dial: u64, count: usize)
    ensures { dials.new ≡ change (spec.took count) dial dials.old }
{
    if let Some(dial) = dials.get_mut(dial) {
        dial.side.coming.pass(count);
    }
}

/// A destination sends bytes.
pub fn send(dials: &mut Numbered<Dial>, dial: u64, bytes: &[u8]) -> Result<(), NoMemory>
    ensures { OnOk result (dials.new ≡ change (spec.sent bytes.now) dial dials.old) }
{
    match dials.get_mut(dial) {
        Some(dial) => dial.side.sending.append(bytes),
        None => Ok(()),
    }
}

/// So many bytes of a destination go to its agent.
pub fn hand(dials: &mut Numbered<Dial>, dial: u64, count: usize)
    ensures { dials.new ≡ change (spec.handed count) dial dials.old }
{
    if let Some(dial) = dials.get_mut(dial) {
        dial.side.sending.pass(count);
    }
}

/// A destination ends its sending.
pub fn end(dials: &mut Numbered<Dial>, dial: u64)
    ensures { dials.new ≡ change spec.ended dial dials.old }
{
    if let Some(dial) = dials.get_mut(dial) {
        dial.side.ended = true;
    }
}

/// The agent is told that a destination ended its sending.
pub fn note_end_given(dials: &mut Numbered<Dial>, dial: u64)
    ensures { dials.new ≡ change spec.end_told dial dials.old }
{
    if let Some(dial) = dials.get_mut(dial) {
        dial.side.end_given = true;
    }
}

/// A destination takes nothing from now on, or takes freely again.
pub fn hold(dials: &mut Numbered<Dial>, dial: u64, held: bool)
    ensures { dials.new ≡ change (spec.holding held) dial dials.old }
{
    if let Some(dial) = dials.get_mut(dial) {
        dial.side.held = held;
    }
}

/// Where the connection of a dial stands at its agent.
pub fn state_of(agents: &Numbered<Agent>, dial: &Dial) -> Option<DestState>
    ensures { result ≡ spec.state_at dial.now.connect_id (nth dial.now.link agents.now) }
{
    match agents.get(dial.link) {
        Some(agent) => agent.core.state_of(dial.connect_id),
        None => None,
    }
}

/// How many bytes a dial's agent has written to its destination that this has not taken.
pub fn unwritten_of(agents: &Numbered<Agent>, dial: &Dial) -> usize
    ensures { result ≡ spec.unwritten_at dial.now.connect_id (nth dial.now.link agents.now) }
{
    match agents.get(dial.link) {
        Some(agent) => match agent.core.unwritten_of(dial.connect_id) {
            Some(count) => count,
            None => 0,
        },
        None => 0,
    }
}

/// Whether the agent makes the dial.
pub fn is_dialling(agents: &Numbered<Agent>, dial: &Dial) -> bool
    ensures { result ≡ spec.is_dialling_at dial.now.ticket (nth dial.now.link agents.now) }
{
    match agents.get(dial.link) {
        Some(agent) => agent.core.random_of(dial.ticket).is_some(),
        None => false,
    }
}
