//! Agents and their links: what enters a link's lists and leaves them, and what an agent's core does.
ghost use Rattle.std.specs.Prelude.{◌≡◌, ◌++◌, length, IfOk, OnOk};
ghost use Rattle.kn_edge_core.specs.Agent as edge;
ghost use Rattle.kn_world.specs.Numbers.{nth, change};
ghost use Rattle.kn_world.specs.Agents as spec;

use crate::numbered::Numbered;
use crate::numbers::number_of;
use crate::packets::Packets;
use crate::parts::Agent;
use kn_edge_core::{AgentEvent, AgentOut};
use kn_io::NoMemory;
use kn_packet::Packet;
use std::alloc::Global;

fn push_up(agent: &mut Agent, packet: Packet) -> Result<(), NoMemory>
    ensures { OnOk result (agent.new ≡ spec.with_up agent.old.at_server packet agent.old) }
{
    if agent.at_server {
        agent.up.push(packet)
    } else {
        Ok(())
    }
}

fn push_down(agent: &mut Agent, packet: Packet) -> Result<(), NoMemory>
    ensures { OnOk result (agent.new ≡ spec.with_down agent.old.at_agent packet agent.old) }
{
    if agent.at_agent {
        agent.down.push(packet)
    } else {
        Ok(())
    }
}

/// A packet goes to the server, which may have lost the link.
pub fn queue_up(agents: &mut Numbered<Agent>, link: u64, packet: Packet) -> Result<(), NoMemory>
    ensures { OnOk result (agents.new ≡ change (spec.queued_up packet) link agents.old) }
{
    match agents.get_mut(link) {
        Some(agent) => push_up(agent, packet),
        None => Ok(()),
    }
}

/// A packet goes to an agent, which may have lost the link.
pub fn queue_down(agents: &mut Numbered<Agent>, link: u64, packet: Packet) -> Result<(), NoMemory>
    ensures { OnOk result (agents.new ≡ change (spec.queued_down packet) link agents.old) }
{
    match agents.get_mut(link) {
        Some(agent) => push_down(agent, packet),
        None => Ok(()),
    }
}

/// The first packet on its way to the server is taken off.
pub fn pop_up(agents: &mut Numbered<Agent>, link: u64) -> Option<Packet>
    ensures first { result ≡ spec.first_up (nth link agents.old) }
    ensures rest { agents.new ≡ change spec.rest_up link agents.old }
{
    match agents.get_mut(link) {
        Some(agent) => agent.up.pop(),
        None => None,
    }
}

/// The first packet on its way to the agent is taken off.
pub fn pop_down(agents: &mut Numbered<Agent>, link: u64) -> Option<Packet>
    ensures first { result ≡ spec.first_down (nth link agents.old) }
    ensures rest { agents.new ≡ change spec.rest_down link agents.old }
{
    match agents.get_mut(link) {
        Some(agent) => agent.down.pop(),
        None => None,
    }
}

/// How many packets are on their way to the server.
pub fn up_count(agents: &Numbered<Agent>, link: u64) -> usize
    ensures { result ≡ spec.up_count (nth link agents.now) }
{
    match agents.get(link) {
        Some(agent) => agent.up.len(),
        None => 0,
    }
}

/// How many packets are on their way to the agent.
pub fn down_count(agents: &Numbered<Agent>, link: u64) -> usize
    ensures { result ≡ spec.down_count (nth link agents.now) }
{
    match agents.get(link) {
        Some(agent) => agent.down.len(),
        None => 0,
    }
}

/// The server loses the link: what is on its way to it is dropped.
pub fn lose_at_server(alloc: Global, agents: &mut Numbered<Agent>, link: u64)
    ensures { agents.new ≡ change spec.lost_at_server link agents.old }
{
    if let Some(agent) = agents.get_mut(link) {
        agent.at_server = false;
        agent.up = Packets::new(alloc);
    }
}

/// The server ends the link.
pub fn cut(alloc: Global, agents: &mut Numbered<Agent>, link: u64)
    ensures { agents.new ≡ change spec.cut_off link agents.old }
{
    if let Some(agent) = agents.get_mut(link) {
        agent.at_server = false;
        agent.cut = true;
        agent.up = Packets::new(alloc);
    }
}

/// The agent loses the link: what is on its way to it is dropped.
pub fn lose_at_agent(alloc: Global, agents: &mut Numbered<Agent>, link: u64)
    ensures { agents.new ≡ change spec.lost_at_agent link agents.old }
{
    if let Some(agent) = agents.get_mut(link) {
        agent.at_agent = false;
        agent.down = Packets::new(alloc);
    }
}

/// The agent asks for no further dials.
pub fn note_drain(agents: &mut Numbered<Agent>, link: u64)
    ensures { agents.new ≡ change spec.with_drain link agents.old }
{
    if let Some(agent) = agents.get_mut(link) {
        agent.drained = true;
    }
}

/// A connection of the agent is that of a dial.
pub fn note_connection(agents: &mut Numbered<Agent>, link: u64, dial: u64) -> Result<(), NoMemory>
    ensures { OnOk result (agents.new ≡ change (spec.with_connection dial) link agents.old) }
{
    match agents.get_mut(link) {
        Some(agent) => agent.connections.push(dial),
        None => Ok(()),
    }
}

/// The dial of a connection of the agent, 0 where there is none.
pub fn dial_at(agents: &Numbered<Agent>, link: u64, connect_id: &i64) -> u64
    ensures { result ≡ spec.dial_at connect_id.now (nth link agents.now) }
{
    match agents.get(link) {
        Some(agent) => match agent.connections.get(number_of(connect_id)) {
            Some(dial) => *dial,
            None => 0,
        },
        None => 0,
    }
}

fn step_one(
    alloc: Global,
    agent: &mut Agent,
    event: AgentEvent,
    outs: &mut Vec<AgentOut>,
) -> Result<(), NoMemory>
    ensures agent { OnOk result (agent.new ≡ spec.stepped event agent.old) }
    ensures outs { OnOk result (outs.new.items ≡ outs.old.items ++ (edge.step agent.old.core event).outs) }
{
    if agent.core.fits(&event) {
        agent.core.step(alloc, event, outs)
    } else {
        Err(NoMemory)
    }
}

/// The core of an agent takes an event, and its outputs are told.
pub fn step_core(
    alloc: Global,
    agents: &mut Numbered<Agent>,
    link: u64,
    event: AgentEvent,
) -> Result<Vec<AgentOut>, NoMemory>
    ensures agents { OnOk result (agents.new ≡ change (spec.stepped event) link agents.old) }
    ensures outs { IfOk result (λ outs. outs.items ≡ spec.told event (nth link agents.old)) }
{
    let mut outs = Vec::new(alloc);
    match agents.get_mut(link) {
        Some(agent) => {
            step_one(alloc, agent, event, &mut outs)?;
            Ok(outs)
        }
        None => Ok(outs),
    }
}
