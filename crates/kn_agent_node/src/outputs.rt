//! Events of the core, and what it gives out.

ghost use Rattle.std.specs.Prelude.{◌≡◌, OnOk, IfOk};
ghost use Rattle.kn_edge_core.specs.Agent as agent;
ghost use Rattle.kn_agent_node.specs.Nodes as spec;

use crate::destinations::{close_destination, to_destination};
use crate::dials::{ask_dial, drop_dial};
use crate::node::Node;
use crate::sending::to_server;
use kn_edge_core::{AgentCore, AgentEvent, AgentOut};
use kn_io::NoMemory;
use std::alloc::Global;

/// What one output comes to.
#[tactic(auto, unfolding(crate::specs::Nodes::output))]
fn give(alloc: Global, node: &mut Node, out: AgentOut) -> Result<(), NoMemory>
    ensures { OnOk result (node.new ≡ spec.output node.old out) }
{
    match out {
        AgentOut::ToServer(packet) => to_server(alloc, node, &packet),
        AgentOut::Dial { ticket, address } => ask_dial(node, ticket, address),
        AgentOut::Write { connect_id, bytes } => {
            to_destination(node, &connect_id, bytes.as_slice())
        }
        AgentOut::CloseDest { connect_id } => close_destination(node, &connect_id),
        AgentOut::DropDial { ticket } => drop_dial(node, ticket),
    }
}

fn give_all(alloc: Global, node: &mut Node, outs: Vec<AgentOut>) -> Result<(), NoMemory>
    ensures { OnOk result (node.new ≡ spec.outputs node.old outs.items) }
{
    for out in outs {
        give(alloc, node, out)?;
    }
    Ok(())
}

fn tunnels(core: &AgentCore) -> u64
    ensures { result ≡ spec.tunnels core.now }
{
    (core.dials() as u64).saturating_add(core.connections() as u64)
}

/// The core hears of an event.
fn step_core(alloc: Global, node: &mut Node, event: AgentEvent) -> Result<Vec<AgentOut>, NoMemory>
    requires { agent.Fits node.old.core event }
    ensures node { OnOk result (node.new ≡ spec.after_core (agent.step node.old.core event).state node.old) }
    ensures outs { IfOk result (λ outs. outs.items ≡ (agent.step node.old.core event).outs) }
{
    let before = tunnels(&node.core);
    let mut outs = Vec::new(alloc);
    node.core.step(alloc, event, &mut outs)?;
    let ended = before.saturating_sub(tunnels(&node.core));
    node.gone = node.gone.saturating_add(ended);
    Ok(outs)
}

/// One event of the core, and what it gives out.
#[tactic(auto, unfolding(crate::specs::Nodes::event))]
pub fn event(alloc: Global, node: &mut Node, event: AgentEvent) -> Result<(), NoMemory>
    requires { agent.Fits node.old.core event }
    ensures { OnOk result (node.new ≡ spec.event event node.old) }
{
    let outs = step_core(alloc, node, event)?;
    give_all(alloc, node, outs)
}

/// The same of an event whose count of bytes may not fit to what is unwritten.
pub fn event_if_fits(alloc: Global, node: &mut Node, event: AgentEvent) -> Result<(), NoMemory>
    ensures { OnOk result (node.new ≡ spec.event event node.old) }
{
    if node.core.fits(&event) {
        self::event(alloc, node, event)
    } else {
        Err(NoMemory)
    }
}
