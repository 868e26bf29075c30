//! Events of the core, and what it gives out.

ghost use Rattle.std.specs.Prelude.{◌≡◌, OnOk, IfOk};
ghost use Rattle.kn_edge_core.specs.Client as client;
ghost use Rattle.kn_client_node.specs.Nodes as spec;

use crate::apps::{end_app, to_app};
use crate::node::Node;
use crate::sending::to_server;
use kn_edge_core::{ClientEvent, ClientOut};
use kn_io::NoMemory;
use std::alloc::Global;

/// What one output comes to.
#[tactic(auto, unfolding(crate::specs::Nodes::output))]
fn give(alloc: Global, node: &mut Node, out: ClientOut) -> Result<(), NoMemory>
    ensures { OnOk result (node.new ≡ spec.output node.old out) }
{
    match out {
        ClientOut::ToServer(packet) => to_server(alloc, node, &packet),
        ClientOut::ToApp { app, bytes } => to_app(node, app, bytes.as_slice()),
        ClientOut::EndApp { app, error } => end_app(node, app, error),
    }
}

fn give_all(alloc: Global, node: &mut Node, outs: Vec<ClientOut>) -> Result<(), NoMemory>
    ensures { OnOk result (node.new ≡ spec.outputs node.old outs.items) }
{
    for out in outs {
        give(alloc, node, out)?;
    }
    Ok(())
}

/// The core hears of an event.
fn step_core(alloc: Global, node: &mut Node, event: ClientEvent) -> Result<Vec<ClientOut>, NoMemory>
    requires { client.Fits node.old.core event }
    ensures node { OnOk result (node.new ≡ record node.old { core = (client.step node.old.core event).state }) }
    ensures outs { IfOk result (λ outs. outs.items ≡ (client.step node.old.core event).outs) }
{
    let mut outs = Vec::new(alloc);
    node.core.step(alloc, event, &mut outs)?;
    Ok(outs)
}

/// One event of the core, and what it gives out.
#[tactic(auto, unfolding(crate::specs::Nodes::event))]
pub fn event(alloc: Global, node: &mut Node, event: ClientEvent) -> Result<(), NoMemory>
    requires { client.Fits node.old.core event }
    ensures { OnOk result (node.new ≡ spec.event event node.old) }
{
    let outs = step_core(alloc, node, event)?;
    give_all(alloc, node, outs)
}

/// The same of an event whose count of bytes may not fit to what is unwritten.
pub fn event_if_fits(alloc: Global, node: &mut Node, event: ClientEvent) -> Result<(), NoMemory>
    ensures { OnOk result (node.new ≡ spec.event event node.old) }
{
    if node.core.fits(&event) {
        self::event(alloc, node, event)
    } else {
        Err(NoMemory)
    }
}
