//! What a client does with an event, and where its outputs go.
ghost use Rattle.std.specs.Prelude.{◌≡◌, OnOk};
ghost use Rattle.kn_world.specs.ClientSteps as spec;

use crate::state::State;
use crate::{apps, clients};
use kn_edge_core::{ClientEvent, ClientOut};
use kn_io::{Blob, NoMemory, Text};
use std::alloc::Global;

fn writes(state: &mut State, client: u64, number: u64, bytes: Blob) -> Result<(), NoMemory>
    ensures { OnOk result (state.new ≡ spec.writes number bytes client state.old) }
{
    let app = clients::app_at(&state.clients, client, number);
    apps::write(&mut state.apps, app, bytes)
}

fn ends(state: &mut State, client: u64, number: u64, error: Text)
    ensures { state.new ≡ spec.ends number error client state.old }
{
    let app = clients::app_at(&state.clients, client, number);
    apps::end(&mut state.apps, app, error);
}

// An output of a client.
fn gives(state: &mut State, client: u64, out: ClientOut) -> Result<(), NoMemory>
    ensures { OnOk result (state.new ≡ spec.gives out client state.old) }
{
    match out {
        ClientOut::ToServer(packet) => clients::queue_up(&mut state.clients, client, packet),
        ClientOut::ToApp { app, bytes } => writes(state, client, app, bytes),
        ClientOut::EndApp { app, error } => {
            ends(state, client, app, error);
            Ok(())
        }
    }
}

fn gives_all(state: &mut State, client: u64, outs: Vec<ClientOut>) -> Result<(), NoMemory>
    ensures { OnOk result (state.new ≡ spec.gives_all outs.items client state.old) }
{
    for out in outs {
        gives(state, client, out)?;
    }
    Ok(())
}

/// A client takes an event.
pub fn step(
    alloc: Global,
    state: &mut State,
    client: u64,
    event: ClientEvent,
) -> Result<(), NoMemory>
    ensures { OnOk result (state.new ≡ spec.step client event state.old) }
{
    let outs = clients::step_core(alloc, &mut state.clients, client, event)?;
    gives_all(state, client, outs)
}
