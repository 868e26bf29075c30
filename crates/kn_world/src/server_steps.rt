//! What the server does with an event, and where its outputs go.
ghost use Rattle.std.specs.Prelude.{◌≡◌, IfOk, OnOk};
ghost use Rattle.kn_server_core.specs.Server as core;
ghost use Rattle.kn_server_core.specs.Sound.{IsNext};
ghost use Rattle.kn_world.specs.ServerSteps as spec;

use crate::numbered::Numbered;
use crate::parts::{AppChoice, Dial, Owner};
use crate::state::State;
use crate::{agents, apps, clients};
use kn_io::NoMemory;
use kn_packet::Packet;
use kn_server_core::{Choice, ServerCore, ServerEvent, ServerOut};
use std::alloc::Global;

// A packet goes to a front: that of a client, or of an app, which has it at once.
fn to_front(alloc: Global, state: &mut State, front: u64, packet: Packet) -> Result<(), NoMemory>
    ensures { OnOk result (state.new ≡ spec.to_front packet front state.old) }
{
    match state.fronts.get(front) {
        Some(Owner::Client { client }) => {
            let client = *client;
            clients::queue_down(&mut state.clients, client, packet)
        }
        Some(Owner::App { app }) => {
            let app = *app;
            apps::hear(alloc, &mut state.apps, app, &packet)
        }
        None => Ok(()),
    }
}

// The dial that an app asked for drew its number.
fn make_dial(
    alloc: Global,
    state: &mut State,
    dial: u64,
    link: u64,
    app: u64,
) -> Result<(), NoMemory>
    ensures { OnOk result (state.new ≡ spec.made dial link app state.old) }
{
    state.dials.push(Dial::new(alloc, link, app))?;
    apps::note_dial(&mut state.apps, app, dial);
    Ok(())
}

// An output of the server. A dial that it made is that of this app.
fn gives(alloc: Global, state: &mut State, app: u64, out: ServerOut) -> Result<(), NoMemory>
    ensures { OnOk result (state.new ≡ spec.gives out app state.old) }
{
    match out {
        ServerOut::ToLink { link, packet } => agents::queue_down(&mut state.agents, link, packet),
        ServerOut::ToFront { front, packet } => to_front(alloc, state, front, packet),
        ServerOut::CutLink { link } => {
            agents::cut(alloc, &mut state.agents, link);
            Ok(())
        }
        ServerOut::Made {
            dial,
            link,
            front: _,
        } => make_dial(alloc, state, dial, link, app),
    }
}

fn gives_all(
    alloc: Global,
    state: &mut State,
    app: u64,
    outs: Vec<ServerOut>,
) -> Result<(), NoMemory>
    ensures { OnOk result (state.new ≡ spec.gives_all outs.items app state.old) }
{
    for out in outs {
        gives(alloc, state, app, out)?;
    }
    Ok(())
}

fn step_core(
    alloc: Global,
    server: &mut ServerCore,
    event: ServerEvent,
) -> Result<Vec<ServerOut>, NoMemory>
    requires { IsNext server.old event }
    ensures server { OnOk result (server.new ≡ (core.step server.old event).state) }
    ensures outs { IfOk result (λ outs. outs.items ≡ (core.step server.old event).outs) }
{
    let mut outs = Vec::new(alloc);
    server.step(alloc, event, &mut outs)?;
    Ok(outs)
}

// A choice that the server came to is noted, with the app that asked for the dial.
fn note_choice(
    choices: &mut Numbered<AppChoice>,
    choice: Option<Choice>,
    app: u64,
) -> Result<(), NoMemory>
    ensures { OnOk result (choices.new ≡ spec.choices_with choice app choices.old) }
{
    match choice {
        Some(choice) => choices.push(AppChoice { app, choice }),
        None => Ok(()),
    }
}

/// The server takes an event. A dial that it makes, and a choice that it comes to, is that of this app.
pub fn step(alloc: Global, state: &mut State, app: u64, event: ServerEvent) -> Result<(), NoMemory>
    requires { IsNext state.old.server event }
    ensures { OnOk result (state.new ≡ spec.step app event state.old) }
{
    let choice = state.server.choice(alloc, &event)?;
    let outs = step_core(alloc, &mut state.server, event)?;
    note_choice(&mut state.choices, choice, app)?;
    gives_all(alloc, state, app, outs)
}
