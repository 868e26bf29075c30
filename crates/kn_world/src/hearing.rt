//! The first bytes of an app by CONNECT, until its head is whole or refused.
ghost use Rattle.std.specs.Prelude.{◌≡◌, ◌++◌, IfOk, OnOk};
ghost use Rattle.kn_connect.specs.Answers.{Answers, IsGiven};
ghost use Rattle.kn_world.specs.Numbers.{nth};
ghost use Rattle.kn_world.specs.Hearing as spec;

use crate::apps;
use crate::handing::settle;
use crate::numbered::Numbered;
use crate::parts::{App, Owner};
use crate::pieces::{head_of, rest_of};
use crate::server_steps::step;
use crate::state::State;
use kn_connect::{ConnectAnswer, ConnectError, fault_status};
use kn_io::{Blob, NoMemory, Text};
use kn_packet::Packet;
use kn_server_core::ServerEvent;
use std::alloc::Global;

fn request(alloc: Global, target: Text) -> Result<Packet, NoMemory>
    ensures { IfOk result (λ packet. packet ≡ spec.request target) }
{
    let protocol = Text::of(alloc, "tcp")?;
    Ok(Packet::DialReq {
        protocol,
        address: target,
        random: 0,
    })
}

// A front comes up for an app, which asks for a dial.
fn front_up(
    alloc: Global,
    state: &mut State,
    app: u64,
    front: u64,
    target: Text,
) -> Result<(), NoMemory>
    ensures { OnOk result (state.new ≡ spec.front_up front target app state.old) }
{
    if state.server.top_front() < front {
        step(alloc, state, 0, ServerEvent::FrontUp { front })?;
        let packet = request(alloc, target)?;
        step(
            alloc,
            state,
            app,
            ServerEvent::FrontPacket { front, packet },
        )
    } else {
        Err(NoMemory)
    }
}

fn head_came(
    alloc: Global,
    state: &mut State,
    app: u64,
    target: Text,
    early: Blob,
    rest: &[u8],
) -> Result<(), NoMemory>
    ensures { OnOk result (state.new ≡ spec.head_came target early rest.now app state.old) }
{
    state.fronts.push(Owner::App { app })?;
    let front = state.fronts.len() as u64;
    apps::read_head(&mut state.apps, app, front, early.as_slice(), rest)?;
    front_up(alloc, state, app, front, target)?;
    apps::keep_early(alloc, &mut state.apps, app, early)?;
    settle(alloc, state, app)
}

// What is done with the answer to an app's bytes.
fn answer(
    alloc: Global,
    state: &mut State,
    app: u64,
    answer: ConnectAnswer,
    rest: &[u8],
) -> Result<(), NoMemory>
    ensures { OnOk result (state.new ≡ spec.answered answer rest.now app state.old) }
{
    match answer {
        ConnectAnswer::More => settle(alloc, state, app),
        ConnectAnswer::Head { target, early } => {
            head_came(alloc, state, app, target, early, rest)
        }
    }
}

fn respond(
    alloc: Global,
    state: &mut State,
    app: u64,
    given: Result<ConnectAnswer, ConnectError>,
    rest: &[u8],
) -> Result<(), NoMemory>
    ensures given { OnOk result (IsGiven given) }
    ensures state { OnOk result (state.new ≡ spec.responds given rest.now app state.old) }
{
    match given {
        Ok(found) => answer(alloc, state, app, found, rest),
        Err(ConnectError::Fault(fault)) => {
            apps::refuse(alloc, &mut state.apps, app, fault_status(fault))
        }
        Err(ConnectError::NoMemory) => Err(NoMemory),
    }
}

// The front of an app reads a piece.
fn feed(
    alloc: Global,
    apps: &mut Numbered<App>,
    app: u64,
    piece: &[u8],
) -> Result<ConnectAnswer, ConnectError>
    ensures { spec.Feeds (nth app apps.old) piece.now app result apps.old apps.new }
{
    match apps.get_mut(app) {
        Some(app) => app.door.front.feed(alloc, piece),
        None => Ok(ConnectAnswer::More),
    }
}

/// An app by CONNECT writes bytes before its head is whole.
pub fn hear(alloc: Global, state: &mut State, app: u64, bytes: &[u8]) -> Result<(), NoMemory>
    ensures { OnOk result (spec.Hears bytes.now app state.old state.new) }
{
    let piece = head_of(bytes);
    let rest = rest_of(bytes);
    let given = feed(alloc, &mut state.apps, app, piece);
    respond(alloc, state, app, given, rest)
}
