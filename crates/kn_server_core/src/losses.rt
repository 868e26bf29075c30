ghost use Rattle.std.specs.Prelude.{◌≡◌, ◌<◌, ◌^◌, ◌++◌, not, map, filter, OnOk};
ghost use Rattle.kn_tables.specs.Awaiting.{is_of_link, is_of_front};
ghost use Rattle.kn_tables.specs.Holding.{is_held_on, is_held_by, by_connect_id};
ghost use Rattle.kn_server_core.specs.Server as spec;
ghost use Rattle.kn_server_core.specs.Sound.{IsSound};

use crate::event::ServerOut;
use crate::outs::{ask_close, refuse_as, tell_ended};
use crate::state::State;
use kn_io::{NoMemory, Text};
use kn_tables::{HeldEntry, HeldState};
use std::alloc::Global;

/// The awaited dials of a link that is lost are told to their fronts, by rising number.
fn awaited_lost(
    alloc: Global,
    state: &mut State,
    link: u64,
    outs: &mut Vec<ServerOut>,
) -> Result<(), NoMemory>
    requires { IsSound state.old }
    ensures sound { IsSound state.new }
    ensures state { OnOk result (state.new ≡ record state.old { awaited = filter (λ e. not (is_of_link link e)) state.old.awaited }) }
    ensures outs { OnOk result (outs.new.items ≡ outs.old.items ++ spec.all_awaited_lost (filter (is_of_link link) state.old.awaited)) }
{
    while let Some(entry) = state.awaited.first_of_link(link) {
        state.awaited.remove(entry.dial);
        refuse_as(alloc, entry.front, entry.random, "agent lost", outs)?;
    }
    Ok(())
}

/// A tunnel of a link that is lost is told to its front, where it has one.
fn tell_lost(alloc: Global, entry: HeldEntry, outs: &mut Vec<ServerOut>) -> Result<(), NoMemory>
    requires { entry.dial < 2 ^ 63 }
    ensures { OnOk result (outs.new.items ≡ outs.old.items ++ spec.held_lost entry) }
{
    let error = Text::of(alloc, "agent lost")?;
    tell_ended(entry.front, entry.dial, error, outs)
}

/// The tunnels of a link that is lost are told to their fronts, by rising connectID.
fn held_lost(
    alloc: Global,
    state: &mut State,
    link: u64,
    outs: &mut Vec<ServerOut>,
) -> Result<(), NoMemory>
    requires { IsSound state.old }
    ensures sound { IsSound state.new }
    ensures state { OnOk result (state.new ≡ record state.old { held = filter (λ e. not (is_held_on link e)) state.old.held }) }
    ensures outs { OnOk result (outs.new.items ≡ outs.old.items ++ spec.all_held_lost (by_connect_id (filter (is_held_on link) state.old.held))) }
{
    while let Some(entry) = state.held.first_of_link(link) {
        state.held.remove(link, entry.connect_id);
        tell_lost(alloc, entry, outs)?;
    }
    Ok(())
}

/// A link is lost.
pub(crate) fn link_lost(
    alloc: Global,
    state: &mut State,
    link: u64,
    outs: &mut Vec<ServerOut>,
) -> Result<(), NoMemory>
    requires { IsSound state.old }
    ensures sound { IsSound state.new }
    ensures state { OnOk result (state.new ≡ (spec.link_lost state.old link).state) }
    ensures outs { OnOk result (outs.new.items ≡ outs.old.items ++ (spec.link_lost state.old link).outs) }
{
    awaited_lost(alloc, state, link, outs)?;
    held_lost(alloc, state, link, outs)?;
    state.links.down(link);
    Ok(())
}

/// A second reply with a connectID that is held: the agent breaks the rules, and its link is cut.
pub(crate) fn second_reply_cuts(
    alloc: Global,
    state: &mut State,
    link: u64,
    outs: &mut Vec<ServerOut>,
) -> Result<(), NoMemory>
    requires { IsSound state.old }
    ensures sound { IsSound state.new }
    ensures state { OnOk result (state.new ≡ (spec.second_reply_cuts state.old link).state) }
    ensures outs { OnOk result (outs.new.items ≡ outs.old.items ++ (spec.second_reply_cuts state.old link).outs) }
{
    outs.push(ServerOut::CutLink { link })?;
    link_lost(alloc, state, link, outs)
}

/// The awaited dials of a front that is lost are forgotten.
fn dials_forgotten(state: &mut State, front: u64)
    requires { IsSound state.old }
    ensures sound { IsSound state.new }
    ensures state { state.new ≡ record state.old { awaited = filter (λ e. not (is_of_front front e)) state.old.awaited } }
{
    while let Some(entry) = state.awaited.first_of_front(front) {
        state.awaited.remove(entry.dial);
    }
}

/// An agent is asked to close a tunnel of a lost front, unless it was asked before.
fn ask_at_loss(entry: HeldEntry, outs: &mut Vec<ServerOut>) -> Result<(), NoMemory>
    ensures { OnOk result (outs.new.items ≡ outs.old.items ++ spec.asked_at_loss entry.state entry) }
{
    match entry.state {
        HeldState::Open => ask_close(entry.link, entry.connect_id, outs),
        HeldState::Closing => Ok(()),
    }
}

/// The tunnels of a front that is lost are closed, by rising dial number.
fn tunnels_left(state: &mut State, front: u64, outs: &mut Vec<ServerOut>) -> Result<(), NoMemory>
    requires { IsSound state.old }
    ensures sound { IsSound state.new }
    ensures state { OnOk result (state.new ≡ record state.old { held = map (spec.front_left front) state.old.held }) }
    ensures outs { OnOk result (outs.new.items ≡ outs.old.items ++ spec.all_asked (filter (is_held_by front) state.old.held)) }
{
    while let Some(entry) = state.held.first_of_front(front) {
        state.held.close(entry.link, entry.connect_id, false);
        ask_at_loss(entry, outs)?;
    }
    Ok(())
}

/// A front is lost.
pub(crate) fn front_lost(
    state: &mut State,
    front: u64,
    outs: &mut Vec<ServerOut>,
) -> Result<(), NoMemory>
    requires { IsSound state.old }
    ensures sound { IsSound state.new }
    ensures state { OnOk result (state.new ≡ (spec.front_lost state.old front).state) }
    ensures outs { OnOk result (outs.new.items ≡ outs.old.items ++ (spec.front_lost state.old front).outs) }
{
    dials_forgotten(state, front);
    tunnels_left(state, front, outs)?;
    state.fronts.down(front);
    Ok(())
}
