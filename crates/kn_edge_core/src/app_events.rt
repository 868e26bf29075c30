ghost use Rattle.std.specs.Prelude.{◌≡◌, ◌++◌, ◌<◌, ◌≤◌, [], Some, OnOk};
ghost use Rattle.std.specs.Option.{IsSomeAnd};
ghost use Rattle.kn_tables.specs.Lists.{first_where};
ghost use Rattle.kn_edge_core.specs.declared.app.App.{App};
ghost use Rattle.kn_edge_core.specs.ClientTables.{is_app};
ghost use Rattle.kn_edge_core.specs.Client as spec;
ghost use Rattle.kn_edge_core.specs.Sound.{IsClientSound};

use crate::app::AppState;
use crate::client_changes::{add_app, close_app, remove_app, take_unwritten};
use crate::client_event::ClientOut;
use crate::client_outs::{
    ask_close, ask_dial, cancel_telling, close_telling, send_bytes, tell_end,
};
use crate::client_state::ClientState;
use kn_io::{Blob, NoMemory, Text};
use std::alloc::Global;

/// An app comes up.
pub(crate) fn app_up(
    alloc: Global,
    state: &mut ClientState,
    number: u64,
    address: Text,
    outs: &mut Vec<ClientOut>,
) -> Result<(), NoMemory>
    requires sound { IsClientSound state.old }
    requires next { state.old.top_app < number }
    requires low { number < 9223372036854775807 }
    ensures sound { IsClientSound state.new }
    ensures state { OnOk result (state.new ≡ (spec.app_up state.old number address).state) }
    ensures outs { OnOk result (outs.new.items ≡ outs.old.items ++ (spec.app_up state.old number address).outs) }
{
    add_app(alloc, state, number)?;
    ask_dial(alloc, number, address, outs)
}

/// An app sent bytes.
pub(crate) fn app_bytes(
    alloc: Global,
    state: &ClientState,
    app: u64,
    bytes: Blob,
    outs: &mut Vec<ClientOut>,
) -> Result<(), NoMemory>
    ensures { OnOk result (outs.new.items ≡ outs.old.items ++ (spec.app_bytes state.now bytes (first_where (is_app app) state.now.apps)).outs) }
{
    match state.apps.find(app) {
        Some(found) => match found.state {
            AppState::Open => send_bytes(alloc, &found.connect_id, bytes, outs),
            AppState::Dialling => Ok(()),
            AppState::Closing => Ok(()),
            AppState::Lingering => Ok(()),
        },
        None => Ok(()),
    }
}

/// An app leaves, and is told an error or the empty text.
pub(crate) fn app_left(
    state: &mut ClientState,
    number: u64,
    error: Text,
    outs: &mut Vec<ClientOut>,
) -> Result<(), NoMemory>
    requires { IsClientSound state.old }
    ensures sound { IsClientSound state.new }
    ensures state { OnOk result (state.new ≡ (spec.app_left state.old number error).state) }
    ensures outs { OnOk result (outs.new.items ≡ outs.old.items ++ (spec.app_left state.old number error).outs) }
{
    remove_app(state, number);
    tell_end(number, error, outs)
}

// An app takes its dial back.
fn dial_cancelled(
    alloc: Global,
    state: &mut ClientState,
    app: u64,
    outs: &mut Vec<ClientOut>,
) -> Result<(), NoMemory>
    requires sound { IsClientSound state.old }
    requires low { app < 9223372036854775807 }
    ensures sound { IsClientSound state.new }
    ensures state { OnOk result (state.new ≡ (spec.dial_cancelled state.old app).state) }
    ensures outs { OnOk result (outs.new.items ≡ outs.old.items ++ (spec.dial_cancelled state.old app).outs) }
{
    remove_app(state, app);
    cancel_telling(alloc, app, outs)
}

// An open app sends no more.
fn open_ended(
    state: &mut ClientState,
    number: u64,
    connect_id: &i64,
    outs: &mut Vec<ClientOut>,
) -> Result<(), NoMemory>
    requires sound { IsClientSound state.old }
    requires is_open { IsSomeAnd (first_where (is_app number) state.old.apps) (λ a. (a.state ≡ AppState.Open) × (a.connect_id ≡ connect_id.now)) }
    ensures sound { IsClientSound state.new }
    ensures state { OnOk result (state.new ≡ (spec.end_by_state state.old number connect_id.now AppState.Open).state) }
    ensures outs { OnOk result (outs.new.items ≡ outs.old.items ++ (spec.end_by_state state.old number connect_id.now AppState.Open).outs) }
{
    close_app(state, number, connect_id);
    ask_close(connect_id, outs)
}

// An app sends no more.
fn end_by_state(
    alloc: Global,
    state: &mut ClientState,
    number: u64,
    connect_id: &i64,
    at: AppState,
    outs: &mut Vec<ClientOut>,
) -> Result<(), NoMemory>
    requires sound { IsClientSound state.old }
    requires low { number < 9223372036854775807 }
    requires there { IsSomeAnd (first_where (is_app number) state.old.apps) (λ a. (a.state ≡ at) × (a.connect_id ≡ connect_id.now)) }
    ensures sound { IsClientSound state.new }
    ensures state { OnOk result (state.new ≡ (spec.end_by_state state.old number connect_id.now at).state) }
    ensures outs { OnOk result (outs.new.items ≡ outs.old.items ++ (spec.end_by_state state.old number connect_id.now at).outs) }
{
    match at {
        AppState::Dialling => dial_cancelled(alloc, state, number, outs),
        AppState::Open => open_ended(state, number, connect_id, outs),
        AppState::Closing => Ok(()),
        AppState::Lingering => Ok(()),
    }
}

/// An app sends no more.
pub(crate) fn app_ended(
    alloc: Global,
    state: &mut ClientState,
    app: u64,
    outs: &mut Vec<ClientOut>,
) -> Result<(), NoMemory>
    requires { IsClientSound state.old }
    ensures sound { IsClientSound state.new }
    ensures state { OnOk result (state.new ≡ (spec.app_ended state.old (first_where (is_app app) state.old.apps)).state) }
    ensures outs { OnOk result (outs.new.items ≡ outs.old.items ++ (spec.app_ended state.old (first_where (is_app app) state.old.apps)).outs) }
{
    match state.apps.find(app) {
        Some(found) => {
            let number = found.number;
            let connect_id = found.connect_id;
            let at = found.state;
            end_by_state(alloc, state, number, &connect_id, at, outs)
        }
        None => Ok(()),
    }
}

// An open app's connection failed.
fn open_failed(
    alloc: Global,
    state: &mut ClientState,
    number: u64,
    connect_id: &i64,
    outs: &mut Vec<ClientOut>,
) -> Result<(), NoMemory>
    requires { IsClientSound state.old }
    ensures sound { IsClientSound state.new }
    ensures state { OnOk result (state.new ≡ (spec.failure_by_state state.old number connect_id.now AppState.Open).state) }
    ensures outs { OnOk result (outs.new.items ≡ outs.old.items ++ (spec.failure_by_state state.old number connect_id.now AppState.Open).outs) }
{
    remove_app(state, number);
    close_telling(alloc, number, connect_id, outs)
}

// The connection of an app failed.
fn failure_by_state(
    alloc: Global,
    state: &mut ClientState,
    number: u64,
    connect_id: &i64,
    at: AppState,
    outs: &mut Vec<ClientOut>,
) -> Result<(), NoMemory>
    requires sound { IsClientSound state.old }
    requires low { number < 9223372036854775807 }
    ensures sound { IsClientSound state.new }
    ensures state { OnOk result (state.new ≡ (spec.failure_by_state state.old number connect_id.now at).state) }
    ensures outs { OnOk result (outs.new.items ≡ outs.old.items ++ (spec.failure_by_state state.old number connect_id.now at).outs) }
{
    match at {
        AppState::Dialling => dial_cancelled(alloc, state, number, outs),
        AppState::Open => open_failed(alloc, state, number, connect_id, outs),
        AppState::Closing => app_left(state, number, Text::new(alloc), outs),
        AppState::Lingering => app_left(state, number, Text::new(alloc), outs),
    }
}

/// The connection of an app failed.
pub(crate) fn app_failed(
    alloc: Global,
    state: &mut ClientState,
    app: u64,
    outs: &mut Vec<ClientOut>,
) -> Result<(), NoMemory>
    requires { IsClientSound state.old }
    ensures sound { IsClientSound state.new }
    ensures state { OnOk result (state.new ≡ (spec.app_failed state.old (first_where (is_app app) state.old.apps)).state) }
    ensures outs { OnOk result (outs.new.items ≡ outs.old.items ++ (spec.app_failed state.old (first_where (is_app app) state.old.apps)).outs) }
{
    match state.apps.find(app) {
        Some(found) => {
            let number = found.number;
            let connect_id = found.connect_id;
            let at = found.state;
            failure_by_state(alloc, state, number, &connect_id, at, outs)
        }
        None => Ok(()),
    }
}

// An app that lingers took the last of its bytes.
fn last_written(
    state: &mut ClientState,
    number: u64,
    outs: &mut Vec<ClientOut>,
) -> Result<(), NoMemory>
    requires { IsClientSound state.old }
    ensures sound { IsClientSound state.new }
    ensures state { (a : App) → first_where (is_app number) state.old.apps ≡ Some a → OnOk result (state.new ≡ (spec.app_left state.old number a.error).state) }
    ensures outs { (a : App) → first_where (is_app number) state.old.apps ≡ Some a → OnOk result (outs.new.items ≡ outs.old.items ++ (spec.app_left state.old number a.error).outs) }
{
    match remove_app(state, number) {
        Some(app) => tell_end(number, app.error, outs),
        None => Ok(()),
    }
}

// An app that lingers took bytes: it leaves with the last of them.
fn linger_wrote(
    state: &mut ClientState,
    number: u64,
    unwritten: usize,
    count: usize,
    outs: &mut Vec<ClientOut>,
) -> Result<(), NoMemory>
    requires sound { IsClientSound state.old }
    requires there { IsSomeAnd (first_where (is_app number) state.old.apps) (λ a. count ≤ a.unwritten) }
    ensures sound { IsClientSound state.new }
    ensures state { (a : App) → first_where (is_app number) state.old.apps ≡ Some a → a.number ≡ number → a.unwritten ≡ unwritten → OnOk result (state.new ≡ (spec.linger_wrote state.old count a).state) }
    ensures outs { (a : App) → first_where (is_app number) state.old.apps ≡ Some a → a.number ≡ number → a.unwritten ≡ unwritten → OnOk result (outs.new.items ≡ outs.old.items ++ (spec.linger_wrote state.old count a).outs) }
{
    if unwritten == count {
        last_written(state, number, outs)
    } else {
        take_unwritten(state, number, count);
        Ok(())
    }
}

/// An app took bytes.
pub(crate) fn app_wrote(
    state: &mut ClientState,
    app: u64,
    count: usize,
    outs: &mut Vec<ClientOut>,
) -> Result<(), NoMemory>
    requires sound { IsClientSound state.old }
    requires there { spec.WereUnwritten count (first_where (is_app app) state.old.apps) }
    ensures sound { IsClientSound state.new }
    ensures state { OnOk result (state.new ≡ (spec.app_wrote state.old count (first_where (is_app app) state.old.apps)).state) }
    ensures outs { OnOk result (outs.new.items ≡ outs.old.items ++ (spec.app_wrote state.old count (first_where (is_app app) state.old.apps)).outs) }
{
    match state.apps.find(app) {
        Some(found) => {
            let number = found.number;
            let unwritten = found.unwritten;
            match found.state {
                AppState::Lingering => linger_wrote(state, number, unwritten, count, outs),
                AppState::Dialling => {
                    take_unwritten(state, number, count);
                    Ok(())
                }
                AppState::Open => {
                    take_unwritten(state, number, count);
                    Ok(())
                }
                AppState::Closing => {
                    take_unwritten(state, number, count);
                    Ok(())
                }
            }
        }
        None => Ok(()),
    }
}
