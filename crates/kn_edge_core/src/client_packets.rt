ghost use Rattle.std.specs.Prelude.{◌≡◌, ◌+◌, ◌++◌, ◌<◌, ◌^◌, length, OnOk};
ghost use Rattle.std.specs.Option.{IsSomeAnd};
ghost use Rattle.kn_tables.specs.Lists.{first_where};
ghost use Rattle.kn_edge_core.specs.ClientTables.{is_app, app_at, is_open_at, is_held_at};
ghost use Rattle.kn_edge_core.specs.Client as spec;
ghost use Rattle.kn_edge_core.specs.Sound.{IsClientSound};

use crate::app::AppState;
use crate::app_events::app_left;
use crate::client_changes::{add_unwritten, linger_app, open_app};
use crate::client_event::ClientOut;
use crate::client_outs::{ask_close, write_bytes};
use crate::client_state::ClientState;
use kn_io::{Blob, NoMemory, Text};

// A reply that no app waits for: its connection is to be closed.
fn stray_reply(
    state: &ClientState,
    error: Text,
    connect_id: &i64,
    outs: &mut Vec<ClientOut>,
) -> Result<(), NoMemory>
    ensures { OnOk result (outs.new.items ≡ outs.old.items ++ (spec.stray_reply state.now error connect_id.now).outs) }
{
    if error.is_empty() {
        ask_close(connect_id, outs)
    } else {
        Ok(())
    }
}

// The reply that an app waits for.
fn dial_answered(
    state: &mut ClientState,
    number: u64,
    error: Text,
    connect_id: &i64,
    outs: &mut Vec<ClientOut>,
) -> Result<(), NoMemory>
    requires sound { IsClientSound state.old }
    requires dials { IsSomeAnd (first_where (is_app number) state.old.apps) (λ a. a.state ≡ AppState.Dialling) }
    ensures sound { IsClientSound state.new }
    ensures state { OnOk result (state.new ≡ (spec.dial_answered state.old number error connect_id.now).state) }
    ensures outs { OnOk result (outs.new.items ≡ outs.old.items ++ (spec.dial_answered state.old number error connect_id.now).outs) }
{
    if error.is_empty() {
        open_app(state, number, connect_id)
    } else {
        app_left(state, number, error, outs)
    }
}

// A reply whose random is an app's number.
fn reply_by_state(
    state: &mut ClientState,
    number: u64,
    error: Text,
    connect_id: &i64,
    at: AppState,
    outs: &mut Vec<ClientOut>,
) -> Result<(), NoMemory>
    requires sound { IsClientSound state.old }
    requires there { IsSomeAnd (first_where (is_app number) state.old.apps) (λ a. a.state ≡ at) }
    ensures sound { IsClientSound state.new }
    ensures state { OnOk result (state.new ≡ (spec.reply_by_state state.old number error connect_id.now at).state) }
    ensures outs { OnOk result (outs.new.items ≡ outs.old.items ++ (spec.reply_by_state state.old number error connect_id.now at).outs) }
{
    match at {
        AppState::Dialling => dial_answered(state, number, error, connect_id, outs),
        AppState::Open => stray_reply(state, error, connect_id, outs),
        AppState::Closing => stray_reply(state, error, connect_id, outs),
        AppState::Lingering => stray_reply(state, error, connect_id, outs),
    }
}

/// The server replies to a dial.
pub(crate) fn reply_came(
    state: &mut ClientState,
    error: Text,
    connect_id: &i64,
    random: &i64,
    outs: &mut Vec<ClientOut>,
) -> Result<(), NoMemory>
    requires { IsClientSound state.old }
    ensures sound { IsClientSound state.new }
    ensures state { OnOk result (state.new ≡ (spec.reply_came state.old error connect_id.now (app_at random.now state.old.apps)).state) }
    ensures outs { OnOk result (outs.new.items ≡ outs.old.items ++ (spec.reply_came state.old error connect_id.now (app_at random.now state.old.apps)).outs) }
{
    match state.apps.find_random(random) {
        Some(found) => {
            let number = found.number;
            let at = found.state;
            reply_by_state(state, number, error, connect_id, at, outs)
        }
        None => stray_reply(state, error, connect_id, outs),
    }
}

/// The server sends bytes for an app.
pub(crate) fn data_came(
    state: &mut ClientState,
    connect_id: &i64,
    bytes: Blob,
    outs: &mut Vec<ClientOut>,
) -> Result<(), NoMemory>
    requires sound { IsClientSound state.old }
    requires room { spec.HasRoom (length bytes) (first_where (is_open_at connect_id.now) state.old.apps) }
    ensures sound { IsClientSound state.new }
    ensures state { OnOk result (state.new ≡ (spec.data_came state.old bytes (first_where (is_open_at connect_id.now) state.old.apps)).state) }
    ensures outs { OnOk result (outs.new.items ≡ outs.old.items ++ (spec.data_came state.old bytes (first_where (is_open_at connect_id.now) state.old.apps)).outs) }
{
    match state.apps.first_open(connect_id) {
        Some(found) => {
            let number = found.number;
            add_unwritten(state, number, bytes.len());
            write_bytes(number, bytes, outs)
        }
        None => Ok(()),
    }
}

// The tunnel of an app is over: the app is told at once, or once all is written.
fn tunnel_closed(
    state: &mut ClientState,
    number: u64,
    at: AppState,
    connect_id: &i64,
    unwritten: usize,
    error: Text,
    outs: &mut Vec<ClientOut>,
) -> Result<(), NoMemory>
    requires sound { IsClientSound state.old }
    requires there { IsSomeAnd (first_where (is_app number) state.old.apps) (λ a. (a.state ≡ at) × (a.connect_id ≡ connect_id.now)) }
    ensures sound { IsClientSound state.new }
    ensures state { OnOk result (state.new ≡ (spec.tunnel_closed state.old number unwritten error).state) }
    ensures outs { OnOk result (outs.new.items ≡ outs.old.items ++ (spec.tunnel_closed state.old number unwritten error).outs) }
{
    if unwritten == 0 {
        app_left(state, number, error, outs)
    } else {
        linger_app(state, number, at, connect_id, error);
        Ok(())
    }
}

/// The server closes a tunnel.
pub(crate) fn close_came(
    state: &mut ClientState,
    connect_id: &i64,
    error: Text,
    outs: &mut Vec<ClientOut>,
) -> Result<(), NoMemory>
    requires { IsClientSound state.old }
    ensures sound { IsClientSound state.new }
    ensures state { OnOk result (state.new ≡ (spec.close_came state.old error (first_where (is_held_at connect_id.now) state.old.apps)).state) }
    ensures outs { OnOk result (outs.new.items ≡ outs.old.items ++ (spec.close_came state.old error (first_where (is_held_at connect_id.now) state.old.apps)).outs) }
{
    match state.apps.first_held(connect_id) {
        Some(found) => {
            let number = found.number;
            let own = found.connect_id;
            let at = found.state;
            let unwritten = found.unwritten;
            tunnel_closed(state, number, at, &own, unwritten, error, outs)
        }
        None => Ok(()),
    }
}
