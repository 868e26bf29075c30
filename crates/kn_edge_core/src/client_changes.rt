ghost use Rattle.std.specs.Prelude.{◌≡◌, ◌+◌, ◌<◌, ◌≤◌, ◌^◌, [], pos, OnOk, OnErr};
ghost use Rattle.std.specs.Option.{IsSomeAnd};
ghost use Rattle.kn_tables.specs.Lists.{first_where};
ghost use Rattle.kn_edge_core.specs.ClientTables.{is_app, with_app, without_app, app_changed, opened, closing, lingering, with_more, with_fewer};
ghost use Rattle.kn_edge_core.specs.Sound.{IsClientSound};

use crate::app::{App, AppState};
use crate::client_state::ClientState;
use kn_io::{NoMemory, Text};
use std::alloc::Global;

/// An app comes up, and dials. An `Err` changes nothing.
pub(crate) fn add_app(alloc: Global, state: &mut ClientState, number: u64) -> Result<(), NoMemory>
    requires sound { IsClientSound state.old }
    requires next { state.old.top_app < number }
    requires low { number < 9223372036854775807 }
    ensures sound { IsClientSound state.new }
    ensures ok { OnOk result (state.new ≡ record state.old { apps = with_app (record { number = number; state = AppState.Dialling; connect_id = pos 0; unwritten = 0; error = [] }) state.old.apps; top_app = number }) }
    ensures err { OnErr result (state.new ≡ state.old) }
{
    state.apps.insert(App {
        number,
        state: AppState::Dialling,
        connect_id: 0,
        unwritten: 0,
        error: Text::new(alloc),
    })?;
    state.top_app = number;
    Ok(())
}

/// The tunnel of an app is open. An `Err` changes nothing.
pub(crate) fn open_app(
    state: &mut ClientState,
    number: u64,
    connect_id: &i64,
) -> Result<(), NoMemory>
    requires sound { IsClientSound state.old }
    requires dials { IsSomeAnd (first_where (is_app number) state.old.apps) (λ a. a.state ≡ AppState.Dialling) }
    ensures sound { IsClientSound state.new }
    ensures ok { OnOk result (state.new ≡ record state.old { apps = app_changed number (opened connect_id.now) state.old.apps }) }
    ensures err { OnErr result (state.new ≡ state.old) }
{
    state.apps.open(number, connect_id)?;
    Ok(())
}

/// An app whose tunnel is open asked to close it.
pub(crate) fn close_app(state: &mut ClientState, number: u64, connect_id: &i64)
    requires sound { IsClientSound state.old }
    requires is_open { IsSomeAnd (first_where (is_app number) state.old.apps) (λ a. (a.state ≡ AppState.Open) × (a.connect_id ≡ connect_id.now)) }
    ensures sound { IsClientSound state.new }
    ensures state { state.new ≡ record state.old { apps = app_changed number closing state.old.apps } }
{
    state.apps.close(number, connect_id);
}

/// The tunnel of an app is over, and bytes are still to be written to it.
pub(crate) fn linger_app(
    state: &mut ClientState,
    number: u64,
    at: AppState,
    connect_id: &i64,
    error: Text,
)
    requires sound { IsClientSound state.old }
    requires there { IsSomeAnd (first_where (is_app number) state.old.apps) (λ a. (a.state ≡ at) × (a.connect_id ≡ connect_id.now)) }
    ensures sound { IsClientSound state.new }
    ensures state { state.new ≡ record state.old { apps = app_changed number (lingering error) state.old.apps } }
{
    state.apps.linger(number, at, connect_id, error);
}

/// So many bytes more are to be written to an app.
pub(crate) fn add_unwritten(state: &mut ClientState, number: u64, count: usize)
    requires sound { IsClientSound state.old }
    requires room { IsSomeAnd (first_where (is_app number) state.old.apps) (λ a. a.unwritten + count < 2 ^ 64) }
    ensures sound { IsClientSound state.new }
    ensures state { state.new ≡ record state.old { apps = app_changed number (with_more count) state.old.apps } }
{
    state.apps.add_unwritten(number, count);
}

/// So many bytes were written to an app.
pub(crate) fn take_unwritten(state: &mut ClientState, number: u64, count: usize)
    requires sound { IsClientSound state.old }
    requires there { IsSomeAnd (first_where (is_app number) state.old.apps) (λ a. count ≤ a.unwritten) }
    ensures sound { IsClientSound state.new }
    ensures state { state.new ≡ record state.old { apps = app_changed number (with_fewer count) state.old.apps } }
{
    state.apps.take_unwritten(number, count);
}

/// An app leaves.
pub(crate) fn remove_app(state: &mut ClientState, number: u64) -> Option<App>
    requires { IsClientSound state.old }
    ensures sound { IsClientSound state.new }
    ensures found { result ≡ first_where (is_app number) state.old.apps }
    ensures state { state.new ≡ record state.old { apps = without_app number state.old.apps } }
{
    state.apps.remove(number)
}
