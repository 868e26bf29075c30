ghost use Rattle.std.specs.Prelude.{◌≡◌, ◌++◌, [], ◌∷◌, false, OnOk};
ghost use Rattle.kn_edge_core.specs.ClientTables.{is_held};
ghost use Rattle.kn_edge_core.specs.AppOrder.{AreBelow};
ghost use Rattle.kn_edge_core.specs.Client as spec;
ghost use Rattle.kn_edge_core.specs.Sound.{IsClientSound};

use crate::app::{App, AppState};
use crate::apps::Apps;
use crate::client_event::ClientOut;
use crate::client_outs::tell_end_copied;
use crate::client_state::ClientState;
use kn_io::{NoMemory, Text};
use std::alloc::Global;

// An app stays, behind all that stay.
fn keep(kept: &mut Apps, app: App) -> Result<(), NoMemory>
    requires idle { is_held app.state ≡ false }
    requires last { AreBelow app.number kept.old }
    ensures { OnOk result (kept.new ≡ kept.old ++ app ∷ []) }
{
    kept.insert(app)?;
    Ok(())
}

// An app with an open tunnel at the stream's end: it leaves at once, or once all is written.
fn held_at_end(
    alloc: Global,
    kept: &mut Apps,
    app: App,
    error: &str,
    outs: &mut Vec<ClientOut>,
) -> Result<(), NoMemory>
    requires { AreBelow app.number kept.old }
    ensures kept { OnOk result (kept.new ≡ kept.old ++ spec.kept (spec.held_after_stream error.now app.unwritten app) []) }
    ensures outs { OnOk result (outs.new.items ≡ outs.old.items ++ spec.told_unless_kept error.now app.number (spec.held_after_stream error.now app.unwritten app) []) }
{
    if app.unwritten == 0 {
        tell_end_copied(alloc, app.number, error, outs)
    } else {
        let error = Text::of(alloc, error)?;
        keep(
            kept,
            App {
                number: app.number,
                state: AppState::Lingering,
                connect_id: app.connect_id,
                unwritten: app.unwritten,
                error,
            },
        )
    }
}

// An app at the stream's end.
fn app_at_end(
    alloc: Global,
    kept: &mut Apps,
    app: App,
    error: &str,
    outs: &mut Vec<ClientOut>,
) -> Result<(), NoMemory>
    requires { AreBelow app.number kept.old }
    ensures kept { OnOk result (kept.new ≡ kept.old ++ spec.kept (spec.after_stream error.now app.state app) []) }
    ensures outs { OnOk result (outs.new.items ≡ outs.old.items ++ spec.told_unless_kept error.now app.number (spec.after_stream error.now app.state app) []) }
{
    match app.state {
        AppState::Dialling => tell_end_copied(alloc, app.number, error, outs),
        AppState::Open => held_at_end(alloc, kept, app, error, outs),
        AppState::Closing => held_at_end(alloc, kept, app, error, outs),
        AppState::Lingering => keep(kept, app),
    }
}

/// The stream to the server ended: each app leaves at once, or once all is written, by rising number.
pub(crate) fn stream_ended(
    alloc: Global,
    state: &mut ClientState,
    error: &str,
    outs: &mut Vec<ClientOut>,
) -> Result<(), NoMemory>
    requires { IsClientSound state.old }
    ensures sound { IsClientSound state.new }
    ensures state { OnOk result (state.new ≡ (spec.stream_ended state.old error.now).state) }
    ensures outs { OnOk result (outs.new.items ≡ outs.old.items ++ (spec.stream_ended state.old error.now).outs) }
{
    let mut kept = Apps::new(alloc);
    while let Some(app) = state.apps.take_first() {
        app_at_end(alloc, &mut kept, app, error, outs)?;
    }
    state.apps = kept;
    Ok(())
}
