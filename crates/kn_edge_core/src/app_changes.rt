ghost use Rattle.std.specs.Prelude.{◌≡◌, ◌+◌, ◌<◌, ◌≤◌, ◌^◌, Some};
ghost use Rattle.std.specs.Option.{IsSomeAnd};
ghost use Rattle.std.specs.BTreeMap.{is_at};
ghost use Rattle.std.specs.Map.{set_value};
ghost use Rattle.std.specs.Ordering.{nat_cmp};
ghost use Rattle.kn_tables.specs.Indexed.{at_number};
ghost use Rattle.kn_edge_core.specs.declared.app.App.{App};
ghost use Rattle.kn_edge_core.specs.ClientTables.{opened, closing, lingering, with_more, with_fewer};

use crate::app::{App, AppState};
use kn_io::Text;
use std::collections::BTreeMap;

/// The app of a number is open.
pub(crate) fn mark_open(apps: &mut BTreeMap<u64, App>, number: u64, connect_id: &i64)
    ensures { (a : App) → at_number apps.old.entries number ≡ Some a → apps.new.entries ≡ set_value (is_at (nat_cmp number)) apps.old.entries (opened connect_id.now a) }
{
    if let Some(app) = apps.get_mut(&number) {
        app.state = AppState::Open;
        app.connect_id = *connect_id;
    }
}

/// The app of a number is closing.
pub(crate) fn mark_closing(apps: &mut BTreeMap<u64, App>, number: u64)
    ensures { (a : App) → at_number apps.old.entries number ≡ Some a → apps.new.entries ≡ set_value (is_at (nat_cmp number)) apps.old.entries (closing a) }
{
    if let Some(app) = apps.get_mut(&number) {
        app.state = AppState::Closing;
    }
}

/// The app of a number lingers, with the error that it is told at its end.
pub(crate) fn mark_lingering(apps: &mut BTreeMap<u64, App>, number: u64, error: Text)
    ensures { (a : App) → at_number apps.old.entries number ≡ Some a → apps.new.entries ≡ set_value (is_at (nat_cmp number)) apps.old.entries (lingering error a) }
{
    if let Some(app) = apps.get_mut(&number) {
        app.state = AppState::Lingering;
        app.error = error;
    }
}

/// The app of a number has so many bytes more to be written.
pub(crate) fn count_more(apps: &mut BTreeMap<u64, App>, number: u64, count: usize)
    requires { IsSomeAnd (at_number apps.old.entries number) (λ a. a.unwritten + count < 2 ^ 64) }
    ensures { (a : App) → at_number apps.old.entries number ≡ Some a → apps.new.entries ≡ set_value (is_at (nat_cmp number)) apps.old.entries (with_more count a) }
{
    if let Some(app) = apps.get_mut(&number) {
        app.unwritten += count;
    }
}

/// The app of a number has so many bytes less to be written.
pub(crate) fn count_fewer(apps: &mut BTreeMap<u64, App>, number: u64, count: usize)
    requires { IsSomeAnd (at_number apps.old.entries number) (λ a. count ≤ a.unwritten) }
    ensures { (a : App) → at_number apps.old.entries number ≡ Some a → apps.new.entries ≡ set_value (is_at (nat_cmp number)) apps.old.entries (with_fewer count a) }
{
    if let Some(app) = apps.get_mut(&number) {
        app.unwritten -= count;
    }
}
