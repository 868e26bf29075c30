ghost use Rattle.std.specs.Prelude.{◌≡◌, ℕ, ℤ, Some, None, OnOk, OnErr, if◌then◌else◌};
ghost use Rattle.std.specs.BTreeMap.{is_at};
ghost use Rattle.std.specs.Ordering.{int_eq};
ghost use Rattle.kn_tables.specs.Indexed.{at_key, hits};
ghost use Rattle.kn_edge_core.specs.Keeping as spec;
ghost use Rattle.kn_edge_core.specs.Keeping.{FirstUnder, id_cmp};

use crate::app::AppState;
use kn_io::NoMemory;
use std::collections::BTreeMap;

// Whether two connectIDs are the same.
fn is_same(a: &i64, b: &i64) -> bool
    ensures { result ≡ int_eq a.now b.now }
{
    *a == *b
}

/// The number under the least pair of this connectID.
pub(crate) fn first_under(index: &BTreeMap<(i64, u64), u64>, connect_id: &i64) -> Option<u64>
    ensures { FirstUnder index.now.entries connect_id.now result }
{
    match index.range((*connect_id, 0)..).next() {
        Some((at, number)) => {
            if is_same(&at.0, connect_id) {
                Some(*number)
            } else {
                None
            }
        }
        None => None,
    }
}

/// Notes an app under a connectID. An `Err` changes nothing.
pub(crate) fn note(
    index: &mut BTreeMap<(i64, u64), u64>,
    connect_id: &i64,
    number: u64,
) -> Result<(), NoMemory>
    ensures ok { OnOk result ((k : ℤ × ℕ) → at_key id_cmp index.new.entries k ≡ (if is_at (id_cmp (connect_id.now, number)) k then Some number else at_key id_cmp index.old.entries k)) }
    ensures err { OnErr result (index.new.entries ≡ index.old.entries) }
{
    index.insert((*connect_id, number), number)?;
    Ok(())
}

/// Forgets an app under a connectID.
pub(crate) fn forget(index: &mut BTreeMap<(i64, u64), u64>, connect_id: &i64, number: u64)
    ensures { (k : ℤ × ℕ) → at_key id_cmp index.new.entries k ≡ (if is_at (id_cmp (connect_id.now, number)) k then None else at_key id_cmp index.old.entries k) }
{
    index.remove(&(*connect_id, number));
}

/// Forgets an app of this state among those that take data.
pub(crate) fn forget_open(
    index: &mut BTreeMap<(i64, u64), u64>,
    state: AppState,
    connect_id: &i64,
    number: u64,
)
    ensures { (k : ℤ × ℕ) → at_key id_cmp index.new.entries k ≡ (if hits id_cmp (spec.open_key state connect_id.now number) k then None else at_key id_cmp index.old.entries k) }
{
    match state {
        AppState::Open => forget(index, connect_id, number),
        AppState::Dialling => {}
        AppState::Closing => {}
        AppState::Lingering => {}
    }
}

/// Forgets an app of this state among those that a close is for.
pub(crate) fn forget_held(
    index: &mut BTreeMap<(i64, u64), u64>,
    state: AppState,
    connect_id: &i64,
    number: u64,
)
    ensures { (k : ℤ × ℕ) → at_key id_cmp index.new.entries k ≡ (if hits id_cmp (spec.held_key state connect_id.now number) k then None else at_key id_cmp index.old.entries k) }
{
    match state {
        AppState::Open => forget(index, connect_id, number),
        AppState::Closing => forget(index, connect_id, number),
        AppState::Dialling => {}
        AppState::Lingering => {}
    }
}
