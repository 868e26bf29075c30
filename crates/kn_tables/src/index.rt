ghost use Rattle.std.specs.Prelude.{◌≡◌, ℕ, Some, None, IsSome, OnOk, OnErr, if◌then◌else◌};
ghost use Rattle.std.specs.List.Sorted.{IsStrictlySortedBy};
ghost use Rattle.std.specs.Map.{keys_of, set_value};
ghost use Rattle.std.specs.BTreeMap.{is_at};
ghost use Rattle.std.specs.Ordering.{nat_cmp};
ghost use Rattle.kn_tables.specs.Indexed as spec;
ghost use Rattle.kn_tables.specs.Indexed.{FirstAt, FirstSignedAt, lowest, hits, pair_cmp, pair_of, at_key, at_number};

use kn_io::NoMemory;
use std::collections::BTreeMap;

/// The entry under a number that an index found.
pub(crate) fn entry_at<E: Copy>(entries: &BTreeMap<u64, E>, number: Option<u64>) -> Option<E>
    ensures { result ≡ spec.entry_at entries.now.entries number }
{
    match number {
        Some(number) => entries.get(&number).copied(),
        None => None,
    }
}

/// The number under the least pair that begins so.
pub(crate) fn first_at(index: &BTreeMap<(u64, u64), u64>, begins: u64) -> Option<u64>
    ensures { FirstAt index.now.entries begins result }
{
    match index.range((begins, 0)..).next() {
        Some((at, number)) if at.0 == begins => Some(*number),
        _ => None,
    }
}

/// The number under the least pair that begins so, of which the second part is signed.
pub(crate) fn first_signed_at(index: &BTreeMap<(u64, i64), u64>, begins: u64) -> Option<u64>
    ensures { FirstSignedAt lowest index.now.entries begins result }
{
    match index.range((begins, i64::MIN)..).next() {
        Some((at, number)) if at.0 == begins => Some(*number),
        _ => None,
    }
}

/// Notes a dial under its front, where it has one. An `Err` changes nothing.
pub(crate) fn note_front(
    index: &mut BTreeMap<(u64, u64), u64>,
    front: Option<u64>,
    dial: u64,
) -> Result<(), NoMemory>
    ensures ok { OnOk result ((k : ℕ × ℕ) → at_key pair_cmp index.new.entries k ≡ (if hits pair_cmp (pair_of front dial) k then Some dial else at_key pair_cmp index.old.entries k)) }
    ensures err { OnErr result (index.new.entries ≡ index.old.entries) }
{
    match front {
        Some(front) => {
            index.insert((front, dial), dial)?;
            Ok(())
        }
        None => Ok(()),
    }
}

/// Forgets a dial under its front, where it has one.
pub(crate) fn forget_front(index: &mut BTreeMap<(u64, u64), u64>, front: Option<u64>, dial: u64)
    ensures { (k : ℕ × ℕ) → at_key pair_cmp index.new.entries k ≡ (if hits pair_cmp (pair_of front dial) k then None else at_key pair_cmp index.old.entries k) }
{
    match front {
        Some(front) => {
            index.remove(&(front, dial));
        }
        None => {}
    }
}

/// Writes an entry in the place of the one under its number.
pub(crate) fn put<E: Copy>(entries: &mut BTreeMap<u64, E>, number: u64, entry: E)
    requires { IsSome (at_number entries.old.entries number) }
    ensures ordered { IsStrictlySortedBy nat_cmp (keys_of entries.old.entries) }
    ensures entries { entries.new.entries ≡ set_value (is_at (nat_cmp number)) entries.old.entries entry }
    ensures updates { (q : ℕ) → at_number entries.new.entries q ≡ (if is_at (nat_cmp number) q then Some entry else at_number entries.old.entries q) }
{
    if let Some(place) = entries.get_mut(&number) {
        *place = entry;
    }
}
