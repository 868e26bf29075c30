ghost use Rattle.std.specs.Prelude.{◌≡◌, ◌==◌, ◌+◌, ◌-◌, ◌<◌, ◌^◌, ℕ, Some, IsSome, IfSome, OnOk, if◌then◌else◌};
ghost use Rattle.kn_tables.specs.Indexed.{count_at, at_number};
ghost use Rattle.kn_tables.specs.Holding.{has_front};

use kn_io::NoMemory;
use std::collections::BTreeMap;

/// How many are counted for a front.
pub(crate) fn count_of(counts: &BTreeMap<u64, usize>, front: u64) -> usize
    ensures { result ≡ count_at counts.now.entries front }
{
    counts.get(&front).copied().unwrap_or(0)
}

/// Counts one more for a front that the map has.
pub(crate) fn raise(counts: &mut BTreeMap<u64, usize>, front: u64)
    requires here { IsSome (at_number counts.old.entries front) }
    requires small { count_at counts.old.entries front < 2 ^ 63 }
    ensures { (q : ℕ) → count_at counts.new.entries q ≡ (if front == q then count_at counts.old.entries q + 1 else count_at counts.old.entries q) }
{
    if let Some(count) = counts.get_mut(&front) {
        *count += 1;
    }
}

/// Counts one less for a front, which goes from the map with its last one.
pub(crate) fn lower(counts: &mut BTreeMap<u64, usize>, front: u64)
    ensures { (q : ℕ) → count_at counts.new.entries q ≡ (if front == q then count_at counts.old.entries q - 1 else count_at counts.old.entries q) }
{
    if count_of(counts, front) > 1 {
        if let Some(count) = counts.get_mut(&front) {
            *count -= 1;
        }
    } else {
        counts.remove(&front);
    }
}

/// Takes the memory for a count of this front, where there is one.
pub(crate) fn note_for(
    counts: &mut BTreeMap<u64, usize>,
    front: Option<u64>,
) -> Result<(), NoMemory>
    ensures kept { (q : ℕ) → count_at counts.new.entries q ≡ count_at counts.old.entries q }
    ensures here { OnOk result (IfSome front (λ f. IsSome (at_number counts.new.entries f))) }
{
    match front {
        Some(front) => {
            let count = count_of(counts, front);
            counts.insert(front, count)?;
            Ok(())
        }
        None => Ok(()),
    }
}

/// Counts one more for this front, where there is one.
pub(crate) fn raise_for(counts: &mut BTreeMap<u64, usize>, front: Option<u64>)
    requires here { IfSome front (λ f. IsSome (at_number counts.old.entries f)) }
    requires small { (q : ℕ) → count_at counts.old.entries q < 2 ^ 63 }
    ensures { (q : ℕ) → count_at counts.new.entries q ≡ (if has_front front q then count_at counts.old.entries q + 1 else count_at counts.old.entries q) }
{
    match front {
        Some(front) => raise(counts, front),
        None => {}
    }
}

/// Counts one less for this front, where there is one.
pub(crate) fn lower_for(counts: &mut BTreeMap<u64, usize>, front: Option<u64>)
    ensures { (q : ℕ) → count_at counts.new.entries q ≡ (if has_front front q then count_at counts.old.entries q - 1 else count_at counts.old.entries q) }
{
    match front {
        Some(front) => lower(counts, front),
        None => {}
    }
}
