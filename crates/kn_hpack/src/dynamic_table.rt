ghost use Rattle.std.specs.Prelude.{◌≡◌, ◌≤◌, ◌∷◌, [], IfOk, OnOk};
ghost use Rattle.kn_hpack.specs.Fields.{kept, total, added, resized, pair, table_of};
ghost use Rattle.kn_hpack.specs.Indexes.{field_at, lent};

use crate::field::Pair;
use crate::static_table::static_field;
use std::alloc::{AllocError, Global};
use std::collections::VecDeque;
use std::marker::Model;

/// The dynamic table of a decoder (RFC 7541, section 2.3.2), the newest field first.
#[derive(Drop)]
pub struct Dynamic {
    limit: usize,
    count: usize,
    pairs: VecDeque<Pair>,
}

impl Model for Dynamic {
    ghost use Rattle.std.specs.Prelude.{◌≡◌, ◌≤◌};
    ghost use Rattle.kn_hpack.specs.Fields.{Table, table_of, total};

    ghost Value = { Table };

    ghost view = { λ d. table_of d.limit d.pairs.items };

    ghost invariant = { λ d. (d.count ≡ total d.pairs.items) × (d.count ≤ d.limit) × (d.limit ≤ 4096) };
}

/// The oldest fields leave until the rest counts at most `room`. Gives what the rest counts.
#[tactic(auto, using(crate::proofs::TableFacts::kept_all, crate::proofs::TableFacts::kept_last, crate::proofs::TableFacts::total_append))]
fn evict(pairs: &mut VecDeque<Pair>, count: usize, room: usize) -> usize
    requires { count ≡ total pairs.old.items }
    ensures kept { pairs.new.items ≡ kept room pairs.old.items }
    ensures count { result ≡ total pairs.new.items }
    ensures bound { result ≤ room }
{
    let mut left = count;
    while left > room {
        match pairs.pop_back() {
            Some(pair) => left -= pair.size(),
            None => break,
        }
    }
    left
}

/// One more field, where the oldest leave until there is room, and one over the limit empties the table.
/// Gives what the fields count.
#[tactic(auto, using(crate::proofs::TableFacts::kept_more, crate::proofs::TableFacts::kept_none))]
fn insert(
    pairs: &mut VecDeque<Pair>,
    count: usize,
    limit: usize,
    pair: Pair,
) -> Result<usize, AllocError>
    requires count { count ≡ total pairs.old.items }
    requires limit { limit ≤ 4096 }
    ensures kept { OnOk result (pairs.new.items ≡ kept limit (pair ∷ pairs.old.items)) }
    ensures count { IfOk result (λ n. n ≡ total pairs.new.items) }
    ensures bound { IfOk result (λ n. n ≤ limit) }
{
    let size = pair.size();
    if size > limit {
        pairs.clear();
        return Ok(0);
    }
    let left = evict(pairs, count, limit - size);
    pairs.push_front(pair)?;
    Ok(left + size)
}

impl Dynamic {
    /// An empty table with the limit 4,096, with which each connection begins.
    pub fn new(alloc: Global) -> Dynamic
        ensures { result ≡ table_of 4096 [] }
    {
        Dynamic {
            limit: 4096,
            count: 0,
            pairs: VecDeque::new(alloc),
        }
    }

    /// The field that an index names, in the static table or in this one.
    #[tactic(auto, using(crate::proofs::IndexFacts::index_zero, crate::proofs::IndexFacts::index_static, crate::proofs::IndexFacts::index_dynamic))]
    pub fn field_at(&self, index: u32) -> Option<(&[u8], &[u8])>
        ensures { lent result ≡ field_at self.now index }
    {
        if index == 0 {
            return None;
        }
        let place = (index - 1) as usize;
        if place < 61 {
            return Some(static_field(place));
        }
        match self.pairs.get(place - 61) {
            Some(pair) => Some((pair.name(), pair.value())),
            None => None,
        }
    }

    /// Adds a copy of the field (RFC 7541, section 4.4). After an `Err` the table is empty.
    pub fn add(&mut self, alloc: Global, name: &[u8], value: &[u8]) -> Result<(), AllocError>
        ensures { OnOk result (self.new ≡ added self.old (pair name.now value.now)) }
    {
        let pair = Pair::copy_of(alloc, name, value)?;
        match insert(&mut self.pairs, self.count, self.limit, pair) {
            Ok(count) => {
                self.count = count;
                Ok(())
            }
            Err(error) => {
                self.pairs.clear();
                self.count = 0;
                Err(error)
            }
        }
    }

    /// Another limit (RFC 7541, section 4.3).
    pub fn resize(&mut self, limit: usize)
        requires { limit ≤ 4096 }
        ensures { self.new ≡ resized self.old limit }
    {
        self.count = evict(&mut self.pairs, self.count, limit);
        self.limit = limit;
    }
}
