ghost use Rattle.std.specs.Prelude.{◌≡◌, [], ◌==◌};
ghost use Rattle.kn_hpack.specs.Faults.{Gives};
ghost use Rattle.kn_hpack.specs.Blocks.{one_more, is_none};

use crate::fault::{HpackReason, TextError};
use crate::field::Pair;
use crate::headers::Headers;
use std::alloc::Global;
use std::marker::Model;

/// The fields of a block that were read so far, and what they count.
#[derive(Drop)]
pub struct Gathered {
    headers: Headers,
    count: usize,
}

impl Model for Gathered {
    ghost use Rattle.std.specs.Prelude.{List, ◌≡◌, ◌≤◌};
    ghost use Rattle.kn_hpack.specs.Fields.{Field, total};

    ghost Value = { List Field };

    ghost view = { λ g. g.headers };

    ghost invariant = { λ g. (g.count ≡ total g.headers) × (g.count ≤ 16384) };
}

impl Gathered {
    pub fn new(alloc: Global) -> Gathered
        ensures { result ≡ [] }
    {
        Gathered {
            headers: Headers::new(alloc),
            count: 0,
        }
    }

    pub fn is_empty(&self) -> bool
        ensures { result ≡ is_none self.now }
    {
        self.headers.is_empty()
    }

    /// One more field, where the list does not become too large.
    #[tactic(auto, unfolding(crate::specs::Blocks::one_more))]
    pub fn keep(&mut self, field: Pair) -> Result<(), TextError>
        ensures { Gives (λ _. self.new) result (one_more self.old field) }
    {
        let size = field.size();
        if size > 16384 - self.count {
            return Err(TextError::Fault(HpackReason::TooLarge));
        }
        self.headers.push(field)?;
        self.count += size;
        Ok(())
    }

    pub fn into_headers(self) -> Headers
        ensures { result ≡ self }
    {
        let Gathered { headers, count: _ } = self;
        headers
    }
}
