ghost use Rattle.std.specs.Prelude.{◌≡◌, ◌==◌, List};
ghost use Rattle.kn_io.specs.Memory.{counted, is_listed};

use std::marker::Model;

/// Numbers of calls. Contracts see them as a list.
#[derive(Drop)]
pub(crate) struct CallNumbers {
    inner: Vec<u64>,
}

impl Model for CallNumbers {
    ghost use Rattle.std.specs.Prelude.{ℕ, List};

    ghost Value = { List ℕ };

    ghost view = { λ n. n.inner.items };
}

impl CallNumbers {
    pub(crate) fn new(numbers: Vec<u64>) -> CallNumbers
        ensures { result ≡ numbers.items }
    {
        CallNumbers { inner: numbers }
    }

    pub(crate) fn lists(&self, call: u64) -> bool
        ensures { result ≡ is_listed self.now call }
    {
        self.inner.contains(&call)
    }
}

/// The next number of a count, which stands still at its last value.
pub(crate) fn count_on(count: u64) -> u64
    ensures { result ≡ counted count }
{
    count.saturating_add(1)
}
