ghost use Rattle.std.specs.Prelude.{ℕ, List, Option};
ghost use Rattle.kn_io.specs.Writing.{WriteCounts, WritePuts};

/// What a write answered.
#[derive(Clone, Copy, Debug, PartialEq, Eq)]
pub enum Put {
    Done,
    Failed,
    NoMemory,
}

/// Where bytes go.
pub trait Sink {
    /// How many writes failed. It stands still at 2^64 - 1.
    ghost faults: { Self → ℕ };

    /// The bytes that were written, where the sink tells them.
    ghost written: { Self → Option (List ℕ) };

    /// Writes all of the bytes, or a front of them where it fails or finds no memory.
    fn write(&mut self, bytes: &[u8]) -> Put
        ensures count { WriteCounts result (faults self.old) (faults self.new) }
        ensures bytes { WritePuts result (written self.old) (written self.new) bytes.now };
}
