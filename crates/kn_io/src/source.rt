ghost use Rattle.std.specs.Prelude.{ℕ, ◌<◌, List, length, Option};
ghost use Rattle.kn_io.specs.Reading.{ReadCounts, ReadFits, ReadTakes};

/// What a read answered: this many bytes at the front of the room, the end, or a fault.
#[derive(Clone, Copy, Debug, PartialEq, Eq)]
pub enum Got {
    Bytes(usize),
    End,
    Failed,
}

/// Where bytes come from.
pub trait Source {
    /// How many reads failed. It stands still at 2^64 - 1.
    ghost faults: { Self → ℕ };

    /// The bytes that are left, where the source tells them.
    ghost left: { Self → Option (List ℕ) };

    /// Reads the next bytes into the room, or tells that there are none. A later read may go on
    /// after a fault.
    fn read(&mut self, room: &mut [u8]) -> Got
        requires { 0 < length room.old }
        ensures count { ReadCounts result (faults self.old) (faults self.new) }
        ensures fits { ReadFits result (length room.old) }
        ensures bytes { ReadTakes result (left self.old) (left self.new) room.new };
}
