ghost use Rattle.std.specs.Prelude.{◌≡◌, ◌<◌, ◌≤◌, [], length, take, drop, Some};
ghost use Rattle.kn_io.specs.Memory.{SourceState, read_answer, after_read};
ghost use Rattle.kn_io.specs.Reading.{ReadCounts, ReadFits, ReadTakes};

use crate::numbers::{CallNumbers, count_on};
use crate::{Blob, Got, Source};
use std::marker::Model;

/// A source in memory that gives its bytes in pieces, and fails at calls that were named beforehand.
#[derive(Drop)]
pub struct MemSource {
    bytes: Blob,
    place: usize,
    cut: usize,
    fails: CallNumbers,
    calls: u64,
    faults: u64,
}

impl Model for MemSource {
    ghost use Rattle.std.specs.Prelude.{◌<◌, ◌≤◌, length, drop};
    ghost use Rattle.kn_io.specs.Memory.{SourceState};

    ghost Value = { SourceState };

    ghost view = { λ s. record { left = drop s.place s.bytes; cut = s.cut; fails = s.fails; calls = s.calls; faults = s.faults } };

    ghost invariant = { λ s. (s.place ≤ length s.bytes) × (0 < s.cut) };
}

impl MemSource {
    /// A source of these bytes, of which a call gives at most `cut`. The calls whose numbers, from 1, stand
    /// in `fails` fail and give nothing. Takes no memory.
    pub fn new(bytes: Blob, cut: usize, fails: Vec<u64>) -> MemSource
        requires { 0 < cut }
        ensures { result ≡ record { left = bytes; cut = cut; fails = fails.items; calls = 0; faults = 0 } }
    {
        MemSource {
            bytes,
            place: 0,
            cut,
            fails: CallNumbers::new(fails),
            calls: 0,
            faults: 0,
        }
    }
}

impl Source for MemSource {
    ghost faults = { λ s. s.faults };

    ghost left = { λ s. Some s.left };

    fn read(&mut self, room: &mut [u8]) -> Got
        requires { 0 < length room.old }
        ensures count { ReadCounts result self.old.faults self.new.faults }
        ensures fits { ReadFits result (length room.old) }
        ensures bytes { ReadTakes result (Some self.old.left) (Some self.new.left) room.new }
        ensures answer { result ≡ read_answer self.old (length room.old) }
        ensures after { self.new ≡ after_read self.old result }
    {
        self.calls = count_on(self.calls);
        if self.fails.lists(self.calls) {
            self.faults = count_on(self.faults);
            return Got::Failed;
        }
        let rest = &self.bytes.as_slice()[self.place..];
        if rest.is_empty() {
            return Got::End;
        }
        let count = room.len().min(self.cut).min(rest.len());
        copy_front(rest, room, count);
        self.place += count;
        Got::Bytes(count)
    }
}

/// Copies the first `count` bytes to the front of the room.
fn copy_front(bytes: &[u8], room: &mut [u8], count: usize)
    requires some { count ≤ length bytes.now }
    requires fits { count ≤ length room.old }
    ensures { take count room.new ≡ take count bytes.now }
{
    room[..count].copy_from_slice(&bytes[..count]);
}

#[cfg(test)]
mod tests {
    use super::*;
    use std::test::Fail;

    #[test]
    fn gives_pieces_and_fails_where_it_is_told_to(rt: HostRuntime) -> Result<(), Fail> {
        let bytes = Blob::of(rt.alloc(), b"hello")?;
        let mut source = MemSource::new(bytes, 2, vec![in rt.alloc(); 2, 5]?);
        let mut room = [0u8; 4];
        for (call, want, front) in [
            (1, Got::Bytes(2), b"he".as_slice()),
            (2, Got::Failed, b"".as_slice()),
            (3, Got::Bytes(2), b"ll".as_slice()),
            (4, Got::Bytes(1), b"o".as_slice()),
            (5, Got::Failed, b"".as_slice()),
            (6, Got::End, b"".as_slice()),
        ] {
            assert_eq!(rt; source.read(&mut room), want, "call {call}");
            assert!(rt; room.starts_with(front), "call {call}");
        }
        Ok(())
    }
}
