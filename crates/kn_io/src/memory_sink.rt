ghost use Rattle.std.specs.Prelude.{◌≡◌, ◌≢◌, ◌⊎◌, [], Some};
ghost use Rattle.kn_io.specs.Memory.{write_answer, after_write};
ghost use Rattle.kn_io.specs.Writing.{WriteCounts, WritePuts};
ghost use Rattle.kn_io.specs.declared.sink.Put.TheVariants.{NoMemory as MemoryRanOut};

use crate::numbers::{CallNumbers, count_on};
use crate::{Blob, Put, Sink};
use std::alloc::Global;
use std::marker::Model;

/// A sink in memory that fails at calls that were named beforehand.
#[derive(Drop)]
pub struct MemSink {
    bytes: Blob,
    fails: CallNumbers,
    calls: u64,
    faults: u64,
}

impl Model for MemSink {
    ghost use Rattle.kn_io.specs.Memory.{SinkState};

    ghost Value = { SinkState };

    ghost view = { λ s. record { written = s.bytes; fails = s.fails; calls = s.calls; faults = s.faults } };
}

impl MemSink {
    /// A sink that holds nothing. The calls whose numbers, from 1, stand in `fails` fail. Takes no memory.
    pub fn new(alloc: Global, fails: Vec<u64>) -> MemSink
        ensures { result ≡ record { written = []; fails = fails.items; calls = 0; faults = 0 } }
    {
        MemSink {
            bytes: Blob::new(alloc),
            fails: CallNumbers::new(fails),
            calls: 0,
            faults: 0,
        }
    }

    /// The bytes that were written.
    pub fn written(&self) -> &[u8]
        ensures { result.now ≡ self.now.written }
    {
        self.bytes.as_slice()
    }
}

impl Sink for MemSink {
    ghost faults = { λ s. s.faults };

    ghost written = { λ s. Some s.written };

    fn write(&mut self, bytes: &[u8]) -> Put
        ensures count { WriteCounts result self.old.faults self.new.faults }
        ensures bytes { WritePuts result (Some self.old.written) (Some self.new.written) bytes.now }
        ensures answer { (result ≡ MemoryRanOut) ⊎ (result ≡ write_answer self.old) }
        ensures after { self.new ≡ after_write self.old result bytes.now }
    {
        self.calls = count_on(self.calls);
        if self.fails.lists(self.calls) {
            self.faults = count_on(self.faults);
            return Put::Failed;
        }
        match self.bytes.append(bytes) {
            Ok(()) => Put::Done,
            Err(_) => Put::NoMemory,
        }
    }
}

#[cfg(test)]
mod tests {
    use super::*;
    use std::test::Fail;

    #[test]
    fn keeps_what_was_written_and_fails_where_it_is_told_to(rt: HostRuntime) -> Result<(), Fail> {
        let mut sink = MemSink::new(rt.alloc(), vec![in rt.alloc(); 2]?);
        for (bytes, want, written) in [
            (b"ab".as_slice(), Put::Done, b"ab".as_slice()),
            (b"cd".as_slice(), Put::Failed, b"ab".as_slice()),
            (b"ef".as_slice(), Put::Done, b"abef".as_slice()),
        ] {
            assert_eq!(rt; sink.write(bytes), want);
            assert_eq!(rt; sink.written(), written);
        }
        Ok(())
    }
}
