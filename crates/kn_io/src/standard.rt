ghost use Rattle.std.specs.Prelude.{◌≡◌};
ghost use Rattle.kn_io.specs.Standard.{source_reader, source_faults, sink_writer, sink_faults};

use crate::numbers::count_on;
use crate::{Got, Put, Sink, Source};
use std::io::{Read, Write};

/// A source over a reader of std. It tells the bytes that the reader tells, and counts each `Err` as a fault.
#[derive(Drop)]
pub struct StdSource<R: Drop> {
    reader: R,
    faults: u64,
}

impl<R: Read + Drop> StdSource<R> {
    pub fn new(reader: R) -> StdSource<R>
        ensures reader { source_reader result ≡ reader }
        ensures faults { source_faults result ≡ 0 }
    {
        StdSource { reader, faults: 0 }
    }
}

impl<R: Read + Drop> Source for StdSource<R> {
    ghost faults = { λ s. s.faults };

    ghost left = { λ s. R.remaining s.reader };

    fn read(&mut self, room: &mut [u8]) -> Got {
        match self.reader.read(room) {
            Ok(0) => Got::End,
            Ok(count) => Got::Bytes(count),
            Err(_) => {
                self.faults = count_on(self.faults);
                Got::Failed
            }
        }
    }
}

/// A sink over a writer of std. It tells the bytes that the writer tells, and counts as faults each `Err` and
/// each write that took nothing of bytes that there were.
#[derive(Drop)]
pub struct StdSink<W: Drop> {
    writer: W,
    faults: u64,
}

impl<W: Write + Drop> StdSink<W> {
    pub fn new(writer: W) -> StdSink<W>
        ensures writer { sink_writer result ≡ writer }
        ensures faults { sink_faults result ≡ 0 }
    {
        StdSink { writer, faults: 0 }
    }
}

impl<W: Write + Drop> Sink for StdSink<W> {
    ghost faults = { λ s. s.faults };

    ghost written = { λ s. W.contents s.writer };

    fn write(&mut self, bytes: &[u8]) -> Put {
        let mut rest = bytes;
        while !rest.is_empty() {
            match self.writer.write(rest) {
                Ok(0) | Err(_) => {
                    self.faults = count_on(self.faults);
                    return Put::Failed;
                }
                Ok(count) => {
                    let (_, after) = rest.split_at(count);
                    rest = after;
                }
            }
        }
        Put::Done
    }
}

#[cfg(test)]
mod tests {
    use super::*;

    #[test]
    fn passes_on_what_std_gives_and_takes(rt: HostRuntime) {
        let mut source = StdSource::new(b"abc".as_slice());
        let mut room = [0u8; 2];
        assert_eq!(rt; source.read(&mut room), Got::Bytes(2));
        assert_eq!(rt; room, [97, 98]);
        assert_eq!(rt; source.read(&mut room), Got::Bytes(1));
        assert_eq!(rt; source.read(&mut room), Got::End);
        let mut sink = StdSink::new(Vec::new(rt.alloc()));
        assert_eq!(rt; sink.write(b"abc"), Put::Done);
        assert_eq!(rt; sink.write(b""), Put::Done);
    }
}
