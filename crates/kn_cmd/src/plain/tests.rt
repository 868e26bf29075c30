use super::*;
use kn_io::{Blob, MemSink, MemSource, StdSink, StdSource};
use std::io;
use std::io::{Read, Write};
use std::process::Abort;
use std::test::Fail;

const REPLAY: &[&str] = &["replay", "default"];

const TUNNEL: &[u8] =
    b"agent -\nclient\napp 1 10.0.0.1:80\npass\nup 1\npass\nsend 1 68656c6c6f\npass\nanswer 1 6f6b\npass\n";

/// One run of the top call: its words, its input, the reads and the writes that are to fail, and what it gives.
#[derive(Clone, Copy)]
struct Run {
    words: &'static [&'static str],
    input: &'static [u8],
    failing_reads: &'static [u64],
    failing_writes: &'static [u64],
    status: u8,
    out: &'static str,
    err: &'static str,
}

const REPLAYS: [Run; 12] = [
    Run {
        words: REPLAY,
        input: TUNNEL,
        failing_reads: &[],
        failing_writes: &[],
        status: 0,
        out: "agents 1 clients 1 apps 1 dials 1 idle 0\napp 1 open sent 5 got 2 6f6b\ndial 1 link 1 app 1 open sent 2 got 5 68656c6c6f\ntables awaited 0 held 1 dials 0 connections 1\nquiet yes closed no\n",
        err: "",
    },
    Run {
        words: REPLAY,
        input: b"",
        failing_reads: &[],
        failing_writes: &[],
        status: 0,
        out: "agents 0 clients 0 apps 0 dials 0 idle 0\ntables awaited 0 held 0 dials 0 connections 0\nquiet yes closed yes\n",
        err: "",
    },
    Run {
        words: REPLAY,
        input: b"client\napp 1 a:1\npass",
        failing_reads: &[],
        failing_writes: &[],
        status: 0,
        out: "agents 0 clients 1 apps 1 dials 0 idle 0\napp 1 refused sent 0 got 0 - error no agent available\ntables awaited 0 held 0 dials 0 connections 0\nquiet yes closed yes\n",
        err: "",
    },
    Run {
        words: REPLAY,
        input: b"client\nagnet -\n",
        failing_reads: &[],
        failing_writes: &[],
        status: 3,
        out: "",
        err: "kn: line 2: unknown word\n",
    },
    Run {
        words: REPLAY,
        input: b"send 1 61\n",
        failing_reads: &[],
        failing_writes: &[],
        status: 3,
        out: "",
        err: "kn: line 1: unknown name\n",
    },
    Run {
        words: REPLAY,
        input: b"client\napp 1\n",
        failing_reads: &[],
        failing_writes: &[],
        status: 3,
        out: "",
        err: "kn: line 2: wrong count\n",
    },
    Run {
        words: REPLAY,
        input: b"client\nagent -\nagent x\n",
        failing_reads: &[],
        failing_writes: &[],
        status: 3,
        out: "",
        err: "kn: line 3: bad identifiers\n",
    },
    Run {
        words: REPLAY,
        input: TUNNEL,
        failing_reads: &[3],
        failing_writes: &[],
        status: 4,
        out: "",
        err: "kn: read fault\n",
    },
    Run {
        words: REPLAY,
        input: TUNNEL,
        failing_reads: &[],
        failing_writes: &[1],
        status: 5,
        out: "",
        err: "kn: write fault\n",
    },
    Run {
        words: &["replay"],
        input: b"",
        failing_reads: &[],
        failing_writes: &[],
        status: 2,
        out: "",
        err: "kn: usage\n",
    },
    Run {
        words: &["replay", "default,"],
        input: b"",
        failing_reads: &[],
        failing_writes: &[],
        status: 2,
        out: "",
        err: "kn: usage\n",
    },
    Run {
        words: &[],
        input: b"",
        failing_reads: &[],
        failing_writes: &[],
        status: 2,
        out: "",
        err: "kn: usage\n",
    },
];

const OTHERS: [Run; 12] = [
    Run {
        words: &["show"],
        input: b"",
        failing_reads: &[],
        failing_writes: &[],
        status: 0,
        out: "DIAL_REQ protocol= address= random=0\n",
        err: "",
    },
    Run {
        words: &["show"],
        input: b"\x08\x04\x22\x06\x08\x01\x1a\x02ab\x2a\x02\x08\x07\x22\x04\x1a\x02cd",
        failing_reads: &[],
        failing_writes: &[],
        status: 0,
        out: "DATA connectID=0 error= data=6364\n",
        err: "",
    },
    Run {
        words: &["show"],
        input: b"\x83",
        failing_reads: &[],
        failing_writes: &[],
        status: 3,
        out: "",
        err: "kn: offset 0: cut\n",
    },
    Run {
        words: &["show"],
        input: b"\x22\x03\x08\x01\x1a",
        failing_reads: &[],
        failing_writes: &[],
        status: 3,
        out: "",
        err: "kn: offset 4: bad length\n",
    },
    Run {
        words: &["frames"],
        input: b"PRI * HTTP/2.0\r\n\r\nSM\r\n\r\n\x00\x00\x0c\x04\x00\x00\x00\x00\x00\x00\x02\x00\x00\x00\x00\x00\x06\x00\x00\x40\x00",
        failing_reads: &[],
        failing_writes: &[],
        status: 0,
        out: "0 PREFACE length=24\n24 SETTINGS flags=00 stream=0 length=12\n",
        err: "",
    },
    Run {
        words: &["frames"],
        input: b"\x00\x40\x01\x00\x00\x00\x00\x00\x01",
        failing_reads: &[],
        failing_writes: &[],
        status: 3,
        out: "",
        err: "kn: offset 0: frame too long\n",
    },
    Run {
        words: &["frames"],
        input: b"\x00\x00\x08\x06",
        failing_reads: &[],
        failing_writes: &[],
        status: 3,
        out: "",
        err: "kn: offset 0: cut frame\n",
    },
    Run {
        words: &["route", "destHost,default", "db:80", "1"],
        input: b"!host=db\n\n",
        failing_reads: &[],
        failing_writes: &[],
        status: 0,
        out: "destHost 1\n",
        err: "",
    },
    Run {
        words: &["route", "destHost,default", "db:80", "1"],
        input: b"!host=db\nhost=db\n",
        failing_reads: &[],
        failing_writes: &[],
        status: 0,
        out: "destHost 2\n",
        err: "",
    },
    Run {
        words: &["route", "destHost,default", "db:80", "1"],
        input: b"",
        failing_reads: &[],
        failing_writes: &[],
        status: 0,
        out: "none\n",
        err: "",
    },
    Run {
        words: &["route", "default", "db:80", "1"],
        input: b"color=red\n",
        failing_reads: &[],
        failing_writes: &[],
        status: 3,
        out: "",
        err: "kn: line 1: bad identifiers\n",
    },
    Run {
        words: &["route", "x", "db:80", "1"],
        input: b"",
        failing_reads: &[],
        failing_writes: &[],
        status: 2,
        out: "",
        err: "kn: usage\n",
    },
];

fn check(rt: &impl Abort, alloc: Global, run: &Run) -> Result<(), Fail> {
    let mut source = MemSource::new(
        Blob::of(alloc, run.input)?,
        16,
        run.failing_reads.to_vec(alloc)?,
    );
    let mut out = MemSink::new(alloc, run.failing_writes.to_vec(alloc)?);
    let mut err = MemSink::new(alloc, Vec::new(alloc));
    let status = run_plain(alloc, run.words, &mut source, &mut out, &mut err);
    assert_eq!(rt; status, run.status);
    assert_eq!(rt; out.written(), run.out.as_bytes());
    assert_eq!(rt; err.written(), run.err.as_bytes());
    Ok(())
}

fn check_all(rt: &impl Abort, alloc: Global, runs: &[Run]) -> Result<(), Fail> {
    for run in runs {
        check(rt, alloc, run)?;
    }
    Ok(())
}

#[test]
fn replays_scripts_and_tells_every_fault(rt: HostRuntime) -> Result<(), Fail> {
    check_all(&rt, rt.alloc(), &REPLAYS)
}

#[test]
fn shows_packets_lists_frames_and_chooses_links(rt: HostRuntime) -> Result<(), Fail> {
    check_all(&rt, rt.alloc(), &OTHERS)
}

#[test]
fn refuses_a_script_of_too_many_lines(rt: HostRuntime) -> Result<(), Fail> {
    let lines = vec![in rt.alloc(); b'\n'; 10_001]?;
    let mut source = MemSource::new(Blob::of(rt.alloc(), &lines)?, 4096, Vec::new(rt.alloc()));
    let mut out = MemSink::new(rt.alloc(), Vec::new(rt.alloc()));
    let mut err = MemSink::new(rt.alloc(), Vec::new(rt.alloc()));
    let status = run_plain(rt.alloc(), REPLAY, &mut source, &mut out, &mut err);
    assert_eq!(rt; status, 6);
    assert_eq!(rt; err.written(), b"kn: input too long\n".as_slice());
    Ok(())
}

/// A reader and writer of std that gives one byte, and then fails, and takes nothing.
#[derive(Drop)]
struct Broken {
    was_read: bool,
}

impl Read for Broken {
    fn read(&mut self, buf: &mut [u8]) -> io::Result<usize> {
        if self.was_read || buf.is_empty() {
            return Err(io::Error::from(io::ErrorKind::BrokenPipe));
        }
        self.was_read = true;
        buf[0] = b'#';
        Ok(1)
    }
}

impl Write for Broken {
    fn write(&mut self, _buf: &[u8]) -> io::Result<usize> {
        Err(io::Error::from(io::ErrorKind::BrokenPipe))
    }

    fn flush(&mut self) -> io::Result<()> {
        Ok(())
    }
}

#[test]
fn tells_that_a_reader_of_std_failed(rt: HostRuntime) {
    let mut source = StdSource::new(Broken { was_read: false });
    let mut out = MemSink::new(rt.alloc(), Vec::new(rt.alloc()));
    let mut err = MemSink::new(rt.alloc(), Vec::new(rt.alloc()));
    let status = run_plain(rt.alloc(), REPLAY, &mut source, &mut out, &mut err);
    assert_eq!(rt; status, 4);
    assert_eq!(rt; err.written(), b"kn: read fault\n".as_slice());
}

#[test]
fn tells_that_a_writer_of_std_failed(rt: HostRuntime) -> Result<(), Fail> {
    let bytes = Blob::of(rt.alloc(), b"client\n")?;
    let mut source = MemSource::new(bytes, 16, Vec::new(rt.alloc()));
    let mut out = StdSink::new(Broken { was_read: false });
    let mut err = MemSink::new(rt.alloc(), Vec::new(rt.alloc()));
    let status = run_plain(rt.alloc(), REPLAY, &mut source, &mut out, &mut err);
    assert_eq!(rt; status, 5);
    assert_eq!(rt; err.written(), b"kn: write fault\n".as_slice());
    Ok(())
}
