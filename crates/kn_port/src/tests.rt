//! Each call with enough memory, by rows of what is asked and what is answered.
ghost use Rattle.std.specs.Prelude.{◌≡◌, ◌≤◌, length, true};

use super::*;
use kn_io::{Blob, NoMemory};
use std::alloc::Global;
use std::test::Fail;

fn mark_of_wait(waited: Waited, first: Option<&Ready>) -> u8 {
    match (waited, first) {
        (Waited::Ready, Some(Ready::Conn(1))) => b'1',
        (Waited::Ready, Some(Ready::Conn(2))) => b'2',
        (Waited::Failed, None) => b'x',
        _ => b'?',
    }
}

fn mark_of_read(got: PortGot, first: u8) -> u8 {
    match got {
        PortGot::Bytes(_) => first,
        PortGot::NotYet => b'-',
        PortGot::End => b'e',
        PortGot::Failed => b'x',
        PortGot::NoMemory => b'?',
    }
}

fn mark_of_write(took: Took) -> u8 {
    match took {
        Took::Bytes(5) => b'5',
        Took::Bytes(2) => b'2',
        Took::Bytes(_) => b'?',
        Took::NotYet => b'-',
        Took::Failed => b'x',
        Took::NoMemory => b'?',
    }
}

fn mark_of_dial(end: DialEnd) -> u8 {
    match end {
        DialEnd::Up => b'u',
        DialEnd::NotYet => b'-',
        DialEnd::Failed => b'x',
        DialEnd::NoMemory => b'?',
    }
}

// One call for the connection 1, by its letter: a read has room for four bytes, and a write has five.
fn answer_to(alloc: Global, port: &mut MemPort, question: u8) -> u8
    requires given { 1 ≤ length port.old.net.lines }
    ensures last { length port.new.net.lines ≡ length port.old.net.lines }
{
    match question {
        b'W' => {
            let mut ready = Woken::new(alloc);
            let waited = port.wait(&mut ready);
            mark_of_wait(waited, ready.as_slice().first())
        }
        b'r' => {
            let mut room = [b'.'; 4];
            let got = port.read(1, &mut room);
            mark_of_read(got, room[0])
        }
        b'w' => mark_of_write(port.write(1, b"abcde")),
        b'd' => mark_of_dial(port.dial_end(1)),
        _ => {
            port.shut(1);
            b's'
        }
    }
}

// The first connection comes to its gate.
fn arrives(alloc: Global, port: &mut MemPort) -> bool
    ensures { result ≡ true → 1 ≤ length port.new.net.lines }
{
    let gate = Ready::Gate(Gate::Agents);
    let mut ready = Woken::new(alloc);
    port.accept(Gate::Agents) == Accepted::NotYet
        && port.wait(&mut ready) == Waited::Ready
        && ready.as_slice().first() == Some(&gate)
        && port.accept(Gate::Agents) == Accepted::Conn(1)
}

// A listen and an accept fail where they are told to.
fn fails_at_its_gate(alloc: Global, port: &mut MemPort) -> bool {
    let mut ready = Woken::new(alloc);
    port.listen(Gate::Apps, "here:1") == Listened::Failed
        && port.wait(&mut ready) == Waited::Ready
        && port.accept(Gate::Apps) == Accepted::Failed
        && port.accept(Gate::Apps) == Accepted::NotYet
}

// A dial fails where it is told to, at a wait that names nothing, and the next one is the first connection.
fn dials(alloc: Global, port: &mut MemPort) -> bool
    ensures { result ≡ true → 1 ≤ length port.new.net.lines }
{
    let mut ready = Woken::new(alloc);
    port.wait(&mut ready) == Waited::Ready
        && ready.as_slice().is_empty()
        && port.dial("there:1") == Dialled::Failed
        && port.dial("there:1") == Dialled::Conn(1)
}

// How many calls are answered as they should be, from the first on.
fn count_right(alloc: Global, port: &mut MemPort, questions: &[u8], wants: &[u8]) -> usize
    requires given { 1 ≤ length port.old.net.lines }
{
    let mut count = 0usize;
    for question in questions {
        let answer = answer_to(alloc, port, *question);
        if wants.get(count) != Some(&answer) {
            return count;
        }
        count = count.saturating_add(1);
    }
    count
}

fn count_shuts(entries: &[Entry]) -> usize {
    let mut count = 0usize;
    for entry in entries {
        if matches!(entry, Entry::Shut { conn: 1 }) {
            count = count.saturating_add(1);
        }
    }
    count
}

fn ticks_of_a_connection(alloc: Global) -> Result<Vec<Tick>, NoMemory> {
    let mut ticks = Vec::new(alloc);
    let bytes = Blob::of(alloc, b"hello")?;
    ticks.push(Tick::Arrive(Gate::Agents))?;
    ticks.push(Tick::Bytes { conn: 1, bytes })?;
    ticks.push(Tick::Room { conn: 1, room: 7 })?;
    ticks.push(Tick::Bytes {
        conn: 2,
        bytes: Blob::new(alloc),
    })?;
    ticks.push(Tick::Refuse(1))?;
    ticks.push(Tick::End(1))?;
    ticks.push(Tick::FailRead(1))?;
    ticks.push(Tick::FailWrite(1))?;
    ticks.push(Tick::FailWait)?;
    Ok(ticks)
}

#[test]
fn a_connection_at_a_gate_answers_by_its_ticks(rt: HostRuntime) -> Result<(), Fail> {
    let alloc = rt.alloc();
    let mut port = MemPort::new(alloc, false, ticks_of_a_connection(alloc)?);
    assert!(rt; arrives(alloc, &mut port));
    let right = count_right(
        alloc,
        &mut port,
        b"rWrrrwWwwwWWdWrrWrWwWWss",
        b"-1ho--152-21u1ee1x1xxxss",
    );
    assert_eq!(rt; right, 24);
    assert_eq!(rt; count_shuts(port.journal()), 1);
    assert_eq!(rt; port.journal().len(), 26);
    Ok(())
}

fn ticks_of_a_dial(alloc: Global) -> Result<Vec<Tick>, NoMemory> {
    let mut ticks = Vec::new(alloc);
    ticks.push(Tick::FailAccept(Gate::Apps))?;
    ticks.push(Tick::FailDial)?;
    ticks.push(Tick::Up(1))?;
    ticks.push(Tick::Refuse(1))?;
    Ok(ticks)
}

#[test]
fn a_dial_answers_by_its_ticks(rt: HostRuntime) -> Result<(), Fail> {
    let alloc = rt.alloc();
    let mut port = MemPort::new(alloc, true, ticks_of_a_dial(alloc)?);
    assert!(rt; fails_at_its_gate(alloc, &mut port));
    assert!(rt; dials(alloc, &mut port));
    assert_eq!(rt; count_right(alloc, &mut port, b"dWdWdW", b"-1u1ux"), 6);
    Ok(())
}
