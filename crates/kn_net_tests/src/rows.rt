//! Programs over a port in memory, by rows of what comes, how each ends, and what its calls were.
use kn_io::{Blob, MemSink, NoMemory};
use kn_net::run_net;
use kn_port::{Accepted, Dialled, Entry, Gate, MemPort, PortGot, Tick};
use std::alloc::Global;
use std::sync::Wait;
use std::test::Fail;

const SERVER: &[&str] = &["server", "--agents", "a", "--clients", "b"];

const ONE_TURN: &[&str] = &["server", "--agents", "a", "--clients", "b", "--turns", "1"];

const AGENT: &[&str] = &["agent", "--server", "a"];

const CLIENT: &[&str] = &[
    "client",
    "--server",
    "a",
    "--listen",
    "b",
    "--address",
    "c:1",
];

// A server's opening, the head of its answer on stream 1, and DATA with the reply of connectID 1 to the dial 1.
const REPLY: &[u8] =
    b"\0\0\x0c\x04\0\0\0\0\0\0\x03\0\0\0\x64\0\x06\0\0\x40\0\0\0\x04\x08\0\0\0\0\0\0\x62\xff\x9d\0\0\x21\x01\x04\0\0\0\x01\x20\x88\0\x0ccontent-type\x10application/grpc\0\0\x0d\0\0\0\0\0\x01\0\0\0\0\x08\x08\x01\x1a\x04\x10\x01\x18\x01";

// The same opening and head, and DATA with a request to dial `a:1` by tcp, of random 1.
const DIAL: &[u8] =
    b"\0\0\x0c\x04\0\0\0\0\0\0\x03\0\0\0\x64\0\x06\0\0\x40\0\0\0\x04\x08\0\0\0\0\0\0\x62\xff\x9d\0\0\x21\x01\x04\0\0\0\x01\x20\x88\0\x0ccontent-type\x10application/grpc\0\0\x13\0\0\0\0\0\x01\0\0\0\0\x0e\x12\x0c\x0a\x03tcp\x12\x03a:1\x18\x01";

// DATA with the reply `dial failed` to it.
const REFUSAL: &[u8] =
    b"\0\0\x18\0\0\0\0\0\x01\0\0\0\0\x13\x08\x01\x1a\x0f\x0a\x0bdial failed\x18\x01";

// What the program of the words ends with over the port, and the message that it tells.
fn run<R: Wait>(rt: &R, alloc: Global, words: &[&str], port: &mut MemPort) -> (u8, MemSink) {
    let mut err = MemSink::new(alloc, Vec::new(alloc));
    let status = run_net(rt, alloc, words, port, &mut err);
    (status, err)
}

// What the program of the words ends with over the port.
fn status_of<R: Wait>(rt: &R, alloc: Global, words: &[&str], port: &mut MemPort) -> u8 {
    let (status, _) = run(rt, alloc, words, port);
    status
}

fn mark_of_accept(answer: Accepted) -> u8 {
    match answer {
        Accepted::Conn(1) => b'1',
        Accepted::Conn(2) => b'2',
        Accepted::Conn(_) => b'?',
        Accepted::NotYet => b'-',
        Accepted::Failed => b'x',
        Accepted::NoMemory => b'?',
    }
}

fn mark_of_read(conn: u64, answer: PortGot) -> u8 {
    match (conn, answer) {
        (1, PortGot::Bytes(98)) => b'r',
        (2, _) => b'R',
        _ => b'-',
    }
}

fn mark_of_shut(conn: u64) -> u8 {
    match conn {
        1 => b's',
        2 => b'S',
        _ => b'?',
    }
}

fn mark_of_dial(address: &str, answer: Dialled) -> u8 {
    match answer {
        Dialled::Failed => { if address == "a:1" { b'f' } else { b'?' } }
        _ => b'-',
    }
}

// What an entry is to the rows: a connection or a failure at a gate, a read of the reply or of connection 2, a
// connection that is shut, a dial of `a:1` that fails.
fn mark_of(entry: &Entry) -> u8 {
    match entry {
        Entry::Accept { answer, .. } => mark_of_accept(*answer),
        Entry::Read { conn, answer, .. } => mark_of_read(*conn, *answer),
        Entry::Shut { conn } => mark_of_shut(*conn),
        Entry::Dial { address, answer } => mark_of_dial(address.as_str(), *answer),
        _ => b'-',
    }
}

fn count(entries: &[Entry], mark: u8) -> usize {
    let mut count = 0usize;
    for entry in entries {
        if mark_of(entry) == mark {
            count = count.saturating_add(1);
        }
    }
    count
}

// Whether an entry has the second mark, and one before the first such has the first mark.
fn comes_behind(entries: &[Entry], first: u8, second: u8) -> bool {
    let mut seen = false;
    for entry in entries {
        let mark = mark_of(entry);
        if mark == second {
            return seen;
        }
        if mark == first {
            seen = true;
        }
    }
    false
}

// What was written on connection 1.
fn written(alloc: Global, entries: &[Entry]) -> Result<Blob, NoMemory> {
    let mut all = Blob::new(alloc);
    for entry in entries {
        if let Entry::Write { conn: 1, bytes, .. } = entry {
            all.append(bytes.as_slice())?;
        }
    }
    Ok(all)
}

// How many connections were shut, and the last of them.
fn shut(entries: &[Entry]) -> (usize, u64) {
    let mut count = 0usize;
    let mut last = 0u64;
    for entry in entries {
        if let Entry::Shut { conn } = entry {
            count = count.saturating_add(1);
            last = *conn;
        }
    }
    (count, last)
}

fn one_tick(alloc: Global, tick: Tick) -> Result<Vec<Tick>, NoMemory> {
    let mut ticks = Vec::new(alloc);
    ticks.push(tick)?;
    Ok(ticks)
}

// The connection to the server is up, and takes so many bytes.
fn up_with_room(alloc: Global, room: usize) -> Result<Vec<Tick>, NoMemory> {
    let mut ticks = Vec::new(alloc);
    ticks.push(Tick::Up(1))?;
    ticks.push(Tick::Room { conn: 1, room })?;
    Ok(ticks)
}

#[test]
fn a_server_ends_where_it_cannot_listen(rt: HostRuntime) {
    let alloc = rt.alloc();
    let mut port = MemPort::new(alloc, true, Vec::new(alloc));
    let (status, err) = run(&rt, alloc, SERVER, &mut port);
    assert_eq!(rt; status, 8);
    assert_eq!(rt; err.written(), b"kn: cannot listen\n".as_slice());
}

#[test]
fn a_server_ends_where_it_cannot_wait(rt: HostRuntime) {
    let alloc = rt.alloc();
    let mut port = MemPort::new(alloc, false, Vec::new(alloc));
    let (status, err) = run(&rt, alloc, SERVER, &mut port);
    assert_eq!(rt; status, 9);
    assert_eq!(rt; err.written(), b"kn: wait fault\n".as_slice());
}

#[test]
fn a_server_ends_at_its_last_turn(rt: HostRuntime) -> Result<(), Fail> {
    let alloc = rt.alloc();
    let ticks = one_tick(alloc, Tick::Arrive(Gate::Agents))?;
    let (status, err) = run(&rt, alloc, ONE_TURN, &mut MemPort::new(alloc, false, ticks));
    assert_eq!(rt; status, 11);
    assert_eq!(rt; err.written(), b"kn: turn bound\n".as_slice());
    Ok(())
}

#[test]
fn an_agent_does_not_end_where_no_dial_fails(rt: HostRuntime) -> Result<(), Fail> {
    let alloc = rt.alloc();
    let ticks = one_tick(alloc, Tick::FailDial)?;
    let mut port = MemPort::new(alloc, false, ticks);
    assert_eq!(rt; status_of(&rt, alloc, AGENT, &mut port), 9);
    Ok(())
}

#[test]
fn an_agent_ends_with_its_server(rt: HostRuntime) -> Result<(), Fail> {
    let alloc = rt.alloc();
    let mut ticks = up_with_room(alloc, 100_000)?;
    ticks.push(Tick::End(1))?;
    let (status, err) = run(&rt, alloc, AGENT, &mut MemPort::new(alloc, false, ticks));
    assert_eq!(rt; status, 10);
    assert_eq!(rt; err.written(), b"kn: server lost\n".as_slice());
    Ok(())
}

#[test]
fn words_of_no_program_do_nothing(rt: HostRuntime) {
    let alloc = rt.alloc();
    let mut port = MemPort::new(alloc, false, Vec::new(alloc));
    let (status, err) = run(&rt, alloc, &["server"], &mut port);
    assert_eq!(rt; status, 2);
    assert_eq!(rt; err.written(), b"kn: usage\n".as_slice());
    assert!(rt; port.journal().is_empty());
}

#[test]
fn an_accept_that_failed_is_tried_again(rt: HostRuntime) -> Result<(), Fail> {
    let alloc = rt.alloc();
    let mut ticks = one_tick(alloc, Tick::FailAccept(Gate::Agents))?;
    ticks.push(Tick::Arrive(Gate::Agents))?;
    let mut port = MemPort::new(alloc, false, ticks);
    assert_eq!(rt; status_of(&rt, alloc, SERVER, &mut port), 9);
    assert_eq!(rt; count(port.journal(), b'x'), 1);
    assert!(rt; comes_behind(port.journal(), b'x', b'1'));
    Ok(())
}

#[test]
fn a_read_that_failed_ends_its_own_connection(rt: HostRuntime) -> Result<(), Fail> {
    let alloc = rt.alloc();
    let mut ticks = one_tick(alloc, Tick::Arrive(Gate::Clients))?;
    ticks.push(Tick::Arrive(Gate::Clients))?;
    ticks.push(Tick::FailRead(1))?;
    let mut port = MemPort::new(alloc, false, ticks);
    assert_eq!(rt; status_of(&rt, alloc, SERVER, &mut port), 9);
    assert!(rt; comes_behind(port.journal(), b'2', b's'));
    assert_eq!(rt; count(port.journal(), b'S'), 0);
    Ok(())
}

#[test]
fn a_write_that_failed_ends_an_agent(rt: HostRuntime) -> Result<(), Fail> {
    let alloc = rt.alloc();
    let mut ticks = up_with_room(alloc, 10)?;
    ticks.push(Tick::FailWrite(1))?;
    let mut port = MemPort::new(alloc, false, ticks);
    assert_eq!(rt; status_of(&rt, alloc, AGENT, &mut port), 10);
    assert_eq!(rt; written(alloc, port.journal())?.len(), 10);
    Ok(())
}

#[test]
fn a_refused_dial_ends_an_agent(rt: HostRuntime) -> Result<(), Fail> {
    let alloc = rt.alloc();
    let ticks = one_tick(alloc, Tick::Refuse(1))?;
    let mut port = MemPort::new(alloc, false, ticks);
    assert_eq!(rt; status_of(&rt, alloc, AGENT, &mut port), 10);
    Ok(())
}

fn ticks_of_a_lost_app(alloc: Global) -> Result<Vec<Tick>, NoMemory> {
    let mut ticks = up_with_room(alloc, 100_000)?;
    let bytes = Blob::of(alloc, REPLY)?;
    ticks.push(Tick::Arrive(Gate::Apps))?;
    ticks.push(Tick::Bytes { conn: 1, bytes })?;
    ticks.push(Tick::FailRead(2))?;
    Ok(ticks)
}

#[test]
fn an_app_is_read_once_it_has_its_reply(rt: HostRuntime) -> Result<(), Fail> {
    let alloc = rt.alloc();
    let mut port = MemPort::new(alloc, false, ticks_of_a_lost_app(alloc)?);
    assert_eq!(rt; status_of(&rt, alloc, CLIENT, &mut port), 9);
    assert!(rt; comes_behind(port.journal(), b'r', b'R'));
    assert!(rt; comes_behind(port.journal(), b'R', b'S'));
    assert_eq!(rt; count(port.journal(), b's'), 0);
    Ok(())
}

#[test]
fn a_wait_that_failed_ends_a_server(rt: HostRuntime) -> Result<(), Fail> {
    let alloc = rt.alloc();
    let ticks = one_tick(alloc, Tick::FailWait)?;
    let mut port = MemPort::new(alloc, false, ticks);
    assert_eq!(rt; status_of(&rt, alloc, SERVER, &mut port), 9);
    Ok(())
}

fn ticks_of_a_failed_dial(alloc: Global) -> Result<Vec<Tick>, NoMemory> {
    let mut ticks = up_with_room(alloc, 100_000)?;
    let bytes = Blob::of(alloc, DIAL)?;
    ticks.push(Tick::FailDial)?;
    ticks.push(Tick::Bytes { conn: 1, bytes })?;
    Ok(ticks)
}

#[test]
fn a_dial_that_failed_is_told(rt: HostRuntime) -> Result<(), Fail> {
    let alloc = rt.alloc();
    let mut port = MemPort::new(alloc, false, ticks_of_a_failed_dial(alloc)?);
    assert_eq!(rt; status_of(&rt, alloc, AGENT, &mut port), 9);
    assert_eq!(rt; count(port.journal(), b'f'), 1);
    assert!(rt;
        written(alloc, port.journal())?
            .as_slice()
            .ends_with(REFUSAL)
    );
    Ok(())
}

// So many connections come to the clients' gate.
fn arrivals(alloc: Global, count: usize) -> Result<Vec<Tick>, NoMemory> {
    let mut ticks = Vec::new(alloc);
    for _ in 0..count {
        ticks.push(Tick::Arrive(Gate::Clients))?;
    }
    Ok(ticks)
}

#[test]
fn eight_hundred_connections_stay(rt: HostRuntime) -> Result<(), Fail> {
    let alloc = rt.alloc();
    let mut port = MemPort::new(alloc, false, arrivals(alloc, 800)?);
    assert_eq!(rt; status_of(&rt, alloc, SERVER, &mut port), 9);
    assert_eq!(rt; shut(port.journal()), (0usize, 0u64));
    Ok(())
}

#[test]
fn one_connection_more_is_shut_at_once(rt: HostRuntime) -> Result<(), Fail> {
    let alloc = rt.alloc();
    let mut port = MemPort::new(alloc, false, arrivals(alloc, 801)?);
    assert_eq!(rt; status_of(&rt, alloc, SERVER, &mut port), 9);
    assert_eq!(rt; shut(port.journal()), (1usize, 801u64));
    Ok(())
}
