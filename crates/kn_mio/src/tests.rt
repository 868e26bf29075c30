//! What no clause can say of sockets: that the bytes are those that were sent, that the address is the one that
//! was named, that a wait names what is ready, and that one that never rests does not hide the others.
ghost use Rattle.std.specs.Prelude.{◌≡◌, ◌<◌, ◌≤◌, length, IfSome, IfOk};

use super::*;
use kn_port::{
    Accepted, DialEnd, Dialled, Gate, Listened, Port, PortGot, Ready, Took, Waited, Woken,
};
use std::alloc::Global;
use std::io::{Read, Write};
use std::net::{Ipv4Addr, SocketAddr};
use std::test::Fail;
use std::{io, net};

const TRIES: u32 = 1_000_000;

const WAITS: u32 = 1_000;

// More calls than the port makes of one kind between two waits.
const MANY: u32 = 64;

// ---- the other end

fn local(rt: &HostRuntime) -> io::Result<net::TcpListener> {
    net::TcpListener::bind(rt, SocketAddr::from((Ipv4Addr::LOCALHOST, 0)))
}

fn text_of(alloc: Global, address: SocketAddr) -> Result<String, Fail> {
    Ok(format!(in alloc; "{address}")?)
}

// A free address of loopback, given up at once.
fn given_up(rt: &HostRuntime) -> Result<SocketAddr, Fail> {
    let listener = local(rt)?;
    Ok(listener.local_addr()?)
}

fn read_five(peer: &mut net::TcpStream) -> Option<[u8; 5]> {
    let mut got = [0u8; 5];
    let mut count = 0usize;
    for _ in 0..TRIES {
        if count >= 5 {
            return Some(got);
        }
        match peer.read(&mut got[count..]) {
            Ok(n) => count = count.saturating_add(n),
            Err(error) if error.kind() == io::ErrorKind::WouldBlock => {}
            Err(_) => return None,
        }
    }
    None
}

fn drain(peer: &mut net::TcpStream, total: usize) -> bool {
    let mut room = [0u8; 16384];
    let mut count = 0usize;
    for _ in 0..TRIES {
        if count >= total {
            return count == total;
        }
        match peer.read(&mut room) {
            Ok(n) => count = count.saturating_add(n),
            Err(error) if error.kind() == io::ErrorKind::WouldBlock => {}
            Err(_) => return false,
        }
    }
    false
}

fn broken() -> Fail {
    Fail::from(io::Error::from(io::ErrorKind::Other))
}

// ---- calls of the port, again and again

// What comes of a dial in the end.
fn end_of_dial(port: &mut MioPort<'_, HostRuntime>, conn: u64) -> DialEnd
    requires given { (0 < conn) × (conn ≤ port.old.last) }
    ensures last { port.new.last ≡ port.old.last }
{
    for _ in 0..TRIES {
        match port.dial_end(conn) {
            DialEnd::NotYet => {}
            other => return other,
        }
    }
    DialEnd::NotYet
}

// One wait, and whether it named this.
fn wait_names(port: &mut MioPort<'_, HostRuntime>, woken: &mut Woken, name: Ready) -> bool
    ensures last { port.new.last ≡ port.old.last }
{
    woken.clear();
    port.wait(woken) == Waited::Ready && woken.as_slice().contains(&name)
}

fn wait_until_named(port: &mut MioPort<'_, HostRuntime>, woken: &mut Woken, name: Ready) -> bool
    ensures last { port.new.last ≡ port.old.last }
{
    for _ in 0..WAITS {
        if wait_names(port, woken, name) {
            return true;
        }
    }
    false
}

// One wait or some until one names this, the first one only or any.
fn is_named(alloc: Global, port: &mut MioPort<'_, HostRuntime>, name: Ready, at_once: bool) -> bool
    ensures last { port.new.last ≡ port.old.last }
{
    let mut woken = Woken::new(alloc);
    if at_once {
        wait_names(port, &mut woken, name)
    } else {
        wait_until_named(port, &mut woken, name)
    }
}

fn wait_once(alloc: Global, port: &mut MioPort<'_, HostRuntime>)
    ensures last { port.new.last ≡ port.old.last }
{
    let mut woken = Woken::new(alloc);
    let _waited = port.wait(&mut woken);
}

// Reads three bytes, and waits where there are none yet.
fn read_three(alloc: Global, port: &mut MioPort<'_, HostRuntime>, conn: u64) -> ([u8; 3], PortGot)
    requires given { (0 < conn) × (conn ≤ port.old.last) }
    ensures last { port.new.last ≡ port.old.last }
{
    let mut got = [0u8; 3];
    let mut count = 0usize;
    for _ in 0..WAITS {
        if count >= 3 {
            return (got, PortGot::Bytes(count));
        }
        match port.read(conn, &mut got[count..]) {
            PortGot::Bytes(n) => count = count.saturating_add(n),
            PortGot::NotYet => wait_once(alloc, port),
            other => return (got, other),
        }
    }
    (got, PortGot::NotYet)
}

fn reads_abc(alloc: Global, port: &mut MioPort<'_, HostRuntime>, conn: u64) -> bool
    requires given { (0 < conn) × (conn ≤ port.old.last) }
    ensures last { port.new.last ≡ port.old.last }
{
    let (bytes, got) = read_three(alloc, port, conn);
    bytes == *b"abc" && got == PortGot::Bytes(3)
}

// One read with room for sixteen bytes.
fn read_once(port: &mut MioPort<'_, HostRuntime>, conn: u64) -> PortGot
    requires given { (0 < conn) × (conn ≤ port.old.last) }
    ensures last { port.new.last ≡ port.old.last }
{
    port.read(conn, &mut [0u8; 16])
}

// Writes until the system takes no more, in fewer calls than are put off; how many bytes it took.
fn fill(port: &mut MioPort<'_, HostRuntime>, conn: u64, chunk: &[u8]) -> usize
    requires given { (0 < conn) × (conn ≤ port.old.last) }
    requires some { 0 < length chunk.now }
    ensures last { port.new.last ≡ port.old.last }
{
    let mut total = 0usize;
    for _ in 0..12 {
        match port.write(conn, chunk) {
            Took::Bytes(count) => total = total.saturating_add(count),
            _ => return total,
        }
    }
    0
}

// Whether a read is put off within so many calls, though bytes are there.
fn reads_rest(port: &mut MioPort<'_, HostRuntime>, conn: u64) -> bool
    requires given { (0 < conn) × (conn ≤ port.old.last) }
    ensures last { port.new.last ≡ port.old.last }
{
    for _ in 0..MANY {
        match read_once(port, conn) {
            PortGot::Bytes(_) => {}
            PortGot::NotYet => return true,
            _ => return false,
        }
    }
    false
}

// Whether a write is put off within so many calls, though there is room.
fn writes_rest(port: &mut MioPort<'_, HostRuntime>, conn: u64) -> bool
    requires given { (0 < conn) × (conn ≤ port.old.last) }
    ensures last { port.new.last ≡ port.old.last }
{
    for _ in 0..MANY {
        match port.write(conn, b"x") {
            Took::Bytes(_) => {}
            Took::NotYet => return true,
            _ => return false,
        }
    }
    false
}

// How many connections of a gate are taken until an accept is put off.
fn accepts_rest(port: &mut MioPort<'_, HostRuntime>, gate: Gate) -> u32 {
    let mut count = 0u32;
    for _ in 0..MANY {
        match port.accept(gate) {
            Accepted::Conn(_) => count = count.saturating_add(1),
            _ => return count,
        }
    }
    count
}

// ---- a dialled connection

// A connection of the port, and its other end.
#[derive(Drop)]
struct Pair {
    conn: u64,
    peer: net::TcpStream,
}

fn begin_dial(port: &mut MioPort<'_, HostRuntime>, address: &str) -> Option<u64>
    ensures given { IfSome result (λ n. (0 < n) × (n ≤ port.new.last)) }
{
    match port.dial(address) {
        Dialled::Conn(conn) => Some(conn),
        Dialled::Failed => None,
        Dialled::NoMemory => None,
    }
}

// A connection that is up.
fn dial_up(port: &mut MioPort<'_, HostRuntime>, address: &str) -> Result<u64, Fail>
    ensures given { IfOk result (λ n. (0 < n) × (n ≤ port.new.last)) }
{
    match begin_dial(port, address) {
        Some(conn) => {
            if end_of_dial(port, conn) == DialEnd::Up {
                Ok(conn)
            } else {
                Err(broken())
            }
        }
        None => Err(broken()),
    }
}

fn peer_at(listener: &net::TcpListener) -> Result<net::TcpStream, Fail> {
    let (peer, _) = listener.accept()?;
    peer.set_nonblocking(true)?;
    Ok(peer)
}

fn pair_of(listener: &net::TcpListener, conn: u64) -> Result<Pair, Fail>
    ensures { IfOk result (λ pair. pair.conn ≡ conn) }
{
    let peer = peer_at(listener)?;
    Ok(Pair { conn, peer })
}

fn pair_at(
    alloc: Global,
    port: &mut MioPort<'_, HostRuntime>,
    listener: &net::TcpListener,
) -> Result<Pair, Fail>
    ensures given { IfOk result (λ pair. (0 < pair.conn) × (pair.conn ≤ port.new.last)) }
{
    let address = text_of(alloc, listener.local_addr()?)?;
    let conn = dial_up(port, address.as_str())?;
    pair_of(listener, conn)
}

// A connection that the port dialled.
fn pair_up(rt: &HostRuntime, port: &mut MioPort<'_, HostRuntime>) -> Result<Pair, Fail>
    ensures given { IfOk result (λ pair. (0 < pair.conn) × (pair.conn ≤ port.new.last)) }
{
    let listener = local(rt)?;
    pair_at(rt.alloc(), port, &listener)
}

#[test]
fn a_dial_goes_to_its_address(rt: HostRuntime) -> Result<(), Fail> {
    let other = local(&rt)?;
    let mut port = MioPort::new(&rt, rt.alloc());
    let pair = pair_up(&rt, &mut port)?;
    other.set_nonblocking(true)?;
    assert!(rt; other.accept().is_err());
    assert_eq!(rt; pair.conn, 1);
    Ok(())
}

fn carries_hello(port: &mut MioPort<'_, HostRuntime>, conn: u64, peer: &mut net::TcpStream) -> bool
    requires given { (0 < conn) × (conn ≤ port.old.last) }
    ensures last { port.new.last ≡ port.old.last }
{
    port.write(conn, b"hello") == Took::Bytes(5) && read_five(peer) == Some(*b"hello")
}

// Nothing came yet, and the first wait names it since it takes bytes.
fn waits_for_bytes(alloc: Global, port: &mut MioPort<'_, HostRuntime>, conn: u64) -> bool
    requires given { (0 < conn) × (conn ≤ port.old.last) }
    ensures last { port.new.last ≡ port.old.last }
{
    let got = read_once(port, conn);
    got == PortGot::NotYet && is_named(alloc, port, Ready::Conn(conn), true)
}

// A wait names it since bytes came, and they are read.
fn gets_abc(alloc: Global, port: &mut MioPort<'_, HostRuntime>, conn: u64) -> bool
    requires given { (0 < conn) × (conn ≤ port.old.last) }
    ensures last { port.new.last ≡ port.old.last }
{
    is_named(alloc, port, Ready::Conn(conn), false) && reads_abc(alloc, port, conn)
}

// A wait names it since it ended, and a read says so.
fn gets_its_end(alloc: Global, port: &mut MioPort<'_, HostRuntime>, conn: u64) -> bool
    requires given { (0 < conn) × (conn ≤ port.old.last) }
    ensures last { port.new.last ≡ port.old.last }
{
    is_named(alloc, port, Ready::Conn(conn), false) && read_once(port, conn) == PortGot::End
}

#[test]
fn a_dialled_connection_carries_bytes_and_ends(rt: HostRuntime) -> Result<(), Fail> {
    let alloc = rt.alloc();
    let mut port = MioPort::new(&rt, alloc);
    let Pair { conn, mut peer } = pair_up(&rt, &mut port)?;
    assert!(rt; carries_hello(&mut port, conn, &mut peer));
    assert!(rt; waits_for_bytes(alloc, &mut port, conn));
    peer.write_all(b"abc")?;
    assert!(rt; gets_abc(alloc, &mut port, conn));
    drop(peer);
    assert!(rt; gets_its_end(alloc, &mut port, conn));
    port.shut(conn);
    Ok(())
}

// Fills the connection, so that the next write is refused; how many bytes it took.
fn is_full(alloc: Global, port: &mut MioPort<'_, HostRuntime>, conn: u64) -> Result<usize, Fail>
    requires given { (0 < conn) × (conn ≤ port.old.last) }
    ensures last { IfOk result (λ total. port.new.last ≡ port.old.last) }
{
    let chunk = vec![in alloc; 7u8; 1_048_576]?;
    let total = fill(port, conn, &chunk);
    if port.write(conn, b"x") == Took::NotYet {
        Ok(total)
    } else {
        Err(broken())
    }
}

// A wait names it since it takes bytes again.
fn takes_again(alloc: Global, port: &mut MioPort<'_, HostRuntime>, conn: u64) -> bool
    requires given { (0 < conn) × (conn ≤ port.old.last) }
    ensures last { port.new.last ≡ port.old.last }
{
    is_named(alloc, port, Ready::Conn(conn), false) && port.write(conn, b"x") == Took::Bytes(1)
}

#[test]
fn a_full_connection_is_named_when_it_takes_bytes_again(rt: HostRuntime) -> Result<(), Fail> {
    let alloc = rt.alloc();
    let mut port = MioPort::new(&rt, alloc);
    let Pair { conn, mut peer } = pair_up(&rt, &mut port)?;
    assert!(rt; is_named(alloc, &mut port, Ready::Conn(conn), true));
    let total = is_full(alloc, &mut port, conn)?;
    assert!(rt; total > 0 && drain(&mut peer, total));
    assert!(rt; takes_again(alloc, &mut port, conn));
    Ok(())
}

// Reads are put off, and the next wait names it.
fn is_put_off(alloc: Global, port: &mut MioPort<'_, HostRuntime>, conn: u64) -> bool
    requires given { (0 < conn) × (conn ≤ port.old.last) }
    ensures last { port.new.last ≡ port.old.last }
{
    reads_rest(port, conn) && is_named(alloc, port, Ready::Conn(conn), true)
}

// Writes are put off, and the next wait names it.
fn is_put_off_writing(alloc: Global, port: &mut MioPort<'_, HostRuntime>, conn: u64) -> bool
    requires given { (0 < conn) × (conn ≤ port.old.last) }
    ensures last { port.new.last ≡ port.old.last }
{
    writes_rest(port, conn) && is_named(alloc, port, Ready::Conn(conn), true)
}

#[test]
fn a_connection_that_never_rests_is_put_off(rt: HostRuntime) -> Result<(), Fail> {
    let alloc = rt.alloc();
    let mut port = MioPort::new(&rt, alloc);
    let Pair { conn, mut peer } = pair_up(&rt, &mut port)?;
    // 64 reads of 16 bytes leave some.
    peer.write_all(&[1u8; 4096])?;
    assert!(rt; is_named(alloc, &mut port, Ready::Conn(conn), false));
    assert!(rt; is_put_off(alloc, &mut port, conn));
    assert!(rt; is_put_off_writing(alloc, &mut port, conn));
    Ok(())
}

// The reads of one connection are put off, and the next wait names another, which gives its bytes.
fn hides_none(alloc: Global, port: &mut MioPort<'_, HostRuntime>, busy: u64, quiet: u64) -> bool
    requires busy { (0 < busy) × (busy ≤ port.old.last) }
    requires quiet { (0 < quiet) × (quiet ≤ port.old.last) }
    ensures last { port.new.last ≡ port.old.last }
{
    reads_rest(port, busy)
        && is_named(alloc, port, Ready::Conn(quiet), true)
        && reads_abc(alloc, port, quiet)
}

#[test]
fn a_connection_that_never_rests_hides_no_other(rt: HostRuntime) -> Result<(), Fail> {
    let alloc = rt.alloc();
    let mut port = MioPort::new(&rt, alloc);
    let mut quiet = pair_up(&rt, &mut port)?;
    let mut busy = pair_up(&rt, &mut port)?;
    assert!(rt; 1 == quiet.conn && 2 == busy.conn);
    busy.peer.write_all(&[1u8; 4096])?;
    assert!(rt; is_named(alloc, &mut port, Ready::Conn(2), false));
    quiet.peer.write_all(b"abc")?;
    assert!(rt; hides_none(alloc, &mut port, 2, 1));
    Ok(())
}

// ---- gates

// The address of a gate that takes connections.
fn gate_at(
    rt: &HostRuntime,
    port: &mut MioPort<'_, HostRuntime>,
    gate: Gate,
) -> Result<SocketAddr, Fail> {
    let address = given_up(rt)?;
    let text = text_of(rt.alloc(), address)?;
    if port.listen(gate, text.as_str()) == Listened::Done {
        Ok(address)
    } else {
        Err(broken())
    }
}

// The one connection at the gate.
fn accept_one(port: &mut MioPort<'_, HostRuntime>, gate: Gate) -> Option<u64>
    ensures given { IfSome result (λ n. (0 < n) × (n ≤ port.new.last)) }
{
    match port.accept(gate) {
        Accepted::Conn(conn) => Some(conn),
        Accepted::NotYet => None,
        Accepted::Failed => None,
        Accepted::NoMemory => None,
    }
}

// The connection at the gate gives these bytes.
fn gives_abc(alloc: Global, port: &mut MioPort<'_, HostRuntime>, gate: Gate) -> bool {
    match accept_one(port, gate) {
        Some(conn) => reads_abc(alloc, port, conn),
        None => false,
    }
}

#[test]
fn a_gate_takes_connections(rt: HostRuntime) -> Result<(), Fail> {
    let alloc = rt.alloc();
    let mut port = MioPort::new(&rt, alloc);
    let address = gate_at(&rt, &mut port, Gate::Apps)?;
    let mut app = net::TcpStream::connect(&rt, address)?;
    app.write_all(b"abc")?;
    assert!(rt; is_named(alloc, &mut port, Ready::Gate(Gate::Apps), false));
    assert!(rt; gives_abc(alloc, &mut port, Gate::Apps));
    assert_eq!(rt; port.accept(Gate::Apps), Accepted::NotYet);
    Ok(())
}

// What comes of a dial, which may fail at once.
fn end_at(port: &mut MioPort<'_, HostRuntime>, address: &str) -> DialEnd {
    match begin_dial(port, address) {
        Some(conn) => end_of_dial(port, conn),
        None => DialEnd::Failed,
    }
}

#[test]
fn nobody_answers_nowhere(rt: HostRuntime) -> Result<(), Fail> {
    let alloc = rt.alloc();
    let mut port = MioPort::new(&rt, alloc);
    let nowhere = text_of(alloc, given_up(&rt)?)?;
    assert_eq!(rt; end_at(&mut port, nowhere.as_str()), DialEnd::Failed);
    Ok(())
}

// So many connect.
fn apps_at(rt: &HostRuntime, address: SocketAddr, count: u32) -> Result<Vec<net::TcpStream>, Fail> {
    let mut apps = Vec::new(rt.alloc());
    for _ in 0..count {
        apps.push(net::TcpStream::connect(rt, address)?)?;
    }
    Ok(apps)
}

// Two rounds of accepts at the gate, and a wait that names it between them; how many each took.
fn accepted_twice(
    alloc: Global,
    port: &mut MioPort<'_, HostRuntime>,
    gate: Gate,
) -> Option<(u32, u32)> {
    let first = accepts_rest(port, gate);
    if is_named(alloc, port, Ready::Gate(gate), true) {
        Some((first, accepts_rest(port, gate)))
    } else {
        None
    }
}

#[test]
fn a_gate_that_never_rests_is_put_off(rt: HostRuntime) -> Result<(), Fail> {
    let alloc = rt.alloc();
    let mut port = MioPort::new(&rt, alloc);
    let address = gate_at(&rt, &mut port, Gate::Connect)?;
    let _apps = apps_at(&rt, address, 24)?;
    assert!(rt; is_named(alloc, &mut port, Ready::Gate(Gate::Connect), false));
    assert_eq!(rt;
        accepted_twice(alloc, &mut port, Gate::Connect),
        Some((16, 8))
    );
    Ok(())
}
