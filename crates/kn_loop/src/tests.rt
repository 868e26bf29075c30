// Turns over a port in memory, of a node that always says the same.
ghost use Rattle.kn_loop.specs.Turns.{Steady};
ghost use Rattle.std.specs.Prelude.{ℕ, ◌≡◌, ◌==◌, Bool, true, not, List, [], ◌∷◌, length, ⊤, if◌then◌else◌};

use crate::{Awake, Course, Gates, Node, Running, Turn, listen_at};
use kn_io::{Blob, NoMemory, Text};
use kn_port::{
    Accepted, DialEnd, Dialled, Entry, Gate, Listened, MemPort, Port, PortGot, Tick, Took, Waited,
};
use std::alloc::Global;
use std::test::Fail;

/// A node that says the same of each connection: wanted or not, these bytes to write, to be shut or not.
#[derive(Drop)]
struct Fixed {
    wants: bool,
    out: Vec<u8>,
    shuts: bool,
    /// It has one dial to hand out.
    dials: bool,
    lost: bool,
    top: u64,
    alloc: Global,
}

impl Node for Fixed {
    ghost did = { λ old call new. ⊤ };

    ghost answers = { λ n c. record { wants = n.wants; has_out = not (length n.out.items == 0); shuts = n.shuts } };

    ghost outgoing = { λ n c. n.out.items };

    ghost top = { λ n. n.top };

    ghost to_dial = { λ n. if n.dials then (7, 97 ∷ 58 ∷ 49 ∷ []) ∷ [] else [] };

    ghost has_ticket = { λ n t. ⊤ };

    ghost ended_count = { λ n. 0 };

    ghost is_cut_off = { λ n. n.lost };

    ghost takes_of = { λ g. true };

    fn takes(&self, _gate: Gate) -> bool {
        true
    }

    fn wants(&self, _conn: u64) -> bool {
        self.wants
    }

    fn out(&self, _conn: u64) -> &[u8] {
        self.out.as_slice()
    }

    fn shuts(&self, _conn: u64) -> bool {
        self.shuts
    }

    fn gone(&self) -> u64 {
        0
    }

    fn server_lost(&self) -> bool {
        self.lost
    }

    fn opened(&mut self, _awake: &mut Awake, conn: u64, _gate: Gate) -> Result<(), NoMemory> {
        self.top = conn;
        Ok(())
    }

    fn bytes(&mut self, _awake: &mut Awake, _conn: u64, _piece: &[u8]) -> Result<(), NoMemory> {
        Ok(())
    }

    fn took(&mut self, _awake: &mut Awake, _conn: u64, _count: usize) -> Result<(), NoMemory> {
        Ok(())
    }

    fn ended(&mut self, _awake: &mut Awake, _conn: u64) -> Result<(), NoMemory> {
        self.lost = true;
        Ok(())
    }

    fn lost(&mut self, _awake: &mut Awake, _conn: u64) -> Result<(), NoMemory> {
        self.lost = true;
        Ok(())
    }

    fn next_dial(&mut self, _awake: &mut Awake) -> Result<Option<(u64, Text)>, NoMemory> {
        if !self.dials {
            return Ok(None);
        }
        let address = Text::of(self.alloc, "a:1")?;
        self.dials = false;
        Ok(Some((7, address)))
    }

    fn began(&mut self, _awake: &mut Awake, _ticket: u64, conn: u64) -> Result<(), NoMemory> {
        self.top = conn;
        Ok(())
    }

    fn not_begun(&mut self, _awake: &mut Awake, _ticket: u64) -> Result<(), NoMemory> {
        Ok(())
    }

    fn dialled(&mut self, _awake: &mut Awake, _conn: u64, _up: bool) -> Result<(), NoMemory> {
        Ok(())
    }

    fn drain(&mut self, _awake: &mut Awake) -> Result<(), NoMemory> {
        Ok(())
    }
}

fn mark_of_accept(answer: &Accepted) -> u8 {
    match answer {
        Accepted::Conn(_) => b'a',
        Accepted::NotYet => b'.',
        _ => b'A',
    }
}

fn mark_of_read(answer: &PortGot) -> u8 {
    match answer {
        PortGot::Bytes(_) => b'r',
        PortGot::NotYet => b'-',
        PortGot::End => b'e',
        _ => b'R',
    }
}

fn mark_of_write(answer: &Took) -> u8 {
    match answer {
        Took::Bytes(_) => b'o',
        Took::NotYet => b'_',
        _ => b'O',
    }
}

/// The call of an entry and its answer, in a letter; in upper case where it failed.
fn mark(entry: &Entry) -> u8 {
    match entry {
        Entry::Listen { answer, .. } => if_else(*answer == Listened::Done, b'l', b'L'),
        Entry::Wait { answer, .. } => if_else(*answer == Waited::Ready, b'w', b'W'),
        Entry::Accept { answer, .. } => mark_of_accept(answer),
        Entry::Dial { answer, .. } => if_else(matches!(answer, Dialled::Conn(_)), b'd', b'D'),
        Entry::DialEnd { answer, .. } => if_else(*answer == DialEnd::Up, b'u', b'U'),
        Entry::Read { answer, .. } => mark_of_read(answer),
        Entry::Write { answer, .. } => mark_of_write(answer),
        Entry::Shut { .. } => b's',
    }
}

fn if_else(holds: bool, yes: u8, other: u8) -> u8 {
    if holds { yes } else { other }
}

/// How many entries have the wanted letters, from the first on.
fn count_told(journal: &[Entry], wants: &[u8]) -> usize {
    let mut count = 0usize;
    for entry in journal {
        if wants.get(count) != Some(&mark(entry)) {
            return count;
        }
        count = count.saturating_add(1);
    }
    count
}

/// Turns until one ends, 40 at most.
fn turns<N: Node + Drop, P: Port>(running: &mut Running<N>, port: &mut P) -> Turn
    requires { Steady running.old.busy.items running.old.awake running.old.watch (N.answers running.old.node) (N.top running.old.node) (P.last port.old) (P.told port.old) }
{
    for _round in 0..40 {
        let answer = running.turn(port);
        if answer != Turn::More {
            return answer;
        }
    }
    Turn::More
}

/// The turns of a node that has no connection yet.
fn turns_of<N: Node + Drop, P: Port>(
    alloc: Global,
    node: N,
    gates: Gates,
    wanted: u64,
    port: &mut P,
) -> Result<Turn, NoMemory>
    requires { N.top node ≡ 0 }
{
    let course = Course {
        tunnels: 0,
        turns: wanted,
        turn: 1,
    };
    let mut running = Running::new(alloc, node, None, gates, 0, course)?;
    Ok(turns(&mut running, port))
}

/// Listens for agents and clients.
fn gates_at(port: &mut MemPort) -> Gates {
    let mut gates = Gates::none();
    listen_at(port, &mut gates, Gate::Agents, "a");
    listen_at(port, &mut gates, Gate::Clients, "b");
    gates
}

/// A node that wants bytes and has these to write.
fn node_of(alloc: Global, out: Vec<u8>, shuts: bool, dials: bool) -> Fixed
    ensures { result.top ≡ 0 }
{
    Fixed {
        wants: true,
        out,
        shuts,
        dials,
        lost: false,
        top: 0,
        alloc,
    }
}

/// The last turn of such a node over these ticks, and how many entries are as they should be; all, where none is
/// too much.
fn told(
    alloc: Global,
    node: Fixed,
    ticks: Vec<Tick>,
    wanted: u64,
    wants: &[u8],
) -> Result<(Turn, bool), NoMemory>
    requires { node.top ≡ 0 }
{
    let mut port = MemPort::new(alloc, false, ticks);
    let gates = gates_at(&mut port);
    let last = turns_of(alloc, node, gates, wanted, &mut port)?;
    let count = count_told(port.journal(), wants);
    Ok((last, count == wants.len() && port.journal().len() == count))
}

/// The same, of a node with nothing to write and nothing to dial.
fn told_idle(
    alloc: Global,
    ticks: Vec<Tick>,
    shuts: bool,
    wanted: u64,
    wants: &[u8],
) -> Result<(Turn, bool), NoMemory> {
    let node = node_of(alloc, Vec::new(alloc), shuts, false);
    told(alloc, node, ticks, wanted, wants)
}

#[test]
fn a_wait_that_fails_is_the_last_turn(rt: HostRuntime) -> Result<(), Fail> {
    let alloc = rt.alloc();
    let (last, is_told) = told_idle(alloc, Vec::new(alloc), false, 0, b"ll..W")?;
    assert!(rt; is_told && last == Turn::WaitFault);
    Ok(())
}

#[test]
fn the_turn_of_the_bound_is_the_last(rt: HostRuntime) -> Result<(), Fail> {
    let alloc = rt.alloc();
    let (last, is_told) = told_idle(alloc, Vec::new(alloc), false, 2, b"ll..")?;
    assert!(rt; is_told && last == Turn::Bound);
    Ok(())
}

fn ticks_of_an_agent(alloc: Global) -> Result<Vec<Tick>, NoMemory> {
    let mut ticks = Vec::new(alloc);
    ticks.push(Tick::FailAccept(Gate::Agents))?;
    ticks.push(Tick::Arrive(Gate::Agents))?;
    Ok(ticks)
}

#[test]
fn a_gate_that_failed_takes_the_next(rt: HostRuntime) -> Result<(), Fail> {
    let alloc = rt.alloc();
    let ticks = ticks_of_an_agent(alloc)?;
    let (last, is_told) = told_idle(alloc, ticks, false, 0, b"ll..wAwa-.W")?;
    assert!(rt; is_told && last == Turn::WaitFault);
    Ok(())
}

fn ticks_of_a_client(alloc: Global) -> Result<Vec<Tick>, NoMemory> {
    let mut ticks = Vec::new(alloc);
    ticks.push(Tick::Arrive(Gate::Clients))?;
    Ok(ticks)
}

#[test]
fn a_connection_that_is_to_be_shut_is_shut(rt: HostRuntime) -> Result<(), Fail> {
    let alloc = rt.alloc();
    let ticks = ticks_of_a_client(alloc)?;
    let (last, is_told) = told_idle(alloc, ticks, true, 0, b"ll..was.W")?;
    assert!(rt; is_told && last == Turn::WaitFault);
    Ok(())
}

fn ticks_of_a_dial(alloc: Global) -> Result<Vec<Tick>, NoMemory> {
    let mut ticks = Vec::new(alloc);
    ticks.push(Tick::Up(1))?;
    ticks.push(Tick::Room { conn: 1, room: 2 })?;
    ticks.push(Tick::Bytes {
        conn: 1,
        bytes: Blob::of(alloc, b"hello")?,
    })?;
    ticks.push(Tick::End(1))?;
    Ok(ticks)
}

#[test]
fn a_dial_writes_and_reads(rt: HostRuntime) -> Result<(), Fail> {
    let alloc = rt.alloc();
    let mut out = Vec::new(alloc);
    out.extend_from_slice(b"hi")?;
    let node = node_of(alloc, out, false, true);
    let (last, is_told) = told(
        alloc,
        node,
        ticks_of_a_dial(alloc)?,
        0,
        b"ll..dwu-_w-o_wr_-we_",
    )?;
    assert!(rt; is_told && last == Turn::ServerLost);
    Ok(())
}
