ghost use Rattle.std.specs.Prelude.{◌≡◌, ◌<◌, ◌≤◌, ◌+◌, ◌++◌, List, None, OnErr, IfOk, OnOk, IfSome, length};
ghost use Rattle.kn_port.specs.declared.names.Ready.{Ready as Name};
ghost use Rattle.kn_io.specs.Faults.{Rose};
ghost use Rattle.kn_port.specs.Answers.{Failing, GotFits, TookFits};
ghost use Rattle.kn_mio.specs.Inner.{AcceptedAt, GotIsSound, TookIsSound};

use crate::gates::{Listener, gate_token, named};
use crate::socket;
use crate::socket::{Progress, Socket, addresses, begin, enrol, listener};
use crate::trouble::Trouble;
use kn_port::{
    Accepted, DialEnd, Dialled, Gate, Listened, Port, PortGot, Ready, Took, Waited, Woken,
};
use mio::net::TcpStream;
use mio::{Events, Poll, Registry, Token};
use std::alloc::Global;
use std::collections::BTreeMap;
use std::net::Net;
use std::time::Duration;

// How many events one wait takes at most. The others come with the next one.
const EVENTS: usize = 1024;

// How many milliseconds a wait lasts at most while a gate is to be asked again whose accept failed.
const STARVED_MILLISECONDS: u64 = 100;

#[derive(Drop)]
struct Polled {
    poll: Poll,
    events: Events,
}

/// A port over TCP sockets. It tells no journal, and counts each error of the system as a fault.
#[derive(Drop)]
pub struct MioPort<'r, R: Net> {
    rt: &'r R,
    alloc: Global,
    polled: Option<Polled>,
    listeners: Vec<Listener>,
    sockets: BTreeMap<u64, Socket>,
    /// What was put off, though it may be ready. The next wait names it, and does not block.
    owed: Vec<Ready>,
    /// How many waits there were.
    waits: u64,
    last: u64,
    faults: u64,
}

impl<'r, R: Net> MioPort<'r, R> {
    /// No connection and no gate. Takes no memory, and asks nothing of the system yet.
    pub fn new(rt: &'r R, alloc: Global) -> MioPort<'r, R> {
        MioPort {
            rt,
            alloc,
            polled: None,
            listeners: Vec::new(alloc),
            sockets: BTreeMap::new(alloc),
            owed: Vec::new(alloc),
            waits: 0,
            last: 0,
            faults: 0,
        }
    }

    fn rise(&mut self)
        ensures faults { Failing self.old.faults self.new.faults }
        ensures last { self.new.last ≡ self.old.last }
    {
        self.faults = self.faults.saturating_add(1);
    }

    /// Makes the system's poll where there is none yet.
    fn start(&mut self) -> Result<(), Trouble>
        ensures faults { self.new.faults ≡ self.old.faults }
        ensures last { self.new.last ≡ self.old.last }
    {
        if self.polled.is_none() {
            let events = Events::with_capacity(self.alloc, EVENTS)?;
            let poll = Poll::new(self.rt)?;
            self.polled = Some(Polled { poll, events });
        }
        Ok(())
    }

    fn try_listen(&mut self, gate: Gate, address: &str) -> Result<(), Trouble>
        ensures faults { self.new.faults ≡ self.old.faults }
        ensures last { self.new.last ≡ self.old.last }
    {
        self.start()?;
        let found = addresses(self.rt, self.alloc, address)?;
        let Some(polled) = &self.polled else {
            return Err(Trouble::Fault);
        };
        let inner = listener(self.rt, polled.poll.registry(), gate_token(gate), found)?;
        self.listeners.push(Listener::new(gate, inner))?;
        Ok(())
    }

    /// How long a wait may last.
    fn patience(&self) -> Option<Duration> {
        if !self.owed.is_empty() {
            return Some(Duration::ZERO);
        }
        if self.listeners.iter().any(|each| each.starved.is_some()) {
            return Some(Duration::from_millis(STARVED_MILLISECONDS));
        }
        None
    }

    fn try_wait(&mut self, ready: &mut Woken) -> Result<(), Trouble>
        ensures faults { self.new.faults ≡ self.old.faults }
        ensures last { self.new.last ≡ self.old.last }
        ensures named { (names : List Name) × (ready.new ≡ ready.old ++ names) }
    {
        self.start()?;
        let patience = self.patience();
        let Some(polled) = &mut self.polled else {
            return Err(Trouble::Fault);
        };
        polled.poll.poll(&mut polled.events, patience)?;
        let was_idle = self.owed.is_empty() && polled.events.is_empty();
        name_all(&polled.events, ready)?;
        name_owed(self.owed.as_slice(), ready)?;
        self.owed.clear();
        self.waits = self.waits.saturating_add(1);
        renew_starved(
            polled.poll.registry(),
            &mut self.listeners,
            self.waits,
            was_idle,
        );
        Ok(())
    }

    fn try_dial(&mut self, address: &str) -> Result<u64, Trouble>
        ensures faults { self.new.faults ≡ self.old.faults }
        ensures last { OnOk result (self.new.last ≡ self.old.last + 1) }
        ensures kept { OnErr result (self.new.last ≡ self.old.last) }
        ensures number { IfOk result (λ n. n ≡ self.new.last) }
    {
        self.start()?;
        let found = addresses(self.rt, self.alloc, address)?;
        let Some(polled) = &self.polled else {
            return Err(Trouble::Fault);
        };
        let number = self.last.checked_add(1).ok_or(Trouble::Fault)?;
        let socket = begin(
            self.rt,
            polled.poll.registry(),
            Token(number as usize),
            found,
        )?;
        self.sockets.insert(number, socket)?;
        self.last = number;
        Ok(number)
    }

    fn try_dial_end(&mut self, conn: u64) -> Result<Progress, Trouble>
        ensures faults { self.new.faults ≡ self.old.faults }
        ensures last { self.new.last ≡ self.old.last }
    {
        let (Some(polled), Some(socket)) = (&self.polled, self.sockets.get_mut(&conn)) else {
            return Ok(Progress::Refused);
        };
        match socket.progress() {
            Progress::Refused => {
                let later = std::mem::replace(&mut socket.later, Vec::new(self.alloc));
                *socket = begin(self.rt, polled.poll.registry(), Token(conn as usize), later)?;
                Ok(Progress::Pending)
            }
            other => Ok(other),
        }
    }

    /// The next connection at the gate, or `None` where none waits or the gate is put off.
    fn try_accept(&mut self, gate: Gate) -> Result<Option<u64>, Trouble>
        ensures faults { self.new.faults ≡ self.old.faults }
        ensures last { AcceptedAt result self.old.last self.new.last }
    {
        let Some(polled) = &self.polled else {
            return Err(Trouble::Fault);
        };
        let Some(listener) = self.listeners.iter_mut().find(|each| each.gate == gate) else {
            return Err(Trouble::Fault);
        };
        if !listener.rounds.may_read(self.waits)
            && listener.rounds.put_off(&mut self.owed, Ready::Gate(gate))
        {
            return Ok(None);
        }
        let number = self.last.checked_add(1).ok_or(Trouble::Fault)?;
        let taken = take_one(
            self.alloc,
            polled.poll.registry(),
            listener,
            &mut self.sockets,
            number,
            self.waits,
        );
        match taken {
            Ok(true) => {
                self.last = number;
                Ok(Some(number))
            }
            Ok(false) => Ok(None),
            Err(trouble) => Err(trouble),
        }
    }

    /// `None` is a fault.
    fn try_read(&mut self, conn: u64, room: &mut [u8]) -> Option<PortGot>
        requires room { 0 < length room.old }
        ensures faults { self.new.faults ≡ self.old.faults }
        ensures last { self.new.last ≡ self.old.last }
        ensures fits { IfSome result (λ got. GotFits got (length room.old)) }
        ensures sound { IfSome result GotIsSound }
    {
        let Some(socket) = self.sockets.get_mut(&conn) else {
            return None;
        };
        if !socket.rounds.may_read(self.waits)
            && socket.rounds.put_off(&mut self.owed, Ready::Conn(conn))
        {
            return Some(PortGot::NotYet);
        }
        socket::read(&socket.stream, room)
    }

    /// `None` is a fault.
    fn try_write(&mut self, conn: u64, bytes: &[u8]) -> Option<Took>
        ensures faults { self.new.faults ≡ self.old.faults }
        ensures last { self.new.last ≡ self.old.last }
        ensures fits { IfSome result (λ took. TookFits took (length bytes.now)) }
        ensures sound { IfSome result TookIsSound }
    {
        let Some(socket) = self.sockets.get_mut(&conn) else {
            return None;
        };
        if !socket.rounds.may_write(self.waits)
            && socket.rounds.put_off(&mut self.owed, Ready::Conn(conn))
        {
            return Some(Took::NotYet);
        }
        socket::write(&socket.stream, bytes)
    }
}

/// Takes the next connection at a gate, and tells whether there was one. Where the system gave none though one
/// may wait, the gate is starved; where the connection could not be kept, the system is to name the gate again.
fn take_one(
    alloc: Global,
    registry: &Registry,
    listener: &mut Listener,
    sockets: &mut BTreeMap<u64, Socket>,
    number: u64,
    wait: u64,
) -> Result<bool, Trouble> {
    match listener.take() {
        Ok(Some(stream)) => match admit(alloc, registry, sockets, number, stream) {
            Ok(()) => Ok(true),
            Err(trouble) => {
                listener.renew(registry, wait);
                Err(trouble)
            }
        },
        Ok(None) => Ok(false),
        Err(_) => {
            listener.starved = Some(wait);
            Err(Trouble::Fault)
        }
    }
}

fn admit(
    alloc: Global,
    registry: &Registry,
    sockets: &mut BTreeMap<u64, Socket>,
    number: u64,
    mut stream: TcpStream,
) -> Result<(), Trouble> {
    enrol(registry, Token(number as usize), &mut stream)?;
    sockets.insert(number, Socket::new(stream, Vec::new(alloc)))?;
    Ok(())
}

/// Has the system name again the gates whose accepts failed: all, or those that waited long.
fn renew_starved(registry: &Registry, listeners: &mut Vec<Listener>, wait: u64, all: bool) {
    for each in listeners.iter_mut() {
        if each.starved.is_some() && (all || each.starved_long(wait)) {
            each.renew(registry, wait);
        }
    }
}

fn name_owed(owed: &[Ready], ready: &mut Woken) -> Result<(), Trouble>
    ensures named { (names : List Name) × (ready.new ≡ ready.old ++ names) }
{
    for each in owed {
        if ready.add(*each).is_err() {
            return Err(Trouble::NoMemory);
        }
    }
    Ok(())
}

fn name_all(events: &Events, ready: &mut Woken) -> Result<(), Trouble>
    ensures named { (names : List Name) × (ready.new ≡ ready.old ++ names) }
{
    for event in events {
        if ready.add(named(event.token())).is_err() {
            return Err(Trouble::NoMemory);
        }
    }
    Ok(())
}

impl<'r, R: Net> Port for MioPort<'r, R> {
    ghost faults = { λ p. p.faults };

    ghost last = { λ p. p.last };

    ghost told = { λ p. None };

    fn listen(&mut self, gate: Gate, address: &str) -> Listened {
        match self.try_listen(gate, address) {
            Ok(()) => Listened::Done,
            Err(Trouble::NoMemory) => Listened::NoMemory,
            Err(Trouble::Fault) => {
                self.rise();
                Listened::Failed
            }
        }
    }

    fn wait(&mut self, ready: &mut Woken) -> Waited {
        match self.try_wait(ready) {
            Ok(()) => Waited::Ready,
            Err(Trouble::NoMemory) => Waited::NoMemory,
            Err(Trouble::Fault) => {
                self.rise();
                Waited::Failed
            }
        }
    }

    fn accept(&mut self, gate: Gate) -> Accepted {
        match self.try_accept(gate) {
            Ok(Some(number)) => Accepted::Conn(number),
            Ok(None) => Accepted::NotYet,
            Err(Trouble::NoMemory) => Accepted::NoMemory,
            Err(Trouble::Fault) => {
                self.rise();
                Accepted::Failed
            }
        }
    }

    fn dial(&mut self, address: &str) -> Dialled {
        match self.try_dial(address) {
            Ok(number) => Dialled::Conn(number),
            Err(Trouble::NoMemory) => Dialled::NoMemory,
            Err(Trouble::Fault) => {
                self.rise();
                Dialled::Failed
            }
        }
    }

    fn dial_end(&mut self, conn: u64) -> DialEnd {
        match self.try_dial_end(conn) {
            Ok(Progress::Up) => DialEnd::Up,
            Ok(Progress::Pending) => DialEnd::NotYet,
            Err(Trouble::NoMemory) => DialEnd::NoMemory,
            Ok(Progress::Refused) | Err(Trouble::Fault) => {
                self.rise();
                DialEnd::Failed
            }
        }
    }

    fn read(&mut self, conn: u64, room: &mut [u8]) -> PortGot {
        match self.try_read(conn, room) {
            Some(got) => got,
            None => {
                self.rise();
                PortGot::Failed
            }
        }
    }

    fn write(&mut self, conn: u64, bytes: &[u8]) -> Took {
        match self.try_write(conn, bytes) {
            Some(took) => took,
            None => {
                self.rise();
                Took::Failed
            }
        }
    }

    fn shut(&mut self, conn: u64) {
        self.sockets.remove(&conn);
        if let Some(polled) = &self.polled {
            renew_starved(
                polled.poll.registry(),
                &mut self.listeners,
                self.waits,
                true,
            );
        }
    }
}
