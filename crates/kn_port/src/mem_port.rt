ghost use Rattle.std.specs.Prelude.{ℕ, ◌≡◌, ◌≤◌, ◌<◌, ◌++◌, List, length, Some, IfOk, OnErr, if◌then◌else◌};
ghost use Rattle.kn_port.specs.Journal as journal;
ghost use Rattle.kn_port.specs.Answers as answers;
ghost use Rattle.kn_port.specs.Memory as spec;
ghost use Rattle.kn_port.specs.Numbers.{nth, first_of};
ghost use Rattle.kn_port.specs.declared.names.Listened.TheVariants as listened;
ghost use Rattle.kn_port.specs.declared.names.Waited.TheVariants as waited;
ghost use Rattle.kn_port.specs.declared.names.Accepted.TheVariants as accepted;
ghost use Rattle.kn_port.specs.declared.names.Dialled.TheVariants as dialled;
ghost use Rattle.kn_port.specs.declared.names.DialEnd.TheVariants as dial_end;
ghost use Rattle.kn_port.specs.declared.names.PortGot.TheVariants as got;
ghost use Rattle.kn_port.specs.declared.names.Took.TheVariants as took;
ghost use Rattle.kn_port.specs.declared.names.Ready.{Ready as Name};

use crate::journal::Journal;
use crate::mem_net::MemNet;
use crate::ticks::{Ticks, come, names, said};
use crate::{
    Accepted, DialEnd, Dialled, Entry, Gate, Listened, Port, PortGot, Tick, Took, Waited, Woken,
    noting,
};
use kn_io::{Blob, NoMemory, Text};
use std::alloc::Global;
use std::marker::Model;

/// A port in memory: what comes is told beforehand by ticks, of which each wait takes one, and each call that
/// did something stands in a journal.
#[derive(Drop)]
pub struct MemPort {
    alloc: Global,
    listen_fails: bool,
    ticks: Ticks,
    net: MemNet,
    journal: Journal,
}

impl Model for MemPort {
    ghost use Rattle.std.specs.Prelude.{◌≡◌, length};
    ghost use Rattle.kn_port.specs.Memory.{PortState};

    ghost Value = { PortState };

    ghost view = { λ p. record { listen_fails = p.listen_fails; ticks = p.ticks; net = p.net; entries = p.journal.entries } };

    ghost invariant = { λ p. length p.net.lines ≡ p.journal.drawn };
}

impl MemPort {
    /// A port to which these ticks come, and at which each `listen` fails or none does. Takes no memory.
    pub fn new(alloc: Global, listen_fails: bool, ticks: Vec<Tick>) -> MemPort
        ensures { result ≡ spec.begun listen_fails ticks.items }
    {
        MemPort {
            alloc,
            listen_fails,
            ticks: Ticks::new(ticks),
            net: MemNet::new(alloc),
            journal: Journal::new(alloc),
        }
    }

    /// The calls so far and their answers.
    pub fn journal(&self) -> &[Entry]
        ensures { result.now ≡ self.now.entries }
    {
        self.journal.entries()
    }

    fn try_listen(&mut self, gate: Gate, address: &str) -> Result<Listened, NoMemory>
        ensures answer { IfOk result (λ answer. answer ≡ spec.listen_answer self.old) }
        ensures after { IfOk result (λ answer. self.new ≡ spec.after_listen self.old gate address.now answer) }
        ensures err { OnErr result (self.new ≡ self.old) }
    {
        let address = Text::of(self.alloc, address)?;
        self.journal.make_room()?;
        let answer = listened(self.listen_fails);
        noting::listen(&mut self.journal, gate, address, answer);
        Ok(answer)
    }

    fn try_wait(&mut self, ready: &mut Woken) -> Result<Waited, NoMemory>
        ensures answer { IfOk result (λ answer. answer ≡ spec.wait_answer self.old) }
        ensures named { IfOk result (λ answer. ready.new ≡ ready.old ++ spec.wait_names (first_of self.old.ticks)) }
        ensures after { IfOk result (λ answer. self.new ≡ spec.after_wait self.old answer) }
        ensures err { OnErr result (self.new ≡ self.old) }
        ensures unnamed { OnErr result (ready.new ≡ ready.old) }
    {
        let tick = self.ticks.first();
        let named = names(self.alloc, tick)?;
        let answer = said(tick);
        self.journal.make_room()?;
        come(&mut self.net, tick, ready)?;
        self.ticks.pass();
        noting::wait(&mut self.journal, named, answer);
        Ok(answer)
    }

    fn try_accept(&mut self, gate: Gate) -> Result<Accepted, NoMemory>
        ensures answer { IfOk result (λ answer. answer ≡ spec.accept_answer self.old.net gate) }
        ensures after { IfOk result (λ answer. self.new ≡ spec.after_accept self.old gate answer) }
        ensures err { OnErr result (self.new ≡ self.old) }
    {
        let answer = self.net.accept_answer(gate)?;
        self.journal.make_room()?;
        self.net.accept(self.alloc, gate, answer)?;
        noting::accept(&mut self.journal, gate, answer);
        Ok(answer)
    }

    fn try_dial(&mut self, address: &str) -> Result<Dialled, NoMemory>
        ensures answer { IfOk result (λ answer. answer ≡ spec.dial_answer self.old.net) }
        ensures after { IfOk result (λ answer. self.new ≡ spec.after_dial self.old address.now answer) }
        ensures err { OnErr result (self.new ≡ self.old) }
    {
        let address = Text::of(self.alloc, address)?;
        let answer = self.net.dial_answer()?;
        self.journal.make_room()?;
        self.net.dial(self.alloc, answer)?;
        noting::dial(&mut self.journal, address, answer);
        Ok(answer)
    }

    fn try_dial_end(&mut self, conn: u64) -> Result<DialEnd, NoMemory>
        ensures answer { IfOk result (λ answer. answer ≡ spec.dial_end_answer self.old.net conn) }
        ensures after { IfOk result (λ answer. self.new ≡ spec.after_dial_end self.old conn answer) }
        ensures err { OnErr result (self.new ≡ self.old) }
    {
        let answer = self.net.dial_end_answer(conn);
        self.journal.make_room()?;
        noting::dial_end(&mut self.journal, conn, answer);
        Ok(answer)
    }

    fn try_read(&mut self, conn: u64, room: &mut [u8]) -> Result<PortGot, NoMemory>
        ensures answer { IfOk result (λ answer. answer ≡ spec.read_answer self.old.net conn (length room.old)) }
        ensures bytes { IfOk result (λ answer. spec.Gives answer (spec.inbox_of (nth conn self.old.net.lines)) room.new) }
        ensures after { IfOk result (λ answer. self.new ≡ spec.after_read self.old conn room.new answer) }
        ensures err { OnErr result (self.new ≡ self.old) }
    {
        let answer = self.net.read_answer(conn, room.len());
        let bytes = given(self.alloc, answer, self.net.inbox(conn))?;
        self.journal.make_room()?;
        self.net.read(conn, answer, room);
        noting::read(self.alloc, &mut self.journal, conn, room, bytes, answer);
        Ok(answer)
    }

    fn try_write(&mut self, conn: u64, bytes: &[u8]) -> Result<Took, NoMemory>
        ensures answer { IfOk result (λ answer. answer ≡ spec.write_answer self.old.net conn (length bytes.now)) }
        ensures after { IfOk result (λ answer. self.new ≡ spec.after_write self.old conn bytes.now answer) }
        ensures err { OnErr result (self.new ≡ self.old) }
    {
        let answer = self.net.write_answer(conn, bytes.len());
        let taken = taken(self.alloc, answer, bytes)?;
        self.journal.make_room()?;
        self.net.write(conn, answer);
        noting::write(self.alloc, &mut self.journal, conn, bytes, taken, answer);
        Ok(answer)
    }
}

fn listened(fails: bool) -> Listened
    ensures { result ≡ (if fails then listened.Failed else listened.Done) }
{
    if fails {
        Listened::Failed
    } else {
        Listened::Done
    }
}

/// The bytes that a read with this answer gives.
fn given(alloc: Global, answer: PortGot, inbox: &[u8]) -> Result<Blob, NoMemory>
    ensures { IfOk result (spec.IsGiven answer inbox.now) }
{
    match answer {
        PortGot::Bytes(count) => Blob::of(alloc, &inbox[..count.min(inbox.len())]),
        PortGot::NotYet => Ok(Blob::new(alloc)),
        PortGot::End => Ok(Blob::new(alloc)),
        PortGot::Failed => Ok(Blob::new(alloc)),
        PortGot::NoMemory => Ok(Blob::new(alloc)),
    }
}

/// The bytes that a write with this answer takes.
fn taken(alloc: Global, answer: Took, bytes: &[u8]) -> Result<Blob, NoMemory>
    ensures { IfOk result (spec.IsTaken answer bytes.now) }
{
    match answer {
        Took::Bytes(count) => Blob::of(alloc, &bytes[..count.min(bytes.len())]),
        Took::NotYet => Ok(Blob::new(alloc)),
        Took::Failed => Ok(Blob::new(alloc)),
        Took::NoMemory => Ok(Blob::new(alloc)),
    }
}

impl Port for MemPort {
    ghost faults = { λ p. spec.failures p.entries };

    ghost last = { λ p. length p.net.lines };

    ghost told = { λ p. Some p.entries };

    fn listen(&mut self, gate: Gate, address: &str) -> Listened
        ensures count { answers.ListenCounts result (spec.failures self.old.entries) (spec.failures self.new.entries) }
        ensures last { length self.new.net.lines ≡ length self.old.net.lines }
        ensures told { journal.Tells (Some self.old.entries) (Some self.new.entries) (journal.listen_entries gate address.now result) }
        ensures does { spec.Does listened.NoMemory (spec.listen_answer self.old) (spec.after_listen self.old gate address.now) result self.old self.new }
    {
        match self.try_listen(gate, address) {
            Ok(answer) => answer,
            Err(NoMemory) => Listened::NoMemory,
        }
    }

    fn wait(&mut self, ready: &mut Woken) -> Waited
        ensures count { answers.WaitCounts result (spec.failures self.old.entries) (spec.failures self.new.entries) }
        ensures last { length self.new.net.lines ≡ length self.old.net.lines }
        ensures told { (named : List Name) × (ready.new ≡ ready.old ++ named) × journal.Tells (Some self.old.entries) (Some self.new.entries) (journal.wait_entries named result) }
        ensures does { spec.Does waited.NoMemory (spec.wait_answer self.old) (spec.after_wait self.old) result self.old self.new }
        ensures named { ready.new ≡ ready.old ++ spec.wait_named self.old result }
    {
        match self.try_wait(ready) {
            Ok(answer) => answer,
            Err(NoMemory) => Waited::NoMemory,
        }
    }

    fn accept(&mut self, gate: Gate) -> Accepted
        ensures count { answers.AcceptCounts result (spec.failures self.old.entries) (spec.failures self.new.entries) }
        ensures last { answers.AcceptDraws result (length self.old.net.lines) (length self.new.net.lines) }
        ensures told { journal.Tells (Some self.old.entries) (Some self.new.entries) (journal.accept_entries gate result) }
        ensures does { spec.Does accepted.NoMemory (spec.accept_answer self.old.net gate) (spec.after_accept self.old gate) result self.old self.new }
    {
        match self.try_accept(gate) {
            Ok(answer) => answer,
            Err(NoMemory) => Accepted::NoMemory,
        }
    }

    fn dial(&mut self, address: &str) -> Dialled
        ensures count { answers.DialCounts result (spec.failures self.old.entries) (spec.failures self.new.entries) }
        ensures last { answers.DialDraws result (length self.old.net.lines) (length self.new.net.lines) }
        ensures told { journal.Tells (Some self.old.entries) (Some self.new.entries) (journal.dial_entries address.now result) }
        ensures does { spec.Does dialled.NoMemory (spec.dial_answer self.old.net) (spec.after_dial self.old address.now) result self.old self.new }
    {
        match self.try_dial(address) {
            Ok(answer) => answer,
            Err(NoMemory) => Dialled::NoMemory,
        }
    }

    fn dial_end(&mut self, conn: u64) -> DialEnd
        requires given { (0 < conn) × (conn ≤ length self.old.net.lines) }
        ensures count { answers.DialEndCounts result (spec.failures self.old.entries) (spec.failures self.new.entries) }
        ensures last { length self.new.net.lines ≡ length self.old.net.lines }
        ensures told { journal.Tells (Some self.old.entries) (Some self.new.entries) (journal.dial_end_entries conn result) }
        ensures does { spec.Does dial_end.NoMemory (spec.dial_end_answer self.old.net conn) (spec.after_dial_end self.old conn) result self.old self.new }
    {
        match self.try_dial_end(conn) {
            Ok(answer) => answer,
            Err(NoMemory) => DialEnd::NoMemory,
        }
    }

    fn read(&mut self, conn: u64, room: &mut [u8]) -> PortGot
        requires given { (0 < conn) × (conn ≤ length self.old.net.lines) }
        requires room { 0 < length room.old }
        ensures count { answers.GotCounts result (spec.failures self.old.entries) (spec.failures self.new.entries) }
        ensures fits { answers.GotFits result (length room.old) }
        ensures last { length self.new.net.lines ≡ length self.old.net.lines }
        ensures told { journal.Tells (Some self.old.entries) (Some self.new.entries) (journal.read_entries conn room.new result) }
        ensures does { spec.Does got.NoMemory (spec.read_answer self.old.net conn (length room.old)) (spec.after_read self.old conn room.new) result self.old self.new }
        ensures bytes { spec.Gives result (spec.inbox_of (nth conn self.old.net.lines)) room.new }
    {
        match self.try_read(conn, room) {
            Ok(answer) => answer,
            Err(NoMemory) => PortGot::NoMemory,
        }
    }

    fn write(&mut self, conn: u64, bytes: &[u8]) -> Took
        requires given { (0 < conn) × (conn ≤ length self.old.net.lines) }
        requires some { 0 < length bytes.now }
        ensures count { answers.TookCounts result (spec.failures self.old.entries) (spec.failures self.new.entries) }
        ensures fits { answers.TookFits result (length bytes.now) }
        ensures last { length self.new.net.lines ≡ length self.old.net.lines }
        ensures told { journal.Tells (Some self.old.entries) (Some self.new.entries) (journal.write_entries conn bytes.now result) }
        ensures does { spec.Does took.NoMemory (spec.write_answer self.old.net conn (length bytes.now)) (spec.after_write self.old conn bytes.now) result self.old self.new }
    {
        match self.try_write(conn, bytes) {
            Ok(answer) => answer,
            Err(NoMemory) => Took::NoMemory,
        }
    }

    fn shut(&mut self, conn: u64)
        requires given { (0 < conn) × (conn ≤ length self.old.net.lines) }
        ensures count { spec.failures self.new.entries ≡ spec.failures self.old.entries }
        ensures last { length self.new.net.lines ≡ length self.old.net.lines }
        ensures told { journal.TellsShut (Some self.old.entries) (Some self.new.entries) conn }
        ensures does { self.new ≡ spec.after_shut self.old conn }
    {
        self.journal.shut(conn);
    }
}
