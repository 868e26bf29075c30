ghost use Rattle.std.specs.Prelude.{◌≡◌, [], ◌+◌, length, IfOk, OnOk, OnErr};
ghost use Rattle.kn_port.specs.Memory as spec;
ghost use Rattle.kn_port.specs.Numbers.{nth, change};

use crate::gates::Gates;
use crate::mem_line::{Dial, MemLine};
use crate::numbered::Numbered;
use crate::{Accepted, DialEnd, Dialled, Gate, PortGot, Tick, Took};
use kn_io::NoMemory;
use std::alloc::Global;

/// What the ticks so far left: connections by their numbers, gates, and dials that are to fail.
#[derive(Drop)]
pub(crate) struct MemNet {
    pub(crate) lines: Numbered<MemLine>,
    pub(crate) gates: Gates,
    pub(crate) dial_fails: u64,
}

impl MemNet {
    /// Nothing came yet. Takes no memory.
    pub(crate) fn new(alloc: Global) -> MemNet
        ensures { result ≡ record { lines = []; gates = spec.no_arrivals; dial_fails = 0 } }
    {
        MemNet {
            lines: Numbered::new(alloc),
            gates: Gates::new(),
            dial_fails: 0,
        }
    }

    /// What an accept at the gate answers.
    pub(crate) fn accept_answer(&self, gate: Gate) -> Result<Accepted, NoMemory>
        ensures answer { IfOk result (λ answer. answer ≡ spec.accept_answer self.now gate) }
        ensures number { IfOk result (λ answer. spec.Accepts answer (length self.now.lines + 1)) }
    {
        let number = self.lines.next_number()?;
        Ok(self.gates.answer(gate, number))
    }

    /// An accept at the gate has this answer. An `Err` changes nothing.
    pub(crate) fn accept(
        &mut self,
        alloc: Global,
        gate: Gate,
        answer: Accepted,
    ) -> Result<(), NoMemory>
        ensures ok { OnOk result (self.new ≡ spec.net_accepted answer gate self.old) }
        ensures err { OnErr result (self.new ≡ self.old) }
    {
        add_accepted(&mut self.lines, alloc, answer)?;
        self.gates.note(gate, answer);
        Ok(())
    }

    /// What a dial answers.
    pub(crate) fn dial_answer(&self) -> Result<Dialled, NoMemory>
        ensures answer { IfOk result (λ answer. answer ≡ spec.dial_answer self.now) }
        ensures number { IfOk result (λ answer. spec.Dials answer (length self.now.lines + 1)) }
    {
        let number = self.lines.next_number()?;
        if self.dial_fails == 0 {
            Ok(Dialled::Conn(number))
        } else {
            Ok(Dialled::Failed)
        }
    }

    /// A dial has this answer. An `Err` changes nothing.
    pub(crate) fn dial(&mut self, alloc: Global, answer: Dialled) -> Result<(), NoMemory>
        ensures ok { OnOk result (self.new ≡ spec.net_dialled answer self.old) }
        ensures err { OnErr result (self.new ≡ self.old) }
    {
        match answer {
            Dialled::Conn(_) => self.lines.push(MemLine::new(alloc, Dial::Begun)),
            Dialled::Failed => {
                self.dial_fails = self.dial_fails.saturating_sub(1);
                Ok(())
            }
            Dialled::NoMemory => Ok(()),
        }
    }

    /// What is said of a dial.
    pub(crate) fn dial_end_answer(&self, conn: u64) -> DialEnd
        ensures { result ≡ spec.dial_end_answer self.now conn }
    {
        match self.lines.get(conn) {
            Some(line) => line.dial_answer(),
            None => DialEnd::NotYet,
        }
    }

    /// What a read into this much room answers.
    pub(crate) fn read_answer(&self, conn: u64, room: usize) -> PortGot
        ensures { result ≡ spec.read_answer self.now conn room }
    {
        match self.lines.get(conn) {
            Some(line) => line.read_answer(room),
            None => PortGot::NotYet,
        }
    }

    /// What a write of this many bytes answers.
    pub(crate) fn write_answer(&self, conn: u64, given: usize) -> Took
        ensures { result ≡ spec.write_answer self.now conn given }
    {
        match self.lines.get(conn) {
            Some(line) => line.write_answer(given),
            None => Took::NotYet,
        }
    }

    /// The bytes of a connection that came and were not read yet.
    pub(crate) fn inbox(&self, conn: u64) -> &[u8]
        ensures { result.now ≡ spec.inbox_of (nth conn self.now.lines) }
    {
        match self.lines.get(conn) {
            Some(line) => line.inbox.rest(),
            None => &[],
        }
    }

    /// A read of a connection has this answer.
    pub(crate) fn read(&mut self, conn: u64, answer: PortGot, room: &mut [u8])
        requires { answer ≡ spec.read_answer self.old conn (length room.old) }
        ensures after { self.new ≡ spec.net_read answer conn self.old }
        ensures bytes { spec.Gives answer (spec.inbox_of (nth conn self.old.lines)) room.new }
    {
        if let Some(line) = self.lines.get_mut(conn) {
            line.give(answer, room);
        }
    }

    /// A write of a connection has this answer.
    pub(crate) fn write(&mut self, conn: u64, answer: Took)
        ensures { self.new ≡ spec.net_wrote answer conn self.old }
    {
        if let Some(line) = self.lines.get_mut(conn) {
            line.take(answer);
        }
    }

    /// A tick comes. An `Err` changes nothing.
    pub(crate) fn tick(&mut self, tick: &Tick) -> Result<(), NoMemory>
        ensures ok { OnOk result (self.new ≡ spec.net_after tick.now self.old) }
        ensures err { OnErr result (self.new ≡ self.old) }
    {
        match tick {
            Tick::Arrive(gate) => self.gates.arrive(*gate),
            Tick::Bytes { conn, bytes } => {
                return come(&mut self.lines, *conn, bytes.as_slice());
            }
            Tick::End(conn) => end(&mut self.lines, *conn),
            Tick::Room { conn, room } => widen(&mut self.lines, *conn, *room),
            Tick::Up(conn) => rise(&mut self.lines, *conn),
            Tick::Refuse(conn) => refuse(&mut self.lines, *conn),
            Tick::FailRead(conn) => fail_reads(&mut self.lines, *conn),
            Tick::FailWrite(conn) => fail_writes(&mut self.lines, *conn),
            Tick::FailAccept(gate) => self.gates.fail(*gate),
            Tick::FailDial => self.dial_fails = self.dial_fails.saturating_add(1),
            Tick::FailWait => {}
        }
        Ok(())
    }
}

fn add_accepted(
    lines: &mut Numbered<MemLine>,
    alloc: Global,
    answer: Accepted,
) -> Result<(), NoMemory>
    ensures ok { OnOk result (lines.new ≡ spec.lines_accepted answer lines.old) }
    ensures err { OnErr result (lines.new ≡ lines.old) }
{
    match answer {
        Accepted::Conn(_) => lines.push(MemLine::new(alloc, Dial::Up)),
        Accepted::NotYet => Ok(()),
        Accepted::Failed => Ok(()),
        Accepted::NoMemory => Ok(()),
    }
}

fn come(lines: &mut Numbered<MemLine>, conn: u64, bytes: &[u8]) -> Result<(), NoMemory>
    ensures ok { OnOk result (lines.new ≡ change (spec.line_given bytes.now) conn lines.old) }
    ensures err { OnErr result (lines.new ≡ lines.old) }
{
    match lines.get_mut(conn) {
        Some(line) => match line.come(bytes) {
            Ok(()) => Ok(()),
            Err(NoMemory) => Err(NoMemory),
        },
        None => Ok(()),
    }
}

fn end(lines: &mut Numbered<MemLine>, conn: u64)
    ensures { lines.new ≡ change spec.line_ended conn lines.old }
{
    if let Some(line) = lines.get_mut(conn) {
        line.ended = true;
    }
}

fn widen(lines: &mut Numbered<MemLine>, conn: u64, more: usize)
    ensures { lines.new ≡ change (spec.line_roomier more) conn lines.old }
{
    if let Some(line) = lines.get_mut(conn) {
        line.widen(more);
    }
}

fn rise(lines: &mut Numbered<MemLine>, conn: u64)
    ensures { lines.new ≡ change spec.line_up conn lines.old }
{
    if let Some(line) = lines.get_mut(conn) {
        line.rise();
    }
}

fn refuse(lines: &mut Numbered<MemLine>, conn: u64)
    ensures { lines.new ≡ change spec.line_refused conn lines.old }
{
    if let Some(line) = lines.get_mut(conn) {
        line.refuse();
    }
}

fn fail_reads(lines: &mut Numbered<MemLine>, conn: u64)
    ensures { lines.new ≡ change spec.line_read_fails conn lines.old }
{
    if let Some(line) = lines.get_mut(conn) {
        line.read_fails = true;
    }
}

fn fail_writes(lines: &mut Numbered<MemLine>, conn: u64)
    ensures { lines.new ≡ change spec.line_write_fails conn lines.old }
{
    if let Some(line) = lines.get_mut(conn) {
        line.write_fails = true;
    }
}
