ghost use Rattle.std.specs.Prelude.{ℕ, true, false, ◌≡◌, ◌≤◌, ◌==◌, [], ◌++◌, length, take, drop, not, ◌&&◌, OnOk, IfOk, MatchResult};
ghost use Rattle.kn_loop.specs.Calls.{unpaused};
ghost use Rattle.kn_loop.specs.Kept.{is_in, line_of, NoTwice};
ghost use Rattle.kn_loop.specs.Gates.{is_unsettled, gate_of, are_gates_settled, gate_named, gates_named};
ghost use Rattle.kn_loop.specs.Known.{Given, Names, known_of};
ghost use Rattle.kn_loop.specs.Ran.{Made};
ghost use Rattle.kn_loop.specs.Turns.{any_busy, AllSettled, WakesLines, Covers, Rests, Steady, Turned, IsTurn, TurnCounts, counted};
ghost use Rattle.kn_loop.specs.Visited.{MadeWith, VisitsAll, VisitsOnce, AsksGates};
ghost use Rattle.kn_loop.specs.Watch.{named_from, named_one};
ghost use Rattle.kn_loop.specs.declared.turn.Turn.TheVariants as turn_is;
ghost use Rattle.kn_port.specs.Answers.{WaitCounts};

use crate::awake::Awake;
use crate::running::Running;
use crate::watch::Watch;
use crate::{Node, Turn};
use kn_io::NoMemory;
use kn_port::{Gate, Port, Ready, Waited};
use std::mem;

/// A turn but the first.
impl<N: Node + Drop> Running<N> {
    fn is_gate_settled(&self, gate: Gate) -> bool
        ensures { result ≡ not (N.takes_of gate && is_unsettled (gate_of self.now.watch.gates gate)) }
    {
        !(self.node.takes(gate) && self.watch.gates.at(gate).is_unsettled())
    }

    fn are_gates_settled(&self) -> bool
        ensures { result ≡ are_gates_settled N.takes_of self.now.watch.gates }
    {
        self.is_gate_settled(Gate::Agents)
            && self.is_gate_settled(Gate::Clients)
            && self.is_gate_settled(Gate::Connect)
            && self.is_gate_settled(Gate::Apps)
    }

    /// Waits. There is nothing else to do.
    fn wait_once<P: Port>(&mut self, port: &mut P) -> Result<Waited, NoMemory>
        requires settled { AllSettled N.takes_of self.old.watch (N.answers self.old.node) }
        requires steady { Steady self.old.busy.items self.old.awake self.old.watch (N.answers self.old.node) (N.top self.old.node) (P.last port.old) (P.told port.old) }
        ensures waited { IfOk result (λ answer. Turned N.did N.outgoing N.answers N.top N.to_dial N.takes_of (P.told port.old) (P.told port.new) self.old.watch self.new.watch self.old.node self.new.node answer) }
        ensures single { OnOk result (NoTwice self.new.busy.items) }
        ensures rests { OnOk result (Rests self.new.busy.items (line_of self.new.watch.lines) (unpaused (N.answers self.new.node))) }
        ensures asleep { OnOk result (self.new.awake ≡ []) }
        ensures given { OnOk result (Given self.new.watch (N.top self.new.node) (P.last port.new)) }
        ensures count { MatchResult result (λ answer. WaitCounts answer (P.faults port.old) (P.faults port.new)) (λ e. P.faults port.old ≤ P.faults port.new) }
    {
        self.woken.clear();
        match port.wait(&mut self.woken) {
            Waited::Ready => {
                self.hear()?;
                Ok(Waited::Ready)
            }
            Waited::Failed => {
                self.hear()?;
                Ok(Waited::Failed)
            }
            Waited::NoMemory => Err(NoMemory),
        }
    }

    /// Wakes the connections that are kept. None is kept then.
    fn wake_kept(&mut self) -> Result<(), NoMemory>
        requires covers { Covers (is_in self.old.busy.items) (line_of self.old.watch.lines) (unpaused (N.answers self.old.node)) }
        ensures covers { OnOk result (Covers (is_in self.new.awake) (line_of self.new.watch.lines) (unpaused (N.answers self.new.node))) }
        ensures empty { OnOk result (self.new.busy.items ≡ []) }
        ensures watch { self.new.watch ≡ self.old.watch }
        ensures node { self.new.node ≡ self.old.node }
        ensures woken { self.new.woken ≡ self.old.woken }
    {
        while let Some(conn) = self.busy.pop() {
            self.awake.add(conn)?;
        }
        Ok(())
    }

    /// Notes what a wait named, and keeps those that may be to visit, the paused ones of before with them.
    fn hear(&mut self) -> Result<(), NoMemory>
        requires rests { Rests self.old.busy.items (line_of self.old.watch.lines) (unpaused (N.answers self.old.node)) }
        ensures follows { OnOk result (Names self.old.woken self.old.watch self.new.watch) }
        ensures node { self.new.node ≡ self.old.node }
        ensures single { OnOk result (NoTwice self.new.busy.items) }
        ensures rests { OnOk result (Rests self.new.busy.items (line_of self.new.watch.lines) (unpaused (N.answers self.new.node))) }
        ensures asleep { OnOk result (self.new.awake ≡ []) }
    {
        self.wake_kept()?;
        wake_all(&mut self.watch, &mut self.awake, self.woken.as_slice())?;
        self.gather()?;
        Ok(())
    }

    /// Whether something is to be done at one of the connections that are kept.
    fn any_busy(&self) -> bool
        ensures { result ≡ any_busy self.now.busy.items (line_of self.now.watch.lines) (N.answers self.now.node) }
    {
        let mut rest = self.busy.as_slice();
        while let Some((first, after)) = rest.split_first() {
            if self.is_busy(*first) {
                return true;
            }
            rest = after;
        }
        false
    }

    /// Whether there is nothing to do but to wait.
    fn is_settled(&self) -> bool
        ensures { result ≡ (not (any_busy self.now.busy.items (line_of self.now.watch.lines) (N.answers self.now.node)) && are_gates_settled N.takes_of self.now.watch.gates) }
    {
        !self.any_busy() && self.are_gates_settled()
    }

    /// Puts the connections that are kept in their order: by number, from behind the last that gave bytes.
    fn take_batch(&mut self) -> Vec<u64>
        ensures order { (k : ℕ) × (result.items ≡ drop k self.old.busy.items ++ take k self.old.busy.items) }
        ensures empty { self.new.busy.items ≡ [] }
        ensures awake { self.new.awake ≡ self.old.awake }
        ensures watch { self.new.watch ≡ self.old.watch }
        ensures node { self.new.node ≡ self.old.node }
    {
        let mut batch = mem::replace(&mut self.busy, Vec::new(self.alloc));
        let from = self.turn_from;
        let first = batch.as_slice().partition_point(|conn| *conn <= from);
        batch.rotate_left(first);
        batch
    }

    /// Visits, accepts, dials and shuts.
    fn act<P: Port>(&mut self, port: &mut P) -> Result<(), NoMemory>
        requires steady { Steady self.old.busy.items self.old.awake self.old.watch (N.answers self.old.node) (N.top self.old.node) (P.last port.old) (P.told port.old) }
        ensures made { OnOk result (Made N.did N.outgoing N.answers N.top (P.told port.old) (P.told port.new) self.old.watch self.new.watch self.old.node self.new.node) }
        ensures dialled { OnOk result (N.to_dial self.new.node ≡ []) }
        ensures single { OnOk result (NoTwice self.new.busy.items) }
        ensures rests { OnOk result (Rests self.new.busy.items (line_of self.new.watch.lines) (unpaused (N.answers self.new.node))) }
        ensures asleep { OnOk result (self.new.awake ≡ []) }
        ensures given { OnOk result (Given self.new.watch (N.top self.new.node) (P.last port.new)) }
        ensures faults { P.faults port.old ≤ P.faults port.new }
        ensures served { OnOk result (MadeWith N.did N.outgoing N.answers N.top (λ es. VisitsAll N.did N.outgoing N.answers N.top (known_of self.old.watch) self.old.node self.new.node es × AsksGates N.takes_of self.old.watch.gates es × VisitsOnce es) (P.told port.old) (P.told port.new) self.old.watch self.new.watch self.old.node self.new.node) }
    {
        let mut batch = self.take_batch();
        self.visit_all(port, batch.as_slice())?;
        self.accept_all(port)?;
        self.dial_all(port)?;
        batch.clear();
        self.busy = batch;
        self.sweep(port)?;
        Ok(())
    }

    fn go_on<P: Port>(&mut self, port: &mut P) -> Result<Waited, NoMemory>
        requires steady { Steady self.old.busy.items self.old.awake self.old.watch (N.answers self.old.node) (N.top self.old.node) (P.last port.old) (P.told port.old) }
        ensures turned { IfOk result (λ answer. Turned N.did N.outgoing N.answers N.top N.to_dial N.takes_of (P.told port.old) (P.told port.new) self.old.watch self.new.watch self.old.node self.new.node answer) }
        ensures single { OnOk result (NoTwice self.new.busy.items) }
        ensures rests { OnOk result (Rests self.new.busy.items (line_of self.new.watch.lines) (unpaused (N.answers self.new.node))) }
        ensures asleep { OnOk result (self.new.awake ≡ []) }
        ensures given { OnOk result (Given self.new.watch (N.top self.new.node) (P.last port.new)) }
        ensures count { MatchResult result (λ answer. WaitCounts answer (P.faults port.old) (P.faults port.new)) (λ e. P.faults port.old ≤ P.faults port.new) }
    {
        if self.is_settled() {
            self.wait_once(port)
        } else {
            self.act(port)?;
            Ok(Waited::Ready)
        }
    }

    fn count_turn(&mut self)
        ensures watch { self.new.watch ≡ counted self.old.watch }
        ensures busy { self.new.busy ≡ self.old.busy }
        ensures awake { self.new.awake ≡ self.old.awake }
        ensures node { self.new.node ≡ self.old.node }
    {
        self.watch.course.turn = self.watch.course.turn.saturating_add(1);
    }

    /// A turn but the first. Behind another answer than `More` there is none.
    pub fn turn<P: Port>(&mut self, port: &mut P) -> Turn
        requires steady { Steady self.old.busy.items self.old.awake self.old.watch (N.answers self.old.node) (N.top self.old.node) (P.last port.old) (P.told port.old) }
        ensures turned { IsTurn N.did N.outgoing N.answers N.top N.to_dial N.takes_of N.ended_count N.is_cut_off (P.told port.old) (P.told port.new) self.old.watch self.new.watch self.old.node self.new.node result }
        ensures steady { result ≡ turn_is.More → Steady self.new.busy.items self.new.awake self.new.watch (N.answers self.new.node) (N.top self.new.node) (P.last port.new) (P.told port.new) }
        ensures count { TurnCounts result (P.faults port.old) (P.faults port.new) }
    {
        self.count_turn();
        match self.go_on(port) {
            Ok(Waited::Ready) => self.answer(),
            Ok(Waited::Failed) => Turn::WaitFault,
            Ok(Waited::NoMemory) => Turn::NoMemory,
            Err(NoMemory) => Turn::NoMemory,
        }
    }
}

/// Notes that a wait named these, and wakes them.
fn wake_all(watch: &mut Watch, awake: &mut Awake, named: &[Ready]) -> Result<(), NoMemory>
    ensures lines { OnOk result ((c : ℕ) → line_of watch.new.lines c ≡ named_from named.now c (line_of watch.old.lines c)) }
    ensures gates { OnOk result (watch.new.gates ≡ gates_named named.now watch.old.gates) }
    ensures held { OnOk result (watch.new.held ≡ watch.old.held) }
    ensures drain { OnOk result (watch.new.drain ≡ watch.old.drain) }
    ensures course { OnOk result (watch.new.course ≡ watch.old.course) }
    ensures awake { OnOk result (WakesLines (is_in awake.old) (is_in awake.new) (line_of watch.old.lines) (line_of watch.new.lines)) }
{
    let mut rest = named;
    while let Some((first, after)) = rest.split_first() {
        wake(watch, awake, *first)?;
        rest = after;
    }
    Ok(())
}

fn wake(watch: &mut Watch, awake: &mut Awake, named: Ready) -> Result<(), NoMemory>
    ensures lines { OnOk result ((c : ℕ) → line_of watch.new.lines c ≡ named_one named c (line_of watch.old.lines c)) }
    ensures gates { OnOk result (watch.new.gates ≡ gate_named named watch.old.gates) }
    ensures held { OnOk result (watch.new.held ≡ watch.old.held) }
    ensures drain { OnOk result (watch.new.drain ≡ watch.old.drain) }
    ensures course { OnOk result (watch.new.course ≡ watch.old.course) }
    ensures awake { OnOk result (WakesLines (is_in awake.old) (is_in awake.new) (line_of watch.old.lines) (line_of watch.new.lines)) }
{
    watch.note_named(named)?;
    match named {
        Ready::Conn(conn) => awake.add(conn),
        Ready::Gate(_) => Ok(()),
    }
}
