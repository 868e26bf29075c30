ghost use Rattle.std.specs.Prelude.{true, false, ◌≡◌, ◌≤◌, ◌+◌, ◌<◌, ◌^◌, nat_lt, [], OnOk};
ghost use Rattle.kn_loop.specs.Kept.{is_in, line_of};
ghost use Rattle.kn_loop.specs.Calls.{Opened, WakesAlso, unpaused};
ghost use Rattle.kn_loop.specs.Gates.{is_unsettled, gate_of};
ghost use Rattle.kn_loop.specs.Known.{Given, Begins};
ghost use Rattle.kn_loop.specs.Ran.{Made, connection_limit};
ghost use Rattle.kn_loop.specs.Turns.{Covers};
ghost use Rattle.kn_loop.specs.Visited.{MadeWith, AsksGate, AsksGates, Within, has_accept};

use crate::Node;
use crate::running::{CONNECTION_LIMIT, Running};
use kn_io::NoMemory;
use kn_port::{Accepted, Gate, Port};

/// What a turn does at the gates.
impl<N: Node + Drop> Running<N> {
    /// Tells the node of a connection that came through a gate.
    fn open(&mut self, conn: u64, gate: Gate) -> Result<(), NoMemory>
        requires above { N.top self.old.node < conn }
        requires takes { N.takes_of gate ≡ true }
        requires room { self.old.watch.held + 1 < 2 ^ 64 }
        ensures did { OnOk result (N.did self.old.node (Opened conn gate) self.new.node) }
        ensures begins { OnOk result (Begins conn false false self.old.watch self.new.watch) }
        ensures wakes { OnOk result (WakesAlso conn (is_in self.old.awake) (is_in self.new.awake) (unpaused (N.answers self.old.node)) (unpaused (N.answers self.new.node))) }
        ensures top { OnOk result (N.top self.new.node ≡ conn) }
    {
        self.watch.begin(conn, false, false)?;
        self.awake.add(conn)?;
        self.node.opened(&mut self.awake, conn, gate)?;
        Ok(())
    }

    /// Accepts once where there is room for a connection.
    fn accept_free<P: Port>(&mut self, port: &mut P, gate: Gate) -> Result<(), NoMemory>
        requires free { nat_lt self.old.watch.held connection_limit ≡ true }
        requires takes { N.takes_of gate ≡ true }
        requires due { is_unsettled (gate_of self.old.watch.gates gate) ≡ true }
        requires given { Given self.old.watch (N.top self.old.node) (P.last port.old) }
        requires covers { Covers (is_in self.old.awake) (line_of self.old.watch.lines) (unpaused (N.answers self.old.node)) }
        ensures made { OnOk result (Made N.did N.outgoing N.answers N.top (P.told port.old) (P.told port.new) self.old.watch self.new.watch self.old.node self.new.node) }
        ensures covers { OnOk result (Covers (is_in self.new.awake) (line_of self.new.watch.lines) (unpaused (N.answers self.new.node))) }
        ensures given { OnOk result (Given self.new.watch (N.top self.new.node) (P.last port.new)) }
        ensures faults { P.faults port.old ≤ P.faults port.new }
        ensures asked { OnOk result (MadeWith N.did N.outgoing N.answers N.top (λ es. (has_accept es gate ≡ true) × Within [] [] [] es) (P.told port.old) (P.told port.new) self.old.watch self.new.watch self.old.node self.new.node) }
    {
        let answer = port.accept(gate);
        self.watch.gates.note_accepted(gate, answer);
        match answer {
            Accepted::Conn(conn) => {
                self.open(conn, gate)?;
                Ok(())
            }
            Accepted::NotYet => Ok(()),
            Accepted::Failed => Ok(()),
            Accepted::NoMemory => Err(NoMemory),
        }
    }

    /// Accepts once where there is no room for a connection: one that comes is shut at once.
    fn accept_full<P: Port>(&mut self, port: &mut P, gate: Gate) -> Result<(), NoMemory>
        requires full { nat_lt self.old.watch.held connection_limit ≡ false }
        requires due { is_unsettled (gate_of self.old.watch.gates gate) ≡ true }
        requires given { Given self.old.watch (N.top self.old.node) (P.last port.old) }
        requires covers { Covers (is_in self.old.awake) (line_of self.old.watch.lines) (unpaused (N.answers self.old.node)) }
        ensures made { OnOk result (Made N.did N.outgoing N.answers N.top (P.told port.old) (P.told port.new) self.old.watch self.new.watch self.old.node self.new.node) }
        ensures covers { OnOk result (Covers (is_in self.new.awake) (line_of self.new.watch.lines) (unpaused (N.answers self.new.node))) }
        ensures given { OnOk result (Given self.new.watch (N.top self.new.node) (P.last port.new)) }
        ensures faults { P.faults port.old ≤ P.faults port.new }
        ensures asked { OnOk result (MadeWith N.did N.outgoing N.answers N.top (λ es. (has_accept es gate ≡ true) × Within [] [] [] es) (P.told port.old) (P.told port.new) self.old.watch self.new.watch self.old.node self.new.node) }
    {
        let answer = port.accept(gate);
        self.watch.gates.note_accepted(gate, answer);
        match answer {
            Accepted::Conn(conn) => {
                port.shut(conn);
                Ok(())
            }
            Accepted::NotYet => Ok(()),
            Accepted::Failed => Ok(()),
            Accepted::NoMemory => Err(NoMemory),
        }
    }

    fn accept_once<P: Port>(&mut self, port: &mut P, gate: Gate) -> Result<(), NoMemory>
        requires takes { N.takes_of gate ≡ true }
        requires due { is_unsettled (gate_of self.old.watch.gates gate) ≡ true }
        requires given { Given self.old.watch (N.top self.old.node) (P.last port.old) }
        requires covers { Covers (is_in self.old.awake) (line_of self.old.watch.lines) (unpaused (N.answers self.old.node)) }
        ensures made { OnOk result (Made N.did N.outgoing N.answers N.top (P.told port.old) (P.told port.new) self.old.watch self.new.watch self.old.node self.new.node) }
        ensures covers { OnOk result (Covers (is_in self.new.awake) (line_of self.new.watch.lines) (unpaused (N.answers self.new.node))) }
        ensures given { OnOk result (Given self.new.watch (N.top self.new.node) (P.last port.new)) }
        ensures faults { P.faults port.old ≤ P.faults port.new }
        ensures asked { OnOk result (MadeWith N.did N.outgoing N.answers N.top (λ es. (has_accept es gate ≡ true) × Within [] [] [] es) (P.told port.old) (P.told port.new) self.old.watch self.new.watch self.old.node self.new.node) }
    {
        if self.watch.held < CONNECTION_LIMIT {
            self.accept_free(port, gate)
        } else {
            self.accept_full(port, gate)
        }
    }

    /// Accepts once where the gate may have something to give.
    #[tactic(auto, using(crate::proofs::Making::nothing_made))]
    fn accept_if_due<P: Port>(&mut self, port: &mut P, gate: Gate) -> Result<(), NoMemory>
        requires given { Given self.old.watch (N.top self.old.node) (P.last port.old) }
        requires covers { Covers (is_in self.old.awake) (line_of self.old.watch.lines) (unpaused (N.answers self.old.node)) }
        ensures made { OnOk result (Made N.did N.outgoing N.answers N.top (P.told port.old) (P.told port.new) self.old.watch self.new.watch self.old.node self.new.node) }
        ensures covers { OnOk result (Covers (is_in self.new.awake) (line_of self.new.watch.lines) (unpaused (N.answers self.new.node))) }
        ensures given { OnOk result (Given self.new.watch (N.top self.new.node) (P.last port.new)) }
        ensures faults { P.faults port.old ≤ P.faults port.new }
        ensures asked { OnOk result (MadeWith N.did N.outgoing N.answers N.top (λ es. AsksGate N.takes_of self.old.watch.gates gate es × Within [] [] [] es) (P.told port.old) (P.told port.new) self.old.watch self.new.watch self.old.node self.new.node) }
    {
        if self.node.takes(gate) && self.watch.gates.at(gate).is_unsettled() {
            return self.accept_once(port, gate);
        }
        Ok(())
    }

    /// Accepts once at each gate that may have something to give.
    pub(crate) fn accept_all<P: Port>(&mut self, port: &mut P) -> Result<(), NoMemory>
        requires given { Given self.old.watch (N.top self.old.node) (P.last port.old) }
        requires covers { Covers (is_in self.old.awake) (line_of self.old.watch.lines) (unpaused (N.answers self.old.node)) }
        ensures made { OnOk result (Made N.did N.outgoing N.answers N.top (P.told port.old) (P.told port.new) self.old.watch self.new.watch self.old.node self.new.node) }
        ensures covers { OnOk result (Covers (is_in self.new.awake) (line_of self.new.watch.lines) (unpaused (N.answers self.new.node))) }
        ensures given { OnOk result (Given self.new.watch (N.top self.new.node) (P.last port.new)) }
        ensures faults { P.faults port.old ≤ P.faults port.new }
        ensures asked { OnOk result (MadeWith N.did N.outgoing N.answers N.top (λ es. AsksGates N.takes_of self.old.watch.gates es × Within [] [] [] es) (P.told port.old) (P.told port.new) self.old.watch self.new.watch self.old.node self.new.node) }
    {
        self.accept_if_due(port, Gate::Agents)?;
        self.accept_if_due(port, Gate::Clients)?;
        self.accept_if_due(port, Gate::Connect)?;
        self.accept_if_due(port, Gate::Apps)?;
        Ok(())
    }
}
