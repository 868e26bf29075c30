ghost use Rattle.std.specs.Prelude.{◌≡◌};
ghost use Rattle.kn_port.specs.Memory as spec;

use crate::{Accepted, Gate};

/// A gate in memory: what the ticks so far left for it.
#[derive(Clone, Copy, Debug, PartialEq, Eq)]
pub(crate) struct MemGate {
    /// Connections that came and were not taken yet.
    pub(crate) arrivals: u64,
    /// Accepts that are to fail.
    pub(crate) failures: u64,
}

/// The gates in memory.
#[derive(Clone, Copy, Debug, PartialEq, Eq)]
pub(crate) struct Gates {
    pub(crate) agents: MemGate,
    pub(crate) clients: MemGate,
    pub(crate) connect: MemGate,
    pub(crate) apps: MemGate,
}

impl MemGate {
    fn new() -> MemGate
        ensures { result ≡ spec.no_arrival }
    {
        MemGate {
            arrivals: 0,
            failures: 0,
        }
    }

    /// What an accept answers, where the next connection has this number.
    fn answer(self, number: u64) -> Accepted
        ensures answer { result ≡ spec.gate_accepts self number }
        ensures number { spec.Accepts result number }
    {
        if self.failures != 0 {
            return Accepted::Failed;
        }
        if self.arrivals == 0 {
            Accepted::NotYet
        } else {
            Accepted::Conn(number)
        }
    }

    /// What an accept with this answer leaves.
    fn after(self, answer: Accepted) -> MemGate
        ensures { result ≡ spec.gate_after answer self }
    {
        match answer {
            Accepted::Conn(_) => MemGate {
                arrivals: self.arrivals.saturating_sub(1),
                failures: self.failures,
            },
            Accepted::NotYet => self,
            Accepted::Failed => MemGate {
                arrivals: self.arrivals,
                failures: self.failures.saturating_sub(1),
            },
            Accepted::NoMemory => self,
        }
    }
}

impl Gates {
    /// Nothing came yet.
    pub(crate) fn new() -> Gates
        ensures { result ≡ spec.no_arrivals }
    {
        Gates {
            agents: MemGate::new(),
            clients: MemGate::new(),
            connect: MemGate::new(),
            apps: MemGate::new(),
        }
    }

    fn at(&self, gate: Gate) -> MemGate
        ensures { result ≡ spec.gate_of gate self.now }
    {
        match gate {
            Gate::Agents => self.agents,
            Gate::Clients => self.clients,
            Gate::Connect => self.connect,
            Gate::Apps => self.apps,
        }
    }

    fn put(&mut self, gate: Gate, one: MemGate)
        ensures { self.new ≡ spec.with_gate gate self.old one }
    {
        match gate {
            Gate::Agents => self.agents = one,
            Gate::Clients => self.clients = one,
            Gate::Connect => self.connect = one,
            Gate::Apps => self.apps = one,
        }
    }

    /// A connection comes to the gate.
    pub(crate) fn arrive(&mut self, gate: Gate)
        ensures { self.new ≡ spec.change_gate spec.gate_arrived gate self.old }
    {
        let one = self.at(gate);
        self.put(
            gate,
            MemGate {
                arrivals: one.arrivals.saturating_add(1),
                failures: one.failures,
            },
        );
    }

    /// One more accept at the gate is to fail.
    pub(crate) fn fail(&mut self, gate: Gate)
        ensures { self.new ≡ spec.change_gate spec.gate_fails gate self.old }
    {
        let one = self.at(gate);
        self.put(
            gate,
            MemGate {
                arrivals: one.arrivals,
                failures: one.failures.saturating_add(1),
            },
        );
    }

    /// What an accept at the gate answers, where the next connection has this number.
    pub(crate) fn answer(&self, gate: Gate, number: u64) -> Accepted
        ensures answer { result ≡ spec.gate_accepts (spec.gate_of gate self.now) number }
        ensures number { spec.Accepts result number }
    {
        self.at(gate).answer(number)
    }

    /// An accept at the gate had this answer.
    pub(crate) fn note(&mut self, gate: Gate, answer: Accepted)
        ensures { self.new ≡ spec.change_gate (spec.gate_after answer) gate self.old }
    {
        let one = self.at(gate);
        self.put(gate, one.after(answer));
    }
}
