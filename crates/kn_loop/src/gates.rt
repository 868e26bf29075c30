ghost use Rattle.std.specs.Prelude.{◌≡◌};
ghost use Rattle.kn_loop.specs.Gates.{no_gates, gate_of, with_gate, is_unsettled, state_named, gate_named, gate_listened, gate_accepted};

use kn_port::{Accepted, Gate, Listened, Ready};

/// A gate as the port's answers tell of it.
#[derive(Clone, Copy, Debug, PartialEq, Eq)]
pub enum GateState {
    /// It takes no connections.
    Closed,
    /// Its next accept may give one.
    Open,
    /// Its last accept gave none, and no later wait named it.
    Waits,
}

impl GateState {
    /// Whether its next accept may give something.
    pub fn is_unsettled(self) -> bool
        ensures { result ≡ is_unsettled self }
    {
        match self {
            GateState::Closed => false,
            GateState::Open => true,
            GateState::Waits => false,
        }
    }

    /// After a wait that named the gate.
    fn named(self) -> GateState
        ensures { result ≡ state_named self }
    {
        match self {
            GateState::Closed => GateState::Closed,
            GateState::Open => GateState::Open,
            GateState::Waits => GateState::Open,
        }
    }
}

/// What is known of each gate.
#[derive(Clone, Copy, Debug, PartialEq, Eq)]
pub struct Gates {
    pub agents: GateState,
    pub clients: GateState,
    pub connect: GateState,
    pub apps: GateState,
}

impl Gates {
    /// No gate takes connections.
    pub fn none() -> Gates
        ensures { result ≡ no_gates }
    {
        Gates {
            agents: GateState::Closed,
            clients: GateState::Closed,
            connect: GateState::Closed,
            apps: GateState::Closed,
        }
    }

    pub fn at(&self, gate: Gate) -> GateState
        ensures { result ≡ gate_of self.now gate }
    {
        match gate {
            Gate::Agents => self.agents,
            Gate::Clients => self.clients,
            Gate::Connect => self.connect,
            Gate::Apps => self.apps,
        }
    }

    fn set(&mut self, gate: Gate, state: GateState)
        ensures { self.new ≡ with_gate gate state self.old }
    {
        match gate {
            Gate::Agents => self.agents = state,
            Gate::Clients => self.clients = state,
            Gate::Connect => self.connect = state,
            Gate::Apps => self.apps = state,
        }
    }

    /// Notes what a wait named.
    pub(crate) fn note_named(&mut self, named: Ready)
        ensures { self.new ≡ gate_named named self.old }
    {
        match named {
            Ready::Conn(_) => {}
            Ready::Gate(gate) => {
                let state = self.at(gate).named();
                self.set(gate, state);
            }
        }
    }

    /// Notes what a `listen` answered.
    pub(crate) fn note_listened(&mut self, gate: Gate, answer: Listened)
        ensures { self.new ≡ gate_listened gate answer self.old }
    {
        match answer {
            Listened::Done => self.set(gate, GateState::Open),
            Listened::Failed => {}
            Listened::NoMemory => {}
        }
    }

    /// Notes what an accept answered.
    pub(crate) fn note_accepted(&mut self, gate: Gate, answer: Accepted)
        ensures { self.new ≡ gate_accepted gate answer self.old }
    {
        match answer {
            Accepted::Conn(_) => self.set(gate, GateState::Open),
            Accepted::NotYet => self.set(gate, GateState::Waits),
            Accepted::Failed => self.set(gate, GateState::Waits),
            Accepted::NoMemory => {}
        }
    }
}
