ghost use Rattle.std.specs.Prelude.{ℕ, List, [], Bool, true, false, ◌≡◌, OnOk};
ghost use Rattle.kn_loop.specs.Kept.{is_in};
ghost use Rattle.kn_agent_node.specs.Answers.{out_of, has_lost_server};
ghost use Rattle.kn_serve.specs.Sides as side;

use kn_agent_node::AgentNode;
use kn_io::{NoMemory, Text};
use kn_loop::{Awake, Node};
use kn_port::Gate;
use std::alloc::Global;

/// The agent's node, as the loop sees it.
#[derive(Drop)]
pub(crate) struct AgentSide {
    pub(crate) node: AgentNode,
    /// The last connection of which the node was told nothing.
    pub(crate) other: u64,
    pub(crate) alloc: Global,
}

impl AgentSide {
    /// Takes out the connections that the node stirred, and wakes them.
    fn wake(&mut self, awake: &mut Awake) -> Result<(), NoMemory>
        ensures taken { OnOk result (self.new.node ≡ record self.old.node { stirred = [] }) }
        ensures wakes { OnOk result (side.WakesStirred self.old.node.stirred (is_in awake.old) (is_in awake.new)) }
        ensures other { self.new.other ≡ self.old.other }
    {
        while let Some(conn) = self.node.next_stirred() {
            awake.add(conn)?;
        }
        Ok(())
    }
}

impl Node for AgentSide {
    ghost did = { λ old call new. side.AgentDid old.node call new.node };

    ghost answers = { λ s. side.agent_answers s.node };

    ghost outgoing = { λ s c. out_of s.node c };

    ghost top = { λ s. side.top_of s.node.top s.other };

    ghost to_dial = { λ s. side.to_dial s.node.dials };

    ghost has_ticket = { λ s ticket. Unit {0} };

    ghost ended_count = { λ s. s.node.gone };

    ghost is_cut_off = { λ s. has_lost_server s.node };

    ghost takes_of = { side.agent_takes };

    fn takes(&self, gate: Gate) -> bool {
        let _gate = gate;
        true
    }

    fn wants(&self, conn: u64) -> bool {
        self.node.wants(conn)
    }

    fn out(&self, conn: u64) -> &[u8] {
        self.node.out(conn)
    }

    fn shuts(&self, conn: u64) -> bool {
        self.node.shuts(conn)
    }

    fn gone(&self) -> u64 {
        self.node.gone()
    }

    fn server_lost(&self) -> bool {
        self.node.server_lost()
    }

    /// An agent has no gates: who came through one would be shut.
    #[tactic(auto, using(crate::proofs::TopLemmas::other_is_top))]
    fn opened(&mut self, awake: &mut Awake, conn: u64, gate: Gate) -> Result<(), NoMemory> {
        let _awake = awake;
        let _gate = gate;
        self.other = conn;
        Ok(())
    }

    fn bytes(&mut self, awake: &mut Awake, conn: u64, piece: &[u8]) -> Result<(), NoMemory> {
        self.node.bytes(self.alloc, conn, piece)?;
        self.wake(awake)
    }

    fn took(&mut self, awake: &mut Awake, conn: u64, count: usize) -> Result<(), NoMemory> {
        self.node.took(self.alloc, conn, count)?;
        self.wake(awake)
    }

    fn ended(&mut self, awake: &mut Awake, conn: u64) -> Result<(), NoMemory> {
        self.node.ended(self.alloc, conn)?;
        self.wake(awake)
    }

    fn lost(&mut self, awake: &mut Awake, conn: u64) -> Result<(), NoMemory> {
        self.node.lost(self.alloc, conn)?;
        self.wake(awake)
    }

    fn next_dial(&mut self, awake: &mut Awake) -> Result<Option<(u64, Text)>, NoMemory> {
        let _awake = awake;
        Ok(self.node.next_dial())
    }

    #[tactic(auto, using(crate::proofs::TopLemmas::given_below, crate::proofs::TopLemmas::given_is_top))]
    fn began(&mut self, awake: &mut Awake, ticket: u64, conn: u64) -> Result<(), NoMemory> {
        self.node.began(self.alloc, ticket, conn)?;
        self.wake(awake)
    }

    fn not_begun(&mut self, awake: &mut Awake, ticket: u64) -> Result<(), NoMemory> {
        self.node.not_begun(self.alloc, ticket)?;
        self.wake(awake)
    }

    fn dialled(&mut self, awake: &mut Awake, conn: u64, up: bool) -> Result<(), NoMemory> {
        self.node.dialled(self.alloc, conn, up)?;
        self.wake(awake)
    }

    fn drain(&mut self, awake: &mut Awake) -> Result<(), NoMemory> {
        self.node.drain(self.alloc)?;
        self.wake(awake)
    }
}
