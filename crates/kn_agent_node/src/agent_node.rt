ghost use Rattle.std.specs.Prelude.{◌≡◌, ◌<◌, ◌≤◌, ◌==◌, ℕ, [], ◌∷◌, ◌++◌, true, false, nat_eq, length, OnOk, IfOk, MatchOption};
ghost use Rattle.std.specs.List.{list_any};
ghost use Rattle.std.specs.Option.{option_map};
ghost use Rattle.kn_agent_node.specs.Calls as call;
ghost use Rattle.kn_agent_node.specs.Calls.{Bytes, Took, Ended, Lost, Begins, NotBegun, Dialled, Drains, Handling};
ghost use Rattle.kn_agent_node.specs.Answers as answer;
ghost use Rattle.kn_agent_node.specs.Announced as announced_spec;
ghost use Rattle.kn_agent_node.specs.Missing.{missing_of};

use crate::node::Node;
use crate::settling::settle;
use crate::starting::started;
use crate::stirring::{enter, enter_at};
use crate::{announced, answers, calls, handing};
use kn_edge_core::AgentCore;
use kn_io::{NoMemory, Text};
use std::alloc::Global;
use std::marker::Model;

/// An agent over the bytes of its connections. Contracts see its data. After an `Err` it is safe to use, and
/// nothing else is said of it.
#[derive(Drop)]
pub struct AgentNode {
    node: Node,
}

impl Model for AgentNode {
    ghost use Rattle.kn_agent_node.specs.declared.node.Node.{Node};

    ghost Value = { Node };

    ghost view = { λ a. a.node };
}

impl AgentNode {
    /// An agent whose connection to the server has this number. Its call begins on it.
    #[tactic(auto, using(crate::proofs::StartLemmas::server_stays))]
    pub fn new(
        alloc: Global,
        server: u64,
        authority: &str,
        agent_id: &str,
        identifiers: &str,
    ) -> Result<AgentNode, NoMemory>
        ensures started { IfOk result (λ agent. agent ≡ call.started server authority.now agent_id.now identifiers.now) }
        ensures top { IfOk result (λ agent. agent.top ≡ server) }
        ensures stays { IfOk result (λ agent. answer.shuts_of agent server ≡ false) }
    {
        let node = started(alloc, server, authority, agent_id, identifiers)?;
        Ok(AgentNode { node })
    }

    /// The next bytes of a connection.
    pub fn bytes(&mut self, alloc: Global, conn: u64, piece: &[u8]) -> Result<(), NoMemory>
        requires wanted { answer.wants_of self.old conn ≡ true }
        requires some { (0 < length piece.now) × (length piece.now ≤ 16384) }
        ensures handled { OnOk result (Handling self.old (Bytes conn piece.now) self.new) }
        ensures top { OnOk result (self.new.top ≡ self.old.top) }
        ensures stirs { OnOk result (answer.Stirs self.old self.new) }
    {
        enter_at(&mut self.node, conn)?;
        calls::bytes(alloc, &mut self.node, conn, piece)?;
        settle(alloc, &mut self.node)?;
        Ok(())
    }

    /// So many bytes of what was to be written on a connection were.
    pub fn took(&mut self, alloc: Global, conn: u64, count: usize) -> Result<(), NoMemory>
        requires { count ≤ length (answer.out_of self.old conn) }
        ensures handled { OnOk result (Handling self.old (Took conn count) self.new) }
        ensures top { OnOk result (self.new.top ≡ self.old.top) }
        ensures stirs { OnOk result (answer.Stirs self.old self.new) }
    {
        enter_at(&mut self.node, conn)?;
        calls::took_bytes(alloc, &mut self.node, conn, count)?;
        settle(alloc, &mut self.node)?;
        Ok(())
    }

    /// The bytes of a connection ended. To the server's connection this is a loss.
    pub fn ended(&mut self, alloc: Global, conn: u64) -> Result<(), NoMemory>
        ensures handled { OnOk result (Handling self.old (Ended conn) self.new) }
        ensures top { OnOk result (self.new.top ≡ self.old.top) }
        ensures stirs { OnOk result (answer.Stirs self.old self.new) }
    {
        enter_at(&mut self.node, conn)?;
        calls::ended(alloc, &mut self.node, conn)?;
        settle(alloc, &mut self.node)?;
        Ok(())
    }

    /// A connection failed.
    pub fn lost(&mut self, alloc: Global, conn: u64) -> Result<(), NoMemory>
        ensures handled { OnOk result (Handling self.old (Lost conn) self.new) }
        ensures top { OnOk result (self.new.top ≡ self.old.top) }
        ensures stirs { OnOk result (answer.Stirs self.old self.new) }
    {
        enter_at(&mut self.node, conn)?;
        calls::lost(alloc, &mut self.node, conn)?;
        settle(alloc, &mut self.node)?;
        Ok(())
    }

    /// The dial of a ticket, which `next_dial` handed out, is under way on a connection.
    pub fn began(&mut self, alloc: Global, ticket: u64, conn: u64) -> Result<(), NoMemory>
        requires { self.old.top < conn }
        ensures handled { OnOk result (Handling self.old (Begins ticket conn) self.new) }
        ensures top { OnOk result (self.new.top ≡ conn) }
        ensures stirs { OnOk result (answer.Stirs self.old self.new) }
    {
        enter_at(&mut self.node, conn)?;
        calls::began(alloc, &mut self.node, ticket, conn)?;
        settle(alloc, &mut self.node)?;
        Ok(())
    }

    /// The dial of a ticket, which `next_dial` handed out, was refused at once.
    pub fn not_begun(&mut self, alloc: Global, ticket: u64) -> Result<(), NoMemory>
        ensures handled { OnOk result (Handling self.old (NotBegun ticket) self.new) }
        ensures top { OnOk result (self.new.top ≡ self.old.top) }
        ensures stirs { OnOk result (answer.Stirs self.old self.new) }
    {
        enter(&mut self.node)?;
        calls::not_begun(alloc, &mut self.node, ticket)?;
        settle(alloc, &mut self.node)?;
        Ok(())
    }

    /// A dial came to its end on its connection, won or not.
    pub fn dialled(&mut self, alloc: Global, conn: u64, up: bool) -> Result<(), NoMemory>
        ensures handled { OnOk result (Handling self.old (Dialled conn up) self.new) }
        ensures top { OnOk result (self.new.top ≡ self.old.top) }
        ensures stirs { OnOk result (answer.Stirs self.old self.new) }
    {
        enter_at(&mut self.node, conn)?;
        calls::dialled(alloc, &mut self.node, conn, up)?;
        settle(alloc, &mut self.node)?;
        Ok(())
    }

    /// The agent is to ask for no further dials.
    pub fn drain(&mut self, alloc: Global) -> Result<(), NoMemory>
        ensures handled { OnOk result (Handling self.old Drains self.new) }
        ensures top { OnOk result (self.new.top ≡ self.old.top) }
        ensures stirs { OnOk result (answer.Stirs self.old self.new) }
    {
        enter(&mut self.node)?;
        calls::drain(alloc, &mut self.node)?;
        settle(alloc, &mut self.node)?;
        Ok(())
    }

    /// Hands out the next dial: its ticket and its address. Takes no memory.
    pub fn next_dial(&mut self) -> Option<(u64, Text)>
        ensures first { MatchOption result ((self.old.dials ≡ []) × (self.new ≡ self.old)) (λ dial. call.HandsOut self.old dial.0 dial.1 self.new) }
        ensures top { self.new.top ≡ self.old.top }
    {
        handing::next_dial(&mut self.node)
    }

    /// Takes out one of the connections of which `out` or `shuts` may be other than it was when it was last taken
    /// out. Takes no memory.
    pub fn next_stirred(&mut self) -> Option<u64>
        ensures { MatchOption result ((self.old.stirred ≡ []) × (self.new ≡ self.old)) (λ c. self.old ≡ record self.new { stirred = self.new.stirred ++ c ∷ [] }) }
    {
        self.node.stirred.pop()
    }

    /// The bytes of a connection are wanted.
    pub fn wants(&self, conn: u64) -> bool
        ensures { result ≡ answer.wants_of self.now conn }
    {
        answers::wants(&self.node, conn)
    }

    /// What is to be written on a connection.
    pub fn out(&self, conn: u64) -> &[u8]
        ensures { result.now ≡ answer.out_of self.now conn }
    {
        answers::out(&self.node, conn)
    }

    /// A connection is to be closed once all is written.
    pub fn shuts(&self, conn: u64) -> bool
        ensures { result ≡ answer.shuts_of self.now conn }
    {
        answers::shuts(&self.node, conn)
    }

    /// Nothing is under way on a connection.
    pub fn bare(&self, conn: u64) -> bool
        ensures { result ≡ answer.bare_of self.now conn }
    {
        answers::bare(&self.node, conn)
    }

    /// How many bytes are missing on the server's connection to the end of the preface, of the head of a frame, or of
    /// its payload. Of every other connection, and of one that was lost or has failed, each byte stands by itself: it
    /// is 1. Takes no memory.
    pub fn missing(&self, conn: u64) -> usize
        ensures value { result ≡ missing_of self.now conn }
        ensures some { 1 ≤ result }
    {
        answers::missing(&self.node, conn)
    }

    /// The connectID of a destination's connection.
    pub fn connection(&self, conn: u64) -> Option<i64>
        ensures { result ≡ answer.connection_of self.now conn }
    {
        answers::connection(&self.node, conn)
    }

    /// The server's connection ended or failed, or the stream of the agent's call did.
    pub fn server_lost(&self) -> bool
        ensures { result ≡ answer.has_lost_server self.now }
    {
        answers::server_lost(&self.node)
    }

    /// The id that the server says it has, once the head of its answer came. It is empty where the server says none.
    pub fn server_id(&self) -> Option<&str>
        ensures { option_map (λ text. text.now) result ≡ announced_spec.server_id_in self.now.answer }
    {
        announced::server_id(&self.node)
    }

    /// How many servers there are, as the server says, from 1 to 100. It is 1 where the server says no such number.
    pub fn server_count(&self) -> u32
        ensures { result ≡ announced_spec.server_count_in self.now.answer }
    {
        announced::server_count(&self.node)
    }

    /// How many packets were handled.
    pub fn handled(&self) -> u64
        ensures { result ≡ self.now.handled }
    {
        self.node.handled
    }

    /// How many dial requests were handled.
    pub fn asked(&self) -> u64
        ensures { result ≡ self.now.asked }
    {
        self.node.asked
    }

    /// How many dials ended without a connection, and how many connections ended.
    pub fn gone(&self) -> u64
        ensures { result ≡ self.now.gone }
    {
        self.node.gone
    }

    /// The number of the server's connection.
    pub fn server(&self) -> u64
        ensures { result ≡ self.now.server }
    {
        self.node.server
    }

    /// The greatest number of a connection so far.
    pub fn top(&self) -> u64
        ensures { result ≡ self.now.top }
    {
        self.node.top
    }

    /// The connections of destinations that are kept, by rising number. Of one that is neither among them nor
    /// the server's nothing is wanted or to be written, and it is to be closed.
    pub fn numbers(&self) -> &[u64]
        ensures value { result.now ≡ self.now.sides.numbers }
        ensures others { (c : ℕ) → list_any (nat_eq c) result.now ≡ false → (c == self.now.server) ≡ false → answer.IsUnknown self.now c }
    {
        self.node.sides.holds();
        self.node.sides.numbers()
    }

    /// The core.
    pub fn core(&self) -> &AgentCore
        ensures { result.now ≡ self.now.core }
    {
        &self.node.core
    }
}
