ghost use Rattle.std.specs.Prelude.{◌≡◌, ◌≤◌, ◌<◌, ℕ, nat_eq, [], ◌∷◌, ◌++◌, length, true, false, Some, OnOk, MatchOption};
ghost use Rattle.std.specs.List.{list_any};
ghost use Rattle.kn_rising.specs.Members.{at};
ghost use Rattle.kn_server_node.specs.Doors.{with_early};
ghost use Rattle.kn_server_node.specs.Ends.{on_door};
ghost use Rattle.kn_server_node.specs.Nodes.{on_end};
ghost use Rattle.kn_server_node.specs.Stirs.{Stirs};
ghost use Rattle.kn_server_node.specs.Calls as spec;
ghost use Rattle.kn_server_node.specs.Calls.{Opened, Bytes, Took, Lost, Does, Handling};
ghost use Rattle.kn_server_node.specs.Missing.{missing_of};

use crate::callers::collect;
use crate::choices::Choices;
use crate::chosen::Chosen;
use crate::connecting::head_bytes;
use crate::connections::Connections;
use crate::end::End;
use crate::hearing::lose_all;
use crate::kind::ServerKind;
use crate::losses::Losses;
use crate::node::Node;
use crate::pauses::door_waits;
use crate::places::Places;
use crate::settling::settle;
use crate::{doors, one};
use kn_ends::Told;
use kn_io::{NoMemory, Text};
use kn_rising::{Rising, Stirred};
use kn_route::Strategies;
use kn_server_core::ServerCore;
use std::alloc::Global;
use std::marker::Model;

/// The server over the bytes of its connections. Contracts see the node. After want of memory it is safe to use, and
/// nothing else is said of it.
#[derive(Drop)]
pub struct ServerNode {
    node: Node,
}

impl Model for ServerNode {
    ghost use Rattle.kn_server_node.specs.declared.node.Node.{Node};

    ghost Value = { Node };

    ghost view = { λ s. s.node };
}

fn stream_bytes(alloc: Global, node: &mut Node, conn: u64, piece: &[u8]) -> Result<(), NoMemory>
    ensures { OnOk result (node.new ≡ spec.fed conn piece.now node.old) }
{
    node.stirred.add(conn)?;
    node.ends.feed(alloc, conn, piece)?;
    collect(alloc, node, conn)
}

fn early_bytes(alloc: Global, node: &mut Node, conn: u64, piece: &[u8]) -> Result<(), NoMemory>
    ensures { OnOk result (node.new ≡ on_end conn (on_door (with_early piece.now)) node.old) }
{
    node.stirred.add(conn)?;
    node.ends.keep_early(alloc, conn, piece)
}

fn call_opened(alloc: Global, node: &mut Node, conn: u64, kind: ServerKind) -> Result<(), NoMemory>
    ensures { OnOk result (Does node.old (Opened conn kind) node.new) }
{
    let end = one::fresh(alloc, kind)?;
    node.stirred.add(conn)?;
    node.ends.insert(conn, end)?;
    node.top = conn;
    Ok(())
}

fn call_bytes(alloc: Global, node: &mut Node, conn: u64, piece: &[u8]) -> Result<(), NoMemory>
    ensures { OnOk result (Does node.old (Bytes conn piece.now) node.new) }
{
    match node.ends.get(conn) {
        Some(End::Streams { .. }) => stream_bytes(alloc, node, conn, piece),
        Some(End::Connect { door }) => match door.front {
            Some(_front) => early_bytes(alloc, node, conn, piece),
            None => head_bytes(alloc, node, conn, piece),
        },
        None => Ok(()),
    }
}

fn call_took(node: &mut Node, conn: u64, count: usize) -> Result<(), NoMemory>
    requires { count ≤ length (spec.out_of node.old conn) }
    ensures { OnOk result (Does node.old (Took conn count) node.new) }
{
    node.stirred.add(conn)?;
    node.ends.took(conn, count)
}

fn call_lost(alloc: Global, node: &mut Node, conn: u64) -> Result<(), NoMemory>
    ensures { OnOk result (Does node.old (Lost conn) node.new) }
{
    lose_all(node, conn)?;
    node.stirred.add(conn)?;
    node.ends.lose(alloc, conn)
}

fn wants_on(node: &Node, end: &End) -> bool
    ensures { result ≡ spec.wants_on node.now (Some end.now) }
{
    match end {
        End::Streams { carrier, .. } => kn_ends::is_live(carrier),
        End::Connect { door } => doors::has_room(door) && !door_waits(node, door),
    }
}

impl ServerNode {
    /// A server without connections, alone behind its address. Takes no memory.
    pub fn new(alloc: Global, strategies: Strategies, server_id: Text) -> ServerNode
        ensures start { result ≡ spec.start strategies server_id 1 }
        ensures top { result.top ≡ 0 }
    {
        ServerNode::counted(alloc, strategies, server_id, 1)
    }

    /// A server without connections, one of `count` behind its address: its answers to agents say so. Takes no memory.
    pub fn counted(alloc: Global, strategies: Strategies, server_id: Text, count: u32) -> ServerNode
        requires { (1 ≤ count) × (count ≤ 100) }
        ensures start { result ≡ spec.start strategies server_id count }
        ensures top { result.top ≡ 0 }
    {
        ServerNode {
            node: Node {
                core: ServerCore::new(alloc, strategies),
                ends: Connections::new(alloc),
                top: 0,
                links: Rising::new(alloc),
                fronts: Rising::new(alloc),
                past_links: Places::new(alloc),
                past_fronts: Places::new(alloc),
                told: Told::new(alloc),
                todo: Losses::new(alloc),
                stirred: Stirred::new(alloc),
                handled: 0,
                gone: 0,
                choices: Choices::new(alloc),
                id: server_id,
                count,
            },
        }
    }

    /// A connection begins, with a number above all earlier ones.
    pub fn opened(&mut self, alloc: Global, conn: u64, kind: ServerKind) -> Result<(), NoMemory>
        requires { self.old.top < conn }
        ensures handled { OnOk result (Handling self.old (Opened conn kind) self.new) }
        ensures top { OnOk result (self.new.top ≡ conn) }
        ensures stirs { OnOk result (Stirs self.old self.new) }
    {
        self.node.ends.holds();
        call_opened(alloc, &mut self.node, conn, kind)?;
        settle(alloc, &mut self.node)
    }

    /// The next bytes of a connection.
    pub fn bytes(&mut self, alloc: Global, conn: u64, piece: &[u8]) -> Result<(), NoMemory>
        requires wanted { spec.wants_of self.old conn ≡ true }
        requires size { (1 ≤ length piece.now) × (length piece.now ≤ 16384) }
        ensures handled { OnOk result (Handling self.old (Bytes conn piece.now) self.new) }
        ensures top { OnOk result (self.new.top ≡ self.old.top) }
        ensures stirs { OnOk result (Stirs self.old self.new) }
    {
        self.node.ends.holds();
        call_bytes(alloc, &mut self.node, conn, piece)?;
        settle(alloc, &mut self.node)
    }

    /// So many bytes of `out` went to the socket.
    pub fn took(&mut self, alloc: Global, conn: u64, count: usize) -> Result<(), NoMemory>
        requires known { conn ≤ self.old.top }
        requires within { count ≤ length (spec.out_of self.old conn) }
        ensures handled { OnOk result (Handling self.old (Took conn count) self.new) }
        ensures top { OnOk result (self.new.top ≡ self.old.top) }
        ensures stirs { OnOk result (Stirs self.old self.new) }
    {
        self.node.ends.holds();
        call_took(&mut self.node, conn, count)?;
        settle(alloc, &mut self.node)
    }

    /// A connection ended or failed.
    pub fn lost(&mut self, alloc: Global, conn: u64) -> Result<(), NoMemory>
        requires { conn ≤ self.old.top }
        ensures handled { OnOk result (Handling self.old (Lost conn) self.new) }
        ensures top { OnOk result (self.new.top ≡ self.old.top) }
        ensures stirs { OnOk result (Stirs self.old self.new) }
    {
        self.node.ends.holds();
        call_lost(alloc, &mut self.node, conn)?;
        settle(alloc, &mut self.node)
    }

    /// Takes out one of the connections of which `out` or `shuts` may be other than it was when it was last taken out.
    /// Takes no memory.
    pub fn next_stirred(&mut self) -> Option<u64>
        ensures { MatchOption result ((self.old.stirred ≡ []) × (self.new ≡ self.old)) (λ c. self.old ≡ record self.new { stirred = self.new.stirred ++ c ∷ [] }) }
    {
        self.node.stirred.pop()
    }

    /// Hands out the first of the choices of links that the core made and that were not handed out or dropped. Takes no
    /// memory.
    pub fn next_choice(&mut self) -> Option<Chosen>
        ensures { MatchOption result ((self.old.choices ≡ []) × (self.new ≡ self.old)) (λ chosen. self.old ≡ record self.new { choices = chosen ∷ self.new.choices }) }
    {
        self.node.choices.pop()
    }

    /// Drops what `next_choice` would hand out. Takes no memory.
    pub fn drop_choices(&mut self, alloc: Global)
        ensures { self.new ≡ record self.old { choices = [] } }
    {
        self.node.choices = Choices::new(alloc);
    }

    /// Bytes of the connection are wanted.
    pub fn wants(&self, conn: u64) -> bool
        ensures { result ≡ spec.wants_of self.now conn }
    {
        match self.node.ends.get(conn) {
            Some(end) => wants_on(&self.node, end),
            None => false,
        }
    }

    /// What waits for the socket of the connection.
    pub fn out(&self, conn: u64) -> &[u8]
        ensures { result.now ≡ spec.out_of self.now conn }
    {
        match self.node.ends.get(conn) {
            Some(end) => one::out(end),
            None => &[],
        }
    }

    /// The connection is to be closed once `out` is empty.
    pub fn shuts(&self, conn: u64) -> bool
        ensures { result ≡ spec.shuts_of self.now conn }
    {
        match self.node.ends.get(conn) {
            Some(end) => one::shuts(end),
            None => true,
        }
    }

    /// Nothing is under way on the connection.
    pub fn bare(&self, conn: u64) -> bool
        ensures { result ≡ spec.bare_of self.now conn }
    {
        match self.node.ends.get(conn) {
            Some(end) => one::is_bare(end),
            None => true,
        }
    }

    /// How many bytes are missing on the connection to the end of the preface, of the head of a frame, or of its
    /// payload. Of one that speaks CONNECT, that has failed, or that is not kept, each byte stands by itself: it is 1.
    /// Takes no memory.
    pub fn missing(&self, conn: u64) -> usize
        ensures value { result ≡ missing_of self.now conn }
        ensures some { 1 ≤ result }
    {
        match self.node.ends.get(conn) {
            Some(end) => one::missing(end),
            None => 1,
        }
    }

    pub fn core(&self) -> &ServerCore
        ensures { result.now ≡ self.now.core }
    {
        &self.node.core
    }

    /// How many packets were handled. It stays at its type's end.
    pub fn handled(&self) -> u64
        ensures { result ≡ self.now.handled }
    {
        self.node.handled
    }

    /// How many fronts ended. It stays at its type's end.
    pub fn gone(&self) -> u64
        ensures { result ≡ self.now.gone }
    {
        self.node.gone
    }

    /// The numbers of the connections that are kept, which rise. All others want nothing, have nothing out, and shut.
    pub fn numbers(&self) -> &[u64]
        ensures numbers { result.now ≡ self.now.ends.numbers }
        ensures others { (c : ℕ) → list_any (nat_eq c) result.now ≡ false → (spec.wants_of self.now c ≡ false) × (spec.out_of self.now c ≡ []) × (spec.shuts_of self.now c ≡ true) }
    {
        self.node.ends.numbers()
    }

    /// The greatest number that a connection had, or 0.
    pub fn top(&self) -> u64
        ensures { result ≡ self.now.top }
    {
        self.node.top
    }
}
