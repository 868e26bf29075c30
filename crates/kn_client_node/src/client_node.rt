ghost use Rattle.std.specs.Prelude.{◌≡◌, ◌==◌, ◌<◌, ◌≤◌, ℕ, nat_eq, [], ◌∷◌, ◌++◌, true, false, length, OnOk, IfOk, MatchOption};
ghost use Rattle.std.specs.List.{list_any};
ghost use Rattle.kn_client_node.specs.Calls as call;
ghost use Rattle.kn_client_node.specs.Calls.{Bytes, Took, Ended, Lost, App, Handling, HandsOut};
ghost use Rattle.kn_client_node.specs.Missing.{missing_of};

use crate::endings::Endings;
use crate::node::Node;
use crate::{answers, settled};
use kn_edge_core::ClientCore;
use kn_ends::{Carrier, Inlets, PacketQueue};
use kn_h2::{Conn, Role};
use kn_io::{NoMemory, Text};
use kn_rising::{Rising, Stirred};
use std::alloc::Global;
use std::marker::Model;

/// A client over the bytes of its connections. Contracts see its data. After an `Err` it is safe to use, and
/// nothing else is said of it.
#[derive(Drop)]
pub struct ClientNode {
    node: Node,
}

impl Model for ClientNode {
    ghost use Rattle.kn_client_node.specs.declared.node.Node.{Node};

    ghost Value = { Node };

    ghost view = { λ c. c.node };
}

fn fresh_carrier(alloc: Global) -> Result<Carrier, NoMemory>
    ensures { IfOk result (λ carrier. carrier ≡ call.fresh_carrier) }
{
    let conn = Conn::new(alloc, Role::Client)?;
    Ok(Carrier {
        conn,
        lost: false,
        inlets: Inlets::new(alloc),
    })
}

fn fresh_node(alloc: Global, server: u64, authority: &str) -> Result<Node, NoMemory>
    ensures { IfOk result (λ node. node ≡ call.fresh_node server authority.now) }
{
    let carrier = fresh_carrier(alloc)?;
    let authority = Text::of(alloc, authority)?;
    Ok(Node {
        core: ClientCore::new(alloc),
        server,
        carrier,
        authority,
        stream: None,
        behind: PacketQueue::new(alloc),
        sides: Rising::new(alloc),
        by_app: Rising::new(alloc),
        ended: Endings::new(alloc),
        top: server,
        handled: 0,
        gone: 0,
        stirred: Stirred::new(alloc),
    })
}

impl ClientNode {
    /// A client whose connection to the server has this number, before its first app.
    #[tactic(auto, using(crate::proofs::StartLemmas::server_stays))]
    pub fn new(alloc: Global, server: u64, authority: &str) -> Result<ClientNode, NoMemory>
        ensures fresh { IfOk result (λ client. client ≡ call.fresh_node server authority.now) }
        ensures top { IfOk result (λ client. client.top ≡ server) }
        ensures stays { IfOk result (λ client. call.shuts_of client server ≡ false) }
    {
        let node = fresh_node(alloc, server, authority)?;
        Ok(ClientNode { node })
    }

    /// The next bytes of a connection.
    pub fn bytes(&mut self, alloc: Global, conn: u64, piece: &[u8]) -> Result<(), NoMemory>
        requires wanted { call.wants_of self.old conn ≡ true }
        requires some { (0 < length piece.now) × (length piece.now ≤ 16384) }
        ensures handled { OnOk result (Handling self.old (Bytes conn piece.now) self.new) }
        ensures top { OnOk result (self.new.top ≡ self.old.top) }
        ensures stirs { OnOk result (call.Stirs self.old self.new) }
    {
        settled::bytes(alloc, &mut self.node, conn, piece)
    }

    /// A connection took so many bytes of what waits for it.
    pub fn took(&mut self, alloc: Global, conn: u64, count: usize) -> Result<(), NoMemory>
        requires { count ≤ length (call.out_of self.old conn) }
        ensures handled { OnOk result (Handling self.old (Took conn count) self.new) }
        ensures top { OnOk result (self.new.top ≡ self.old.top) }
        ensures stirs { OnOk result (call.Stirs self.old self.new) }
    {
        settled::took(alloc, &mut self.node, conn, count)
    }

    /// The bytes that come from a connection ended. To the server's connection this is a loss.
    pub fn ended(&mut self, alloc: Global, conn: u64) -> Result<(), NoMemory>
        ensures handled { OnOk result (Handling self.old (Ended conn) self.new) }
        ensures top { OnOk result (self.new.top ≡ self.old.top) }
        ensures stirs { OnOk result (call.Stirs self.old self.new) }
    {
        settled::ended(alloc, &mut self.node, conn)
    }

    /// A connection failed.
    pub fn lost(&mut self, alloc: Global, conn: u64) -> Result<(), NoMemory>
        ensures handled { OnOk result (Handling self.old (Lost conn) self.new) }
        ensures top { OnOk result (self.new.top ≡ self.old.top) }
        ensures stirs { OnOk result (call.Stirs self.old self.new) }
    {
        settled::lost(alloc, &mut self.node, conn)
    }

    /// An app came on a new connection, and asks for an address.
    pub fn app(&mut self, alloc: Global, conn: u64, address: &str) -> Result<(), NoMemory>
        requires above { self.old.top < conn }
        requires short { length address.now ≤ 1048576 }
        ensures handled { OnOk result (Handling self.old (App conn address.now) self.new) }
        ensures top { OnOk result (self.new.top ≡ conn) }
        ensures stirs { OnOk result (call.Stirs self.old self.new) }
    {
        settled::app(alloc, &mut self.node, conn, address)
    }

    /// Hands out what was told first to an app that left or was closed at once: its connection, whether it never
    /// had a tunnel, and the error or the empty text. Takes no memory.
    pub fn next_ended(&mut self) -> Option<(u64, bool, Text)>
        ensures { MatchOption result ((self.old.ended ≡ []) × (self.new ≡ self.old)) (λ told. HandsOut self.old told.0 told.1 told.2 self.new) }
    {
        match self.node.ended.pop() {
            Some(ending) => Some((ending.conn, ending.early, ending.error)),
            None => None,
        }
    }

    /// Drops what `next_ended` would hand out. Takes no memory.
    pub fn drop_ended(&mut self, alloc: Global)
        ensures { self.new ≡ record self.old { ended = [] } }
    {
        self.node.ended = Endings::new(alloc);
    }

    /// Takes out one of the connections of which `out` or `shuts` may be other than it was when it was last taken
    /// out. Takes no memory.
    pub fn next_stirred(&mut self) -> Option<u64>
        ensures { MatchOption result ((self.old.stirred ≡ []) × (self.new ≡ self.old)) (λ c. self.old ≡ record self.new { stirred = self.new.stirred ++ c ∷ [] }) }
    {
        self.node.stirred.pop()
    }

    /// The bytes of a connection are wanted.
    pub fn wants(&self, conn: u64) -> bool
        ensures { result ≡ call.wants_of self.now conn }
    {
        answers::wants(&self.node, conn)
    }

    /// What waits for a connection to take it.
    pub fn out(&self, conn: u64) -> &[u8]
        ensures { result.now ≡ call.out_of self.now conn }
    {
        answers::out(&self.node, conn)
    }

    /// A connection is to be closed once it took all that waits for it.
    pub fn shuts(&self, conn: u64) -> bool
        ensures { result ≡ call.shuts_of self.now conn }
    {
        answers::shuts(&self.node, conn)
    }

    /// Nothing is under way on a connection.
    pub fn bare(&self, conn: u64) -> bool
        ensures { result ≡ call.bare_of self.now conn }
    {
        answers::bare(&self.node, conn)
    }

    /// How many bytes are missing on the server's connection to the end of the preface, of the head of a frame, or of
    /// its payload. Of every other connection, and of one that was lost or has failed, each byte stands by itself: it
    /// is 1. Takes no memory.
    pub fn missing(&self, conn: u64) -> usize
        ensures value { result ≡ missing_of self.now conn }
        ensures some { 1 ≤ result }
    {
        answers::missing(&self.node, conn)
    }

    /// The number of the app of a connection, while it is on the client's list.
    pub fn app_of(&self, conn: u64) -> Option<u64>
        ensures { result ≡ call.app_of self.now conn }
    {
        answers::app_of(&self.node, conn)
    }

    /// The server's connection was lost or has failed.
    pub fn server_lost(&self) -> bool
        ensures { result ≡ call.is_server_lost self.now }
    {
        answers::server_lost(&self.node)
    }

    /// How many packets were handled.
    pub fn handled(&self) -> u64
        ensures { result ≡ self.now.handled }
    {
        self.node.handled
    }

    /// How many apps left the client's list.
    pub fn gone(&self) -> u64
        ensures { result ≡ self.now.gone }
    {
        self.node.gone
    }

    /// The number of the server's connection.
    pub fn server(&self) -> u64
        ensures { result ≡ self.now.server }
    {
        self.node.server
    }

    /// The greatest number of a connection so far.
    pub fn top(&self) -> u64
        ensures { result ≡ self.now.top }
    {
        self.node.top
    }

    /// The connections of apps that are kept, by rising number. Each other one but the server's is not read, has
    /// nothing to take, and is to be closed.
    pub fn numbers(&self) -> &[u64]
        ensures value { result.now ≡ self.now.sides.numbers }
        ensures others { (c : ℕ) → list_any (nat_eq c) result.now ≡ false → (c == self.now.server) ≡ false →
            (call.wants_of self.now c ≡ false) × (call.out_of self.now c ≡ []) × (call.shuts_of self.now c ≡ true) }
    {
        self.node.sides.holds();
        self.node.sides.numbers()
    }

    /// The core.
    pub fn core(&self) -> &ClientCore
        ensures { result.now ≡ self.now.core }
    {
        &self.node.core
    }
}
