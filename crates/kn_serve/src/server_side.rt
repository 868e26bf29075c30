ghost use Rattle.std.specs.Prelude.{ℕ, List, [], Bool, true, false, ◌≡◌, OnOk};
ghost use Rattle.kn_loop.specs.Kept.{is_in};
ghost use Rattle.kn_server_node.specs.Calls.{out_of};
ghost use Rattle.kn_serve.specs.Sides as side;

use kn_io::{NoMemory, Text};
use kn_loop::{Awake, Node};
use kn_port::Gate;
use kn_server_node::{ServerKind, ServerNode};
use std::alloc::Global;

/// The server's node, as the loop sees it.
#[derive(Drop)]
pub(crate) struct ServerSide {
    pub(crate) node: ServerNode,
    pub(crate) alloc: Global,
}

/// What comes through a gate of a server.
fn kind_of(gate: Gate) -> ServerKind
    ensures { result ≡ side.kind_of gate }
{
    match gate {
        Gate::Agents => ServerKind::Agents,
        Gate::Clients => ServerKind::Clients,
        Gate::Connect => ServerKind::Connect,
        Gate::Apps => ServerKind::Connect,
    }
}

impl ServerSide {
    /// Drops the choices that the node made, takes out the connections that it stirred, and wakes them.
    fn wake(&mut self, awake: &mut Awake) -> Result<(), NoMemory>
        ensures taken { OnOk result (self.new.node ≡ record self.old.node { choices = []; stirred = [] }) }
        ensures wakes { OnOk result (side.WakesStirred self.old.node.stirred (is_in awake.old) (is_in awake.new)) }
    {
        self.node.drop_choices(self.alloc);
        while let Some(conn) = self.node.next_stirred() {
            awake.add(conn)?;
        }
        Ok(())
    }
}

impl Node for ServerSide {
    ghost did = { λ old call new. side.ServerDid old.node call new.node };

    ghost answers = { λ s. side.server_answers s.node };

    ghost outgoing = { λ s c. out_of s.node c };

    ghost top = { λ s. s.node.top };

    ghost to_dial = { λ s. [] };

    ghost has_ticket = { λ s ticket. Unit {0} };

    ghost ended_count = { λ s. s.node.gone };

    ghost is_cut_off = { λ s. false };

    ghost takes_of = { side.server_takes };

    fn takes(&self, gate: Gate) -> bool {
        match gate {
            Gate::Agents => true,
            Gate::Clients => true,
            Gate::Connect => true,
            Gate::Apps => false,
        }
    }

    fn wants(&self, conn: u64) -> bool {
        self.node.wants(conn)
    }

    fn out(&self, conn: u64) -> &[u8] {
        self.node.out(conn)
    }

    fn shuts(&self, conn: u64) -> bool {
        self.node.shuts(conn)
    }

    fn gone(&self) -> u64 {
        self.node.gone()
    }

    fn server_lost(&self) -> bool {
        false
    }

    fn opened(&mut self, awake: &mut Awake, conn: u64, gate: Gate) -> Result<(), NoMemory> {
        self.node.opened(self.alloc, conn, kind_of(gate))?;
        self.wake(awake)
    }

    fn bytes(&mut self, awake: &mut Awake, conn: u64, piece: &[u8]) -> Result<(), NoMemory> {
        self.node.bytes(self.alloc, conn, piece)?;
        self.wake(awake)
    }

    fn took(&mut self, awake: &mut Awake, conn: u64, count: usize) -> Result<(), NoMemory> {
        self.node.took(self.alloc, conn, count)?;
        self.wake(awake)
    }

    /// Of a server the end of a connection's bytes is its loss.
    fn ended(&mut self, awake: &mut Awake, conn: u64) -> Result<(), NoMemory> {
        self.node.lost(self.alloc, conn)?;
        self.wake(awake)
    }

    fn lost(&mut self, awake: &mut Awake, conn: u64) -> Result<(), NoMemory> {
        self.node.lost(self.alloc, conn)?;
        self.wake(awake)
    }

    fn next_dial(&mut self, awake: &mut Awake) -> Result<Option<(u64, Text)>, NoMemory> {
        let _awake = awake;
        Ok(None)
    }

    /// A server asks for no connection. One that it were given is as one that came to the gate of CONNECT.
    fn began(&mut self, awake: &mut Awake, ticket: u64, conn: u64) -> Result<(), NoMemory> {
        let _ticket = ticket;
        self.opened(awake, conn, Gate::Connect)
    }

    fn not_begun(&mut self, awake: &mut Awake, ticket: u64) -> Result<(), NoMemory> {
        let _awake = awake;
        let _ticket = ticket;
        Ok(())
    }

    fn dialled(&mut self, awake: &mut Awake, conn: u64, up: bool) -> Result<(), NoMemory> {
        let _awake = awake;
        let _conn = conn;
        let _up = up;
        Ok(())
    }

    fn drain(&mut self, awake: &mut Awake) -> Result<(), NoMemory> {
        let _awake = awake;
        Ok(())
    }
}
