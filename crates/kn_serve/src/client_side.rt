ghost use Rattle.std.specs.Prelude.{ℕ, ◌≤◌, List, [], length, Bool, true, false, ◌≡◌, OnOk};
ghost use Rattle.kn_loop.specs.Kept.{is_in};
ghost use Rattle.kn_client_node.specs.Calls.{out_of, is_server_lost};
ghost use Rattle.kn_serve.specs.Sides as side;

use kn_client_node::ClientNode;
use kn_io::{NoMemory, Text};
use kn_loop::{Awake, Node};
use kn_port::Gate;
use std::alloc::Global;

/// The client's node, as the loop sees it.
#[derive(Drop)]
pub(crate) struct ClientSide {
    pub(crate) node: ClientNode,
    /// The last connection of which the node was told nothing.
    pub(crate) other: u64,
    /// Where its apps want to go.
    pub(crate) address: Text,
    pub(crate) alloc: Global,
    ghost short: { length address ≤ 1048576 },
}

impl ClientSide {
    /// Drops what apps would be told, takes out the connections that the node stirred, and wakes them.
    fn wake(&mut self, awake: &mut Awake) -> Result<(), NoMemory>
        ensures taken { OnOk result (self.new.node ≡ record self.old.node { ended = []; stirred = [] }) }
        ensures wakes { OnOk result (side.WakesStirred self.old.node.stirred (is_in awake.old) (is_in awake.new)) }
        ensures other { self.new.other ≡ self.old.other }
        ensures address { self.new.address ≡ self.old.address }
    {
        self.node.drop_ended(self.alloc);
        while let Some(conn) = self.node.next_stirred() {
            awake.add(conn)?;
        }
        Ok(())
    }
}

impl Node for ClientSide {
    ghost did = { λ old call new. side.ClientDid old.address old.node call new.node };

    ghost answers = { λ s. side.client_answers s.node };

    ghost outgoing = { λ s c. out_of s.node c };

    ghost top = { λ s. side.top_of s.node.top s.other };

    ghost to_dial = { λ s. [] };

    ghost has_ticket = { λ s ticket. Unit {0} };

    ghost ended_count = { λ s. s.node.gone };

    ghost is_cut_off = { λ s. is_server_lost s.node };

    ghost takes_of = { side.client_takes };

    fn takes(&self, gate: Gate) -> bool {
        match gate {
            Gate::Agents => false,
            Gate::Clients => false,
            Gate::Connect => false,
            Gate::Apps => true,
        }
    }

    fn wants(&self, conn: u64) -> bool {
        self.node.wants(conn)
    }

    fn out(&self, conn: u64) -> &[u8] {
        self.node.out(conn)
    }

    fn shuts(&self, conn: u64) -> bool {
        self.node.shuts(conn)
    }

    fn gone(&self) -> u64 {
        self.node.gone()
    }

    fn server_lost(&self) -> bool {
        self.node.server_lost()
    }

    #[tactic(auto, using(crate::proofs::TopLemmas::given_below, crate::proofs::TopLemmas::given_is_top))]
    fn opened(&mut self, awake: &mut Awake, conn: u64, gate: Gate) -> Result<(), NoMemory> {
        let _gate = gate;
        self.node.app(self.alloc, conn, self.address.as_str())?;
        self.wake(awake)
    }

    fn bytes(&mut self, awake: &mut Awake, conn: u64, piece: &[u8]) -> Result<(), NoMemory> {
        self.node.bytes(self.alloc, conn, piece)?;
        self.wake(awake)
    }

    fn took(&mut self, awake: &mut Awake, conn: u64, count: usize) -> Result<(), NoMemory> {
        self.node.took(self.alloc, conn, count)?;
        self.wake(awake)
    }

    fn ended(&mut self, awake: &mut Awake, conn: u64) -> Result<(), NoMemory> {
        self.node.ended(self.alloc, conn)?;
        self.wake(awake)
    }

    fn lost(&mut self, awake: &mut Awake, conn: u64) -> Result<(), NoMemory> {
        self.node.lost(self.alloc, conn)?;
        self.wake(awake)
    }

    /// A client dials nothing but its server.
    fn next_dial(&mut self, awake: &mut Awake) -> Result<Option<(u64, Text)>, NoMemory> {
        let _awake = awake;
        Ok(None)
    }

    #[tactic(auto, using(crate::proofs::TopLemmas::other_is_top))]
    fn began(&mut self, awake: &mut Awake, ticket: u64, conn: u64) -> Result<(), NoMemory> {
        let _awake = awake;
        let _ticket = ticket;
        self.other = conn;
        Ok(())
    }

    fn not_begun(&mut self, awake: &mut Awake, ticket: u64) -> Result<(), NoMemory> {
        let _awake = awake;
        let _ticket = ticket;
        Ok(())
    }

    fn dialled(&mut self, awake: &mut Awake, conn: u64, up: bool) -> Result<(), NoMemory> {
        let _awake = awake;
        let _conn = conn;
        let _up = up;
        Ok(())
    }

    fn drain(&mut self, awake: &mut Awake) -> Result<(), NoMemory> {
        let _awake = awake;
        Ok(())
    }
}
