ghost use Rattle.std.specs.Prelude.{true, false, ◌≡◌, ◌≤◌, ◌+◌, ◌<◌, ◌^◌, [], OnOk, IfOk};
ghost use Rattle.kn_loop.specs.Kept.{is_in, line_of};
ghost use Rattle.kn_loop.specs.Calls.{Began, Wakes, WakesAlso, unpaused};
ghost use Rattle.kn_loop.specs.Known.{Given, Begins};
ghost use Rattle.kn_loop.specs.Ran.{DialMade, DrainDid};
ghost use Rattle.kn_loop.specs.Turns.{Covers};
ghost use Rattle.kn_loop.specs.Visited.{MadeWith, Within};

use crate::Node;
use crate::running::Running;
use kn_io::NoMemory;
use kn_port::{Dialled, Port};

/// What a turn dials for the node.
impl<N: Node + Drop> Running<N> {
    /// Tells the node of the connection of a dial that it asked for.
    fn begin_dial(&mut self, ticket: u64, conn: u64) -> Result<(), NoMemory>
        requires above { N.top self.old.node < conn }
        requires ticket { N.has_ticket self.old.node ticket }
        requires room { self.old.watch.held + 1 < 2 ^ 64 }
        ensures did { OnOk result (N.did self.old.node (Began ticket conn) self.new.node) }
        ensures begins { OnOk result (Begins conn true false self.old.watch self.new.watch) }
        ensures wakes { OnOk result (WakesAlso conn (is_in self.old.awake) (is_in self.new.awake) (unpaused (N.answers self.old.node)) (unpaused (N.answers self.new.node))) }
        ensures top { OnOk result (N.top self.new.node ≡ conn) }
    {
        self.watch.begin(conn, true, false)?;
        self.awake.add(conn)?;
        self.node.began(&mut self.awake, ticket, conn)?;
        Ok(())
    }

    fn drain_if(&mut self, drains: bool) -> Result<(), NoMemory>
        ensures did { OnOk result (DrainDid N.did N.outgoing drains self.old.node self.new.node) }
        ensures wakes { OnOk result (Wakes (is_in self.old.awake) (is_in self.new.awake) (unpaused (N.answers self.old.node)) (unpaused (N.answers self.new.node))) }
        ensures top { OnOk result (N.top self.new.node ≡ N.top self.old.node) }
        ensures watch { self.new.watch ≡ self.old.watch }
    {
        if drains {
            return self.node.drain(&mut self.awake);
        }
        Ok(())
    }

    /// Dials an address for a ticket, and tells the node.
    fn dial<P: Port>(&mut self, port: &mut P, ticket: u64, address: &str) -> Result<(), NoMemory>
        requires ticket { N.has_ticket self.old.node ticket }
        requires given { Given self.old.watch (N.top self.old.node) (P.last port.old) }
        requires covers { Covers (is_in self.old.awake) (line_of self.old.watch.lines) (unpaused (N.answers self.old.node)) }
        ensures dialled { OnOk result (DialMade N.did N.outgoing ticket address.now (P.told port.old) (P.told port.new) self.old.watch self.new.watch self.old.node self.new.node) }
        ensures covers { OnOk result (Covers (is_in self.new.awake) (line_of self.new.watch.lines) (unpaused (N.answers self.new.node))) }
        ensures given { OnOk result (Given self.new.watch (N.top self.new.node) (P.last port.new)) }
        ensures faults { P.faults port.old ≤ P.faults port.new }
    {
        let answer = port.dial(address);
        let drains = self.watch.count_dial();
        match answer {
            Dialled::Conn(conn) => {
                self.begin_dial(ticket, conn)?;
                self.drain_if(drains)?;
                Ok(())
            }
            Dialled::Failed => {
                self.node.not_begun(&mut self.awake, ticket)?;
                self.drain_if(drains)?;
                Ok(())
            }
            Dialled::NoMemory => Err(NoMemory),
        }
    }

    /// Dials the first that the node has to hand out. It says whether there was one.
    fn dial_one<P: Port>(&mut self, port: &mut P) -> Result<bool, NoMemory>
        requires given { Given self.old.watch (N.top self.old.node) (P.last port.old) }
        requires covers { Covers (is_in self.old.awake) (line_of self.old.watch.lines) (unpaused (N.answers self.old.node)) }
        ensures made { OnOk result (MadeWith N.did N.outgoing N.answers N.top (Within [] [] []) (P.told port.old) (P.told port.new) self.old.watch self.new.watch self.old.node self.new.node) }
        ensures covers { OnOk result (Covers (is_in self.new.awake) (line_of self.new.watch.lines) (unpaused (N.answers self.new.node))) }
        ensures given { OnOk result (Given self.new.watch (N.top self.new.node) (P.last port.new)) }
        ensures faults { P.faults port.old ≤ P.faults port.new }
        ensures rest { IfOk result (λ more. more ≡ false → N.to_dial self.new.node ≡ []) }
    {
        match self.node.next_dial(&mut self.awake)? {
            Some((ticket, address)) => {
                self.dial(port, ticket, address.as_str())?;
                Ok(true)
            }
            None => Ok(false),
        }
    }

    /// Dials each that the node has to hand out.
    pub(crate) fn dial_all<P: Port>(&mut self, port: &mut P) -> Result<(), NoMemory>
        requires given { Given self.old.watch (N.top self.old.node) (P.last port.old) }
        requires covers { Covers (is_in self.old.awake) (line_of self.old.watch.lines) (unpaused (N.answers self.old.node)) }
        ensures made { OnOk result (MadeWith N.did N.outgoing N.answers N.top (Within [] [] []) (P.told port.old) (P.told port.new) self.old.watch self.new.watch self.old.node self.new.node) }
        ensures covers { OnOk result (Covers (is_in self.new.awake) (line_of self.new.watch.lines) (unpaused (N.answers self.new.node))) }
        ensures given { OnOk result (Given self.new.watch (N.top self.new.node) (P.last port.new)) }
        ensures faults { P.faults port.old ≤ P.faults port.new }
        ensures rest { OnOk result (N.to_dial self.new.node ≡ []) }
    {
        for _round in 0..u64::MAX {
            if !self.dial_one(port)? {
                return Ok(());
            }
        }
        Err(NoMemory)
    }
}
