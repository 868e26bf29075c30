ghost use Rattle.std.specs.Prelude.{false, true, ◌≡◌, ◌≤◌, ◌<◌, [], ◌∷◌, ◌++◌, OnOk};
ghost use Rattle.kn_loop.specs.Calls.{unpaused};
ghost use Rattle.kn_loop.specs.Kept.{is_in, line_of, NoTwice};
ghost use Rattle.kn_loop.specs.Known.{Given, Forgets};
ghost use Rattle.kn_loop.specs.Turns.{is_due, Covers, CoversBut, AreBusy, Rests, NoneDue, AtHand};
ghost use Rattle.kn_loop.specs.Visited.{MadeWith, Within};

use crate::Node;
use crate::running::Running;
use kn_io::NoMemory;
use kn_port::Port;

/// The end of a turn: what is to be shut is shut, and what may be to visit next is kept.
impl<N: Node + Drop> Running<N> {
    fn shut_one<P: Port>(&mut self, port: &mut P, conn: u64)
        requires due { is_due (line_of self.old.watch.lines conn) (N.answers self.old.node conn) ≡ true }
        requires given { Given self.old.watch (N.top self.old.node) (P.last port.old) }
        requires hand { AtHand (P.told port.old) (line_of self.old.watch.lines) }
        ensures made { MadeWith N.did N.outgoing N.answers N.top (Within [] [] []) (P.told port.old) (P.told port.new) self.old.watch self.new.watch self.old.node self.new.node }
        ensures forgets { Forgets conn self.old.watch self.new.watch }
        ensures node { self.new.node ≡ self.old.node }
        ensures awake { self.new.awake ≡ self.old.awake }
        ensures busy { self.new.busy ≡ self.old.busy }
        ensures faults { P.faults port.old ≤ P.faults port.new }
        ensures last { P.last port.new ≡ P.last port.old }
    {
        port.shut(conn);
        self.watch.forget(conn);
    }

    /// Keeps the connection where there would be something to do at it if its bytes were wanted.
    fn keep_one(&mut self, conn: u64) -> Result<(), NoMemory>
        requires not_due { is_due (line_of self.old.watch.lines conn) (unpaused (N.answers self.old.node) conn) ≡ false }
        requires covers { CoversBut (is_in self.old.awake) (is_in (conn ∷ self.old.busy.items)) (line_of self.old.watch.lines) (unpaused (N.answers self.old.node)) }
        requires busy { AreBusy self.old.busy.items (line_of self.old.watch.lines) (unpaused (N.answers self.old.node)) }
        requires apart { NoTwice (self.old.busy.items ++ conn ∷ self.old.awake) }
        ensures apart { OnOk result (NoTwice (self.new.busy.items ++ self.new.awake)) }
        ensures covers { OnOk result (CoversBut (is_in self.new.awake) (is_in self.new.busy.items) (line_of self.new.watch.lines) (unpaused (N.answers self.new.node))) }
        ensures busy { OnOk result (AreBusy self.new.busy.items (line_of self.new.watch.lines) (unpaused (N.answers self.new.node))) }
        ensures node { self.new.node ≡ self.old.node }
        ensures awake { self.new.awake ≡ self.old.awake }
        ensures watch { self.new.watch ≡ self.old.watch }
    {
        if self.is_busy_unpaused(conn) {
            self.busy.push(conn)?;
            Ok(())
        } else {
            Ok(())
        }
    }

    fn settle_one<P: Port>(&mut self, port: &mut P, conn: u64) -> Result<(), NoMemory>
        requires given { Given self.old.watch (N.top self.old.node) (P.last port.old) }
        requires hand { AtHand (P.told port.old) (line_of self.old.watch.lines) }
        requires covers { CoversBut (is_in self.old.awake) (is_in (conn ∷ self.old.busy.items)) (line_of self.old.watch.lines) (unpaused (N.answers self.old.node)) }
        requires busy { AreBusy self.old.busy.items (line_of self.old.watch.lines) (unpaused (N.answers self.old.node)) }
        requires apart { NoTwice (self.old.busy.items ++ conn ∷ self.old.awake) }
        ensures apart { OnOk result (NoTwice (self.new.busy.items ++ self.new.awake)) }
        ensures made { OnOk result (MadeWith N.did N.outgoing N.answers N.top (Within [] [] []) (P.told port.old) (P.told port.new) self.old.watch self.new.watch self.old.node self.new.node) }
        ensures covers { OnOk result (CoversBut (is_in self.new.awake) (is_in self.new.busy.items) (line_of self.new.watch.lines) (unpaused (N.answers self.new.node))) }
        ensures busy { OnOk result (AreBusy self.new.busy.items (line_of self.new.watch.lines) (unpaused (N.answers self.new.node))) }
        ensures given { OnOk result (Given self.new.watch (N.top self.new.node) (P.last port.new)) }
        ensures node { self.new.node ≡ self.old.node }
        ensures awake { self.new.awake ≡ self.old.awake }
        ensures faults { P.faults port.old ≤ P.faults port.new }
        ensures last { P.last port.new ≡ P.last port.old }
    {
        if self.is_due(conn) {
            self.shut_one(port, conn);
            Ok(())
        } else {
            self.keep_one(conn)
        }
    }

    /// Shuts each awake connection that is to be shut, and keeps those that may be to visit.
    pub(crate) fn sweep<P: Port>(&mut self, port: &mut P) -> Result<(), NoMemory>
        requires given { Given self.old.watch (N.top self.old.node) (P.last port.old) }
        requires hand { AtHand (P.told port.old) (line_of self.old.watch.lines) }
        requires covers { Covers (is_in self.old.awake) (line_of self.old.watch.lines) (unpaused (N.answers self.old.node)) }
        requires empty { self.old.busy.items ≡ [] }
        ensures made { OnOk result (MadeWith N.did N.outgoing N.answers N.top (Within [] [] []) (P.told port.old) (P.told port.new) self.old.watch self.new.watch self.old.node self.new.node) }
        ensures single { OnOk result (NoTwice self.new.busy.items) }
        ensures rests { OnOk result (Rests self.new.busy.items (line_of self.new.watch.lines) (unpaused (N.answers self.new.node))) }
        ensures asleep { OnOk result (self.new.awake ≡ []) }
        ensures given { OnOk result (Given self.new.watch (N.top self.new.node) (P.last port.new)) }
        ensures node { self.new.node ≡ self.old.node }
        ensures faults { P.faults port.old ≤ P.faults port.new }
    {
        self.awake.holds();
        while let Some(conn) = self.awake.pop() {
            self.settle_one(port, conn)?;
        }
        Ok(())
    }

    /// Keeps those of the awake connections that may be to visit. None is to be shut.
    pub(crate) fn gather(&mut self) -> Result<(), NoMemory>
        requires none { NoneDue (line_of self.old.watch.lines) (unpaused (N.answers self.old.node)) }
        requires covers { Covers (is_in self.old.awake) (line_of self.old.watch.lines) (unpaused (N.answers self.old.node)) }
        requires empty { self.old.busy.items ≡ [] }
        ensures single { OnOk result (NoTwice self.new.busy.items) }
        ensures rests { OnOk result (Rests self.new.busy.items (line_of self.new.watch.lines) (unpaused (N.answers self.new.node))) }
        ensures asleep { OnOk result (self.new.awake ≡ []) }
        ensures node { self.new.node ≡ self.old.node }
        ensures watch { self.new.watch ≡ self.old.watch }
    {
        self.awake.holds();
        while let Some(conn) = self.awake.pop() {
            self.keep_one(conn)?;
        }
        Ok(())
    }
}
