ghost use Rattle.std.specs.Prelude.{ℕ, Bool, true, false, ◌≡◌, ◌<◌, ◌≤◌, ◌==◌, not, ◌&&◌, List, [], ◌∷◌, length, Some, None, OnOk, is_some};
ghost use Rattle.kn_loop.specs.Calls.{Wakes, unpaused};
ghost use Rattle.kn_loop.specs.Doing.{may_ask, may_read, may_write, reads_now, writes_now};
ghost use Rattle.kn_loop.specs.Kept.{is_in, line_of};
ghost use Rattle.kn_loop.specs.Known.{known_of};
ghost use Rattle.kn_loop.specs.Ran.{Made, ReadDid, WroteDid, DialEndDid, leads_to_server};
ghost use Rattle.kn_loop.specs.Turns.{is_busy, Touches, SameConns, Visits, Covers, CoversBut, AreAllGiven, take_got, take_took};
ghost use Rattle.kn_loop.specs.Visited.{MadeWith, VisitsOf, Within, has_visit};
ghost use Rattle.kn_port.specs.Answers.{GotFits, TookFits};
ghost use Rattle.kn_port.specs.Journal.{read_entries, write_entries, dial_end_entries};

use crate::Node;
use crate::running::Running;
use kn_io::NoMemory;
use kn_port::{DialEnd, Port, PortGot, Took};

/// Reads, writes and questions for the end of a dial: what a turn does at the connections that it visits.
impl<N: Node + Drop> Running<N> {
    /// Tells the node what a read brought.
    fn tell_read(&mut self, conn: u64, got: PortGot) -> Result<(), NoMemory>
        requires given { conn ≤ N.top self.old.node }
        requires wanted { (N.answers self.old.node conn).wants ≡ true }
        requires fits { GotFits got (length self.old.room.items) }
        ensures did { OnOk result (ReadDid N.did N.outgoing self.old.node conn (take_got got self.old.room.items) got self.new.node) }
        ensures wakes { OnOk result (Wakes (is_in self.old.awake) (is_in self.new.awake) (unpaused (N.answers self.old.node)) (unpaused (N.answers self.new.node))) }
        ensures top { OnOk result (N.top self.new.node ≡ N.top self.old.node) }
        ensures watch { self.new.watch ≡ self.old.watch }
        ensures visit { OnOk result (has_visit (read_entries conn self.old.room.items got) conn ≡ true) }
    {
        match got {
            PortGot::Bytes(count) => {
                self.turn_from = conn;
                self.node.bytes(&mut self.awake, conn, &self.room[..count])
            }
            PortGot::NotYet => Ok(()),
            PortGot::End => self.node.ended(&mut self.awake, conn),
            PortGot::Failed => self.node.lost(&mut self.awake, conn),
            PortGot::NoMemory => Err(NoMemory),
        }
    }

    /// Reads once, and tells the node what came.
    fn read_once<P: Port>(&mut self, port: &mut P, conn: u64) -> Result<(), NoMemory>
        requires given { (0 < conn) × (conn ≤ N.top self.old.node) }
        requires below { N.top self.old.node ≤ P.last port.old }
        requires wanted { (N.answers self.old.node conn).wants ≡ true }
        requires line { may_read (line_of self.old.watch.lines conn) ≡ true }
        ensures made { OnOk result (Made N.did N.outgoing N.answers N.top (P.told port.old) (P.told port.new) self.old.watch self.new.watch self.old.node self.new.node) }
        ensures wakes { OnOk result (Wakes (is_in self.old.awake) (is_in self.new.awake) (unpaused (N.answers self.old.node)) (unpaused (N.answers self.new.node))) }
        ensures touches { OnOk result (Touches conn (line_of self.old.watch.lines) (line_of self.new.watch.lines)) }
        ensures held { OnOk result (self.new.watch.held ≡ self.old.watch.held) }
        ensures top { OnOk result (N.top self.new.node ≡ N.top self.old.node) }
        ensures faults { P.faults port.old ≤ P.faults port.new }
        ensures last { P.last port.new ≡ P.last port.old }
        ensures visited { OnOk result (MadeWith N.did N.outgoing N.answers N.top (λ es. (has_visit es conn ≡ true) × Within [] (conn ∷ []) [] es) (P.told port.old) (P.told port.new) self.old.watch self.new.watch self.old.node self.new.node) }
    {
        let got = port.read(conn, &mut self.room);
        self.watch.lines.note_read(conn, got)?;
        self.tell_read(conn, got)
    }

    /// Tells the node what a write took.
    fn tell_write(&mut self, conn: u64, took: Took) -> Result<(), NoMemory>
        requires given { conn ≤ N.top self.old.node }
        requires fits { TookFits took (length (N.outgoing self.old.node conn)) }
        ensures did { OnOk result (WroteDid N.did N.outgoing self.old.node conn (take_took took (N.outgoing self.old.node conn)) took self.new.node) }
        ensures wakes { OnOk result (Wakes (is_in self.old.awake) (is_in self.new.awake) (unpaused (N.answers self.old.node)) (unpaused (N.answers self.new.node))) }
        ensures top { OnOk result (N.top self.new.node ≡ N.top self.old.node) }
        ensures watch { self.new.watch ≡ self.old.watch }
        ensures visit { OnOk result (has_visit (write_entries conn (N.outgoing self.old.node conn) took) conn ≡ true) }
    {
        match took {
            Took::Bytes(count) => self.node.took(&mut self.awake, conn, count),
            Took::NotYet => Ok(()),
            Took::Failed => self.node.lost(&mut self.awake, conn),
            Took::NoMemory => Err(NoMemory),
        }
    }

    /// Writes once, and tells the node what was taken.
    fn write_once<P: Port>(&mut self, port: &mut P, conn: u64) -> Result<(), NoMemory>
        requires given { (0 < conn) × (conn ≤ N.top self.old.node) }
        requires below { N.top self.old.node ≤ P.last port.old }
        requires some { 0 < length (N.outgoing self.old.node conn) }
        requires line { may_write (line_of self.old.watch.lines conn) ≡ true }
        ensures made { OnOk result (Made N.did N.outgoing N.answers N.top (P.told port.old) (P.told port.new) self.old.watch self.new.watch self.old.node self.new.node) }
        ensures wakes { OnOk result (Wakes (is_in self.old.awake) (is_in self.new.awake) (unpaused (N.answers self.old.node)) (unpaused (N.answers self.new.node))) }
        ensures touches { OnOk result (Touches conn (line_of self.old.watch.lines) (line_of self.new.watch.lines)) }
        ensures held { OnOk result (self.new.watch.held ≡ self.old.watch.held) }
        ensures top { OnOk result (N.top self.new.node ≡ N.top self.old.node) }
        ensures faults { P.faults port.old ≤ P.faults port.new }
        ensures last { P.last port.new ≡ P.last port.old }
        ensures visited { OnOk result (MadeWith N.did N.outgoing N.answers N.top (λ es. (has_visit es conn ≡ true) × Within [] [] (conn ∷ []) es) (P.told port.old) (P.told port.new) self.old.watch self.new.watch self.old.node self.new.node) }
    {
        let took = port.write(conn, self.node.out(conn));
        self.watch.lines.note_write(conn, took)?;
        self.tell_write(conn, took)
    }

    /// Tells the node what came of its server's dial: that it is up says nothing, that it failed is a loss.
    fn tell_server_dial(&mut self, conn: u64, end: DialEnd) -> Result<(), NoMemory>
        requires given { conn ≤ N.top self.old.node }
        ensures did { OnOk result (DialEndDid N.did N.outgoing true self.old.node conn end self.new.node) }
        ensures wakes { OnOk result (Wakes (is_in self.old.awake) (is_in self.new.awake) (unpaused (N.answers self.old.node)) (unpaused (N.answers self.new.node))) }
        ensures top { OnOk result (N.top self.new.node ≡ N.top self.old.node) }
        ensures watch { self.new.watch ≡ self.old.watch }
        ensures visit { OnOk result (has_visit (dial_end_entries conn end) conn ≡ true) }
    {
        match end {
            DialEnd::Up => Ok(()),
            DialEnd::NotYet => Ok(()),
            DialEnd::Failed => self.node.lost(&mut self.awake, conn),
            DialEnd::NoMemory => Err(NoMemory),
        }
    }

    /// Tells the node what came of a dial that it asked for.
    fn tell_dial(&mut self, conn: u64, end: DialEnd) -> Result<(), NoMemory>
        requires given { conn ≤ N.top self.old.node }
        ensures did { OnOk result (DialEndDid N.did N.outgoing false self.old.node conn end self.new.node) }
        ensures wakes { OnOk result (Wakes (is_in self.old.awake) (is_in self.new.awake) (unpaused (N.answers self.old.node)) (unpaused (N.answers self.new.node))) }
        ensures top { OnOk result (N.top self.new.node ≡ N.top self.old.node) }
        ensures watch { self.new.watch ≡ self.old.watch }
        ensures visit { OnOk result (has_visit (dial_end_entries conn end) conn ≡ true) }
    {
        match end {
            DialEnd::Up => self.node.dialled(&mut self.awake, conn, true),
            DialEnd::NotYet => Ok(()),
            DialEnd::Failed => self.node.dialled(&mut self.awake, conn, false),
            DialEnd::NoMemory => Err(NoMemory),
        }
    }

    fn tell_dial_end(&mut self, conn: u64, is_server: bool, end: DialEnd) -> Result<(), NoMemory>
        requires given { conn ≤ N.top self.old.node }
        ensures did { OnOk result (DialEndDid N.did N.outgoing is_server self.old.node conn end self.new.node) }
        ensures wakes { OnOk result (Wakes (is_in self.old.awake) (is_in self.new.awake) (unpaused (N.answers self.old.node)) (unpaused (N.answers self.new.node))) }
        ensures top { OnOk result (N.top self.new.node ≡ N.top self.old.node) }
        ensures watch { self.new.watch ≡ self.old.watch }
        ensures visit { OnOk result (has_visit (dial_end_entries conn end) conn ≡ true) }
    {
        if is_server {
            self.tell_server_dial(conn, end)
        } else {
            self.tell_dial(conn, end)
        }
    }

    /// Asks once for the end of a dial, and tells the node.
    fn ask_once<P: Port>(&mut self, port: &mut P, conn: u64) -> Result<(), NoMemory>
        requires given { (0 < conn) × (conn ≤ N.top self.old.node) }
        requires below { N.top self.old.node ≤ P.last port.old }
        requires line { may_ask (line_of self.old.watch.lines conn) ≡ true }
        ensures made { OnOk result (Made N.did N.outgoing N.answers N.top (P.told port.old) (P.told port.new) self.old.watch self.new.watch self.old.node self.new.node) }
        ensures wakes { OnOk result (Wakes (is_in self.old.awake) (is_in self.new.awake) (unpaused (N.answers self.old.node)) (unpaused (N.answers self.new.node))) }
        ensures touches { OnOk result (Touches conn (line_of self.old.watch.lines) (line_of self.new.watch.lines)) }
        ensures held { OnOk result (self.new.watch.held ≡ self.old.watch.held) }
        ensures top { OnOk result (N.top self.new.node ≡ N.top self.old.node) }
        ensures faults { P.faults port.old ≤ P.faults port.new }
        ensures last { P.last port.new ≡ P.last port.old }
        ensures visited { OnOk result (MadeWith N.did N.outgoing N.answers N.top (λ es. (has_visit es conn ≡ true) × Within (conn ∷ []) [] [] es) (P.told port.old) (P.told port.new) self.old.watch self.new.watch self.old.node self.new.node) }
    {
        let end = port.dial_end(conn);
        let is_server = self.watch.lines.leads_to_server(conn);
        self.watch.lines.note_dial_end(conn, end)?;
        self.tell_dial_end(conn, is_server, end)
    }

    fn may_ask(&self, conn: u64) -> bool
        ensures { result ≡ may_ask (line_of self.now.watch.lines conn) }
    {
        match self.watch.lines.get(conn) {
            Some(line) => line.may_ask(),
            None => false,
        }
    }

    /// Whether bytes are to be read now. One whose read waits is not read again until the port names it.
    fn reads_now(&self, conn: u64) -> bool
        ensures value { result ≡ reads_now (line_of self.now.watch.lines conn) (N.answers self.now.node conn) }
        ensures may { result ≡ true → may_read (line_of self.now.watch.lines conn) ≡ true }
        ensures wanted { result ≡ true → (N.answers self.now.node conn).wants ≡ true }
    {
        match self.watch.lines.get(conn) {
            Some(line) => line.may_read() && !line.read_waits && self.node.wants(conn),
            None => false,
        }
    }

    /// Whether bytes are to be written now.
    fn writes_now(&self, conn: u64) -> bool
        ensures value { result ≡ writes_now (line_of self.now.watch.lines conn) (N.answers self.now.node conn) }
        ensures may { result ≡ true → may_write (line_of self.now.watch.lines conn) ≡ true }
        ensures some { result ≡ true → 0 < length (N.outgoing self.now.node conn) }
    {
        match self.watch.lines.get(conn) {
            Some(line) => line.may_write() && !line.write_waits && !self.node.out(conn).is_empty(),
            None => false,
        }
    }

    #[tactic(auto, using(crate::proofs::Making::nothing_made, crate::proofs::Covering::touches_nothing))]
    fn read_if_due<P: Port>(&mut self, port: &mut P, conn: u64) -> Result<(), NoMemory>
        requires given { (0 < conn) × (conn ≤ N.top self.old.node) }
        requires below { N.top self.old.node ≤ P.last port.old }
        ensures made { OnOk result (Made N.did N.outgoing N.answers N.top (P.told port.old) (P.told port.new) self.old.watch self.new.watch self.old.node self.new.node) }
        ensures wakes { OnOk result (Wakes (is_in self.old.awake) (is_in self.new.awake) (unpaused (N.answers self.old.node)) (unpaused (N.answers self.new.node))) }
        ensures touches { OnOk result (Touches conn (line_of self.old.watch.lines) (line_of self.new.watch.lines)) }
        ensures held { OnOk result (self.new.watch.held ≡ self.old.watch.held) }
        ensures top { OnOk result (N.top self.new.node ≡ N.top self.old.node) }
        ensures faults { P.faults port.old ≤ P.faults port.new }
        ensures last { P.last port.new ≡ P.last port.old }
        ensures visited { OnOk result (MadeWith N.did N.outgoing N.answers N.top (λ es. (reads_now (line_of self.old.watch.lines conn) (N.answers self.old.node conn) ≡ true → has_visit es conn ≡ true) × Within [] (conn ∷ []) [] es) (P.told port.old) (P.told port.new) self.old.watch self.new.watch self.old.node self.new.node) }
        ensures idle { OnOk result (reads_now (line_of self.old.watch.lines conn) (N.answers self.old.node conn) ≡ false → (self.new.watch ≡ self.old.watch) × (self.new.node ≡ self.old.node)) }
    {
        if self.reads_now(conn) {
            return self.read_once(port, conn);
        }
        Ok(())
    }

    #[tactic(auto, using(crate::proofs::Making::nothing_made, crate::proofs::Covering::touches_nothing))]
    fn write_if_due<P: Port>(&mut self, port: &mut P, conn: u64) -> Result<(), NoMemory>
        requires given { (0 < conn) × (conn ≤ N.top self.old.node) }
        requires below { N.top self.old.node ≤ P.last port.old }
        ensures made { OnOk result (Made N.did N.outgoing N.answers N.top (P.told port.old) (P.told port.new) self.old.watch self.new.watch self.old.node self.new.node) }
        ensures wakes { OnOk result (Wakes (is_in self.old.awake) (is_in self.new.awake) (unpaused (N.answers self.old.node)) (unpaused (N.answers self.new.node))) }
        ensures touches { OnOk result (Touches conn (line_of self.old.watch.lines) (line_of self.new.watch.lines)) }
        ensures held { OnOk result (self.new.watch.held ≡ self.old.watch.held) }
        ensures top { OnOk result (N.top self.new.node ≡ N.top self.old.node) }
        ensures faults { P.faults port.old ≤ P.faults port.new }
        ensures last { P.last port.new ≡ P.last port.old }
        ensures visited { OnOk result (MadeWith N.did N.outgoing N.answers N.top (λ es. (writes_now (line_of self.old.watch.lines conn) (N.answers self.old.node conn) ≡ true → has_visit es conn ≡ true) × Within [] [] (conn ∷ []) es) (P.told port.old) (P.told port.new) self.old.watch self.new.watch self.old.node self.new.node) }
    {
        if self.writes_now(conn) {
            return self.write_once(port, conn);
        }
        Ok(())
    }

    /// Reads once, then writes once.
    fn exchange<P: Port>(&mut self, port: &mut P, conn: u64) -> Result<(), NoMemory>
        requires given { (0 < conn) × (conn ≤ N.top self.old.node) }
        requires below { N.top self.old.node ≤ P.last port.old }
        ensures made { OnOk result (Made N.did N.outgoing N.answers N.top (P.told port.old) (P.told port.new) self.old.watch self.new.watch self.old.node self.new.node) }
        ensures wakes { OnOk result (Wakes (is_in self.old.awake) (is_in self.new.awake) (unpaused (N.answers self.old.node)) (unpaused (N.answers self.new.node))) }
        ensures touches { OnOk result (Touches conn (line_of self.old.watch.lines) (line_of self.new.watch.lines)) }
        ensures held { OnOk result (self.new.watch.held ≡ self.old.watch.held) }
        ensures top { OnOk result (N.top self.new.node ≡ N.top self.old.node) }
        ensures faults { P.faults port.old ≤ P.faults port.new }
        ensures last { P.last port.new ≡ P.last port.old }
        ensures visited { OnOk result (MadeWith N.did N.outgoing N.answers N.top (λ es. (may_ask (line_of self.old.watch.lines conn) ≡ false → is_busy (line_of self.old.watch.lines conn) (N.answers self.old.node conn) ≡ true → has_visit es conn ≡ true) × Within [] (conn ∷ []) (conn ∷ []) es) (P.told port.old) (P.told port.new) self.old.watch self.new.watch self.old.node self.new.node) }
    {
        self.read_if_due(port, conn)?;
        self.write_if_due(port, conn)?;
        Ok(())
    }

    /// Asks for the end of its dial, or reads once and writes once.
    fn serve<P: Port>(&mut self, port: &mut P, conn: u64) -> Result<(), NoMemory>
        requires given { (0 < conn) × (conn ≤ N.top self.old.node) }
        requires below { N.top self.old.node ≤ P.last port.old }
        ensures made { OnOk result (Made N.did N.outgoing N.answers N.top (P.told port.old) (P.told port.new) self.old.watch self.new.watch self.old.node self.new.node) }
        ensures wakes { OnOk result (Wakes (is_in self.old.awake) (is_in self.new.awake) (unpaused (N.answers self.old.node)) (unpaused (N.answers self.new.node))) }
        ensures touches { OnOk result (Touches conn (line_of self.old.watch.lines) (line_of self.new.watch.lines)) }
        ensures held { OnOk result (self.new.watch.held ≡ self.old.watch.held) }
        ensures top { OnOk result (N.top self.new.node ≡ N.top self.old.node) }
        ensures faults { P.faults port.old ≤ P.faults port.new }
        ensures last { P.last port.new ≡ P.last port.old }
        ensures visited { OnOk result (MadeWith N.did N.outgoing N.answers N.top (λ es. (is_busy (line_of self.old.watch.lines conn) (N.answers self.old.node conn) ≡ true → has_visit es conn ≡ true) × Within (conn ∷ []) (conn ∷ []) (conn ∷ []) es) (P.told port.old) (P.told port.new) self.old.watch self.new.watch self.old.node self.new.node) }
    {
        if self.may_ask(conn) {
            self.ask_once(port, conn)
        } else {
            self.exchange(port, conn)
        }
    }

    /// Does what is to be done at the connection, and keeps it awake where there is more to do.
    fn visit<P: Port>(&mut self, port: &mut P, conn: u64) -> Result<(), NoMemory>
        requires given { (0 < conn) × (conn ≤ N.top self.old.node) }
        requires below { N.top self.old.node ≤ P.last port.old }
        ensures made { OnOk result (Made N.did N.outgoing N.answers N.top (P.told port.old) (P.told port.new) self.old.watch self.new.watch self.old.node self.new.node) }
        ensures visits { OnOk result (Visits conn (is_in self.old.awake) (is_in self.new.awake) (line_of self.old.watch.lines) (line_of self.new.watch.lines) (unpaused (N.answers self.old.node)) (unpaused (N.answers self.new.node))) }
        ensures conns { OnOk result (SameConns (line_of self.old.watch.lines) (line_of self.new.watch.lines)) }
        ensures held { OnOk result (self.new.watch.held ≡ self.old.watch.held) }
        ensures top { OnOk result (N.top self.new.node ≡ N.top self.old.node) }
        ensures faults { P.faults port.old ≤ P.faults port.new }
        ensures last { P.last port.new ≡ P.last port.old }
        ensures visited { OnOk result (MadeWith N.did N.outgoing N.answers N.top (λ es. (is_busy (line_of self.old.watch.lines conn) (N.answers self.old.node conn) ≡ true → has_visit es conn ≡ true) × Within (conn ∷ []) (conn ∷ []) (conn ∷ []) es) (P.told port.old) (P.told port.new) self.old.watch self.new.watch self.old.node self.new.node) }
    {
        self.serve(port, conn)?;
        self.stay_awake(conn)?;
        Ok(())
    }

    /// Visits each of these connections.
    pub(crate) fn visit_all<P: Port>(&mut self, port: &mut P, batch: &[u64]) -> Result<(), NoMemory>
        requires covers { CoversBut (is_in self.old.awake) (is_in batch.now) (line_of self.old.watch.lines) (unpaused (N.answers self.old.node)) }
        requires given { AreAllGiven batch.now (N.top self.old.node) }
        requires below { N.top self.old.node ≤ P.last port.old }
        ensures made { OnOk result (Made N.did N.outgoing N.answers N.top (P.told port.old) (P.told port.new) self.old.watch self.new.watch self.old.node self.new.node) }
        ensures covers { OnOk result (Covers (is_in self.new.awake) (line_of self.new.watch.lines) (unpaused (N.answers self.new.node))) }
        ensures conns { OnOk result (SameConns (line_of self.old.watch.lines) (line_of self.new.watch.lines)) }
        ensures held { OnOk result (self.new.watch.held ≡ self.old.watch.held) }
        ensures top { OnOk result (N.top self.new.node ≡ N.top self.old.node) }
        ensures faults { P.faults port.old ≤ P.faults port.new }
        ensures last { P.last port.new ≡ P.last port.old }
        ensures visited { OnOk result (MadeWith N.did N.outgoing N.answers N.top (λ es. VisitsOf N.did N.outgoing N.answers N.top (is_in batch.now) (known_of self.old.watch) self.old.node self.new.node es × Within batch.now batch.now batch.now es) (P.told port.old) (P.told port.new) self.old.watch self.new.watch self.old.node self.new.node) }
    {
        let mut rest = batch;
        while let Some((first, after)) = rest.split_first() {
            self.visit(port, *first)?;
            rest = after;
        }
        Ok(())
    }
}
