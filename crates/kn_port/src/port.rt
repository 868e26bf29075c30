ghost use Rattle.std.specs.Prelude.{ℕ, ◌≡◌, ◌≤◌, ◌<◌, ◌++◌, List, [], ◌∷◌, length, Option};
ghost use Rattle.kn_port.specs.Journal.{Entry};
ghost use Rattle.kn_port.specs.Journal as journal;
ghost use Rattle.kn_port.specs.Answers as answers;
ghost use Rattle.kn_port.specs.declared.names.Ready.{Ready};

use crate::{Accepted, DialEnd, Dialled, Gate, Listened, PortGot, Took, Waited, Woken};

/// The network of a program. A connection has a number; the port draws them from 1 and never twice.
pub trait Port {
    /// How many calls failed. It stands still at 2^64 - 1.
    ghost faults: { Self → ℕ };

    /// The last number that was drawn, 0 before the first.
    ghost last: { Self → ℕ };

    /// The calls and their answers, where the port tells them.
    ghost told: { Self → Option (List Entry) };

    /// Takes connections at this address from now on.
    fn listen(&mut self, gate: Gate, address: &str) -> Listened
        ensures count { answers.ListenCounts result (faults self.old) (faults self.new) }
        ensures last { last self.new ≡ last self.old }
        ensures told { journal.Tells (told self.old) (told self.new) (journal.listen_entries gate address.now result) };

    /// Waits until something may be ready, and names it. It may name too much.
    fn wait(&mut self, ready: &mut Woken) -> Waited
        ensures count { answers.WaitCounts result (faults self.old) (faults self.new) }
        ensures last { last self.new ≡ last self.old }
        ensures told { (named : List Ready) × (ready.new ≡ ready.old ++ named) × journal.Tells (told self.old) (told self.new) (journal.wait_entries named result) };

    /// The next connection at a gate.
    fn accept(&mut self, gate: Gate) -> Accepted
        ensures count { answers.AcceptCounts result (faults self.old) (faults self.new) }
        ensures last { answers.AcceptDraws result (last self.old) (last self.new) }
        ensures told { journal.Tells (told self.old) (told self.new) (journal.accept_entries gate result) };

    /// Begins a connection to this address. `dial_end` tells what comes of it.
    fn dial(&mut self, address: &str) -> Dialled
        ensures count { answers.DialCounts result (faults self.old) (faults self.new) }
        ensures last { answers.DialDraws result (last self.old) (last self.new) }
        ensures told { journal.Tells (told self.old) (told self.new) (journal.dial_entries address.now result) };

    /// What came of a connection that was begun.
    fn dial_end(&mut self, conn: u64) -> DialEnd
        requires given { (0 < conn) × (conn ≤ last self.old) }
        ensures count { answers.DialEndCounts result (faults self.old) (faults self.new) }
        ensures last { last self.new ≡ last self.old }
        ensures told { journal.Tells (told self.old) (told self.new) (journal.dial_end_entries conn result) };

    /// Reads the next bytes of a connection into the room.
    fn read(&mut self, conn: u64, room: &mut [u8]) -> PortGot
        requires given { (0 < conn) × (conn ≤ last self.old) }
        requires room { 0 < length room.old }
        ensures count { answers.GotCounts result (faults self.old) (faults self.new) }
        ensures fits { answers.GotFits result (length room.old) }
        ensures last { last self.new ≡ last self.old }
        ensures told { journal.Tells (told self.old) (told self.new) (journal.read_entries conn room.new result) };

    /// Writes some of the bytes, from their front.
    fn write(&mut self, conn: u64, bytes: &[u8]) -> Took
        requires given { (0 < conn) × (conn ≤ last self.old) }
        requires some { 0 < length bytes.now }
        ensures count { answers.TookCounts result (faults self.old) (faults self.new) }
        ensures fits { answers.TookFits result (length bytes.now) }
        ensures last { last self.new ≡ last self.old }
        ensures told { journal.Tells (told self.old) (told self.new) (journal.write_entries conn bytes.now result) };

    /// Gives a connection up. Takes no memory. A connection that was given up already is left so.
    fn shut(&mut self, conn: u64)
        requires given { (0 < conn) × (conn ≤ last self.old) }
        ensures count { faults self.new ≡ faults self.old }
        ensures last { last self.new ≡ last self.old }
        ensures told { journal.TellsShut (told self.old) (told self.new) conn };
}
