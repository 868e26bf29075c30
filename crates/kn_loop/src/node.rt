ghost use Rattle.std.specs.Prelude.{ℕ, Bool, true, false, ◌≡◌, ◌<◌, ◌≤◌, ◌==◌, not, List, [], ◌∷◌, length, OnOk, IfOk, MatchOption};
ghost use Rattle.kn_loop.specs.Calls.{Call, Opened, BytesCame, BytesTaken, BytesEnded, ConnLost, DialTaken, Began, NotBegun, DialDone, Drained, Answers, Wakes, unpaused};
ghost use Rattle.kn_loop.specs.Kept.{is_in};
ghost use Rattle.kn_port.specs.declared.names.Gate.{Gate};

use crate::awake::Awake;
use kn_io::{NoMemory, Text};
use kn_port::Gate;

/// One end of tunnels, as the loop sees it. Each call wakes the connections of which the node may say something
/// else now, but for whether it wants their bytes, and drops what the node would hand out to others than the loop.
pub trait Node {
    /// A call leads from one node to another.
    ghost did: { Self → Call → Self → Type 0 };

    /// What the node says of a connection.
    ghost answers: { Self → ℕ → Answers };

    /// The bytes that are to be written on a connection.
    ghost outgoing: { Self → ℕ → List ℕ };

    /// The greatest number of a connection that the node was given.
    ghost top: { Self → ℕ };

    /// The dials that it has to hand out, in order: a ticket and an address each.
    ghost to_dial: { Self → List (ℕ × List ℕ) };

    /// The dial of this ticket was handed out, and it was not said what came of it.
    ghost has_ticket: { Self → ℕ → Type 0 };

    /// How many tunnels have ended.
    ghost ended_count: { Self → ℕ };

    /// Its server is lost.
    ghost is_cut_off: { Self → Bool };

    /// Whether it takes connections of a gate.
    ghost takes_of: { Gate → Bool };

    fn takes(&self, gate: Gate) -> bool
        ensures { result ≡ takes_of gate };

    fn wants(&self, conn: u64) -> bool
        ensures { result ≡ (answers self.now conn).wants };

    fn out(&self, conn: u64) -> &[u8]
        ensures bytes { result.now ≡ outgoing self.now conn }
        ensures some { (answers self.now conn).has_out ≡ not (length (outgoing self.now conn) == 0) };

    fn shuts(&self, conn: u64) -> bool
        ensures { result ≡ (answers self.now conn).shuts };

    fn gone(&self) -> u64
        ensures { result ≡ ended_count self.now };

    fn server_lost(&self) -> bool
        ensures { result ≡ is_cut_off self.now };

    fn opened(&mut self, awake: &mut Awake, conn: u64, gate: Gate) -> Result<(), NoMemory>
        requires above { top self.old < conn }
        requires takes { takes_of gate ≡ true }
        ensures did { OnOk result (did self.old (Opened conn gate) self.new) }
        ensures wakes { OnOk result (Wakes (is_in awake.old) (is_in awake.new) (unpaused (answers self.old)) (unpaused (answers self.new))) }
        ensures top { OnOk result (top self.new ≡ conn) };

    fn bytes(&mut self, awake: &mut Awake, conn: u64, piece: &[u8]) -> Result<(), NoMemory>
        requires given { conn ≤ top self.old }
        requires wanted { (answers self.old conn).wants ≡ true }
        requires some { (0 < length piece.now) × (length piece.now ≤ 16384) }
        ensures did { OnOk result (did self.old (BytesCame conn piece.now) self.new) }
        ensures wakes { OnOk result (Wakes (is_in awake.old) (is_in awake.new) (unpaused (answers self.old)) (unpaused (answers self.new))) }
        ensures top { OnOk result (top self.new ≡ top self.old) };

    fn took(&mut self, awake: &mut Awake, conn: u64, count: usize) -> Result<(), NoMemory>
        requires given { conn ≤ top self.old }
        requires some { count ≤ length (outgoing self.old conn) }
        ensures did { OnOk result (did self.old (BytesTaken conn count) self.new) }
        ensures wakes { OnOk result (Wakes (is_in awake.old) (is_in awake.new) (unpaused (answers self.old)) (unpaused (answers self.new))) }
        ensures top { OnOk result (top self.new ≡ top self.old) };

    fn ended(&mut self, awake: &mut Awake, conn: u64) -> Result<(), NoMemory>
        requires given { conn ≤ top self.old }
        ensures did { OnOk result (did self.old (BytesEnded conn) self.new) }
        ensures wakes { OnOk result (Wakes (is_in awake.old) (is_in awake.new) (unpaused (answers self.old)) (unpaused (answers self.new))) }
        ensures top { OnOk result (top self.new ≡ top self.old) };

    fn lost(&mut self, awake: &mut Awake, conn: u64) -> Result<(), NoMemory>
        requires given { conn ≤ top self.old }
        ensures did { OnOk result (did self.old (ConnLost conn) self.new) }
        ensures wakes { OnOk result (Wakes (is_in awake.old) (is_in awake.new) (unpaused (answers self.old)) (unpaused (answers self.new))) }
        ensures top { OnOk result (top self.new ≡ top self.old) };

    /// The first of the dials to hand out.
    fn next_dial(&mut self, awake: &mut Awake) -> Result<Option<(u64, Text)>, NoMemory>
        ensures first { IfOk result (λ given. MatchOption given ((to_dial self.old ≡ []) × (self.new ≡ self.old)) (λ dial. did self.old (DialTaken dial.0 dial.1) self.new × has_ticket self.new dial.0)) }
        ensures wakes { OnOk result (Wakes (is_in awake.old) (is_in awake.new) (unpaused (answers self.old)) (unpaused (answers self.new))) }
        ensures top { OnOk result (top self.new ≡ top self.old) };

    /// The dial of this ticket has this connection.
    fn began(&mut self, awake: &mut Awake, ticket: u64, conn: u64) -> Result<(), NoMemory>
        requires above { top self.old < conn }
        requires ticket { has_ticket self.old ticket }
        ensures did { OnOk result (did self.old (Began ticket conn) self.new) }
        ensures wakes { OnOk result (Wakes (is_in awake.old) (is_in awake.new) (unpaused (answers self.old)) (unpaused (answers self.new))) }
        ensures top { OnOk result (top self.new ≡ conn) };

    /// The dial of this ticket has no connection.
    fn not_begun(&mut self, awake: &mut Awake, ticket: u64) -> Result<(), NoMemory>
        requires ticket { has_ticket self.old ticket }
        ensures did { OnOk result (did self.old (NotBegun ticket) self.new) }
        ensures wakes { OnOk result (Wakes (is_in awake.old) (is_in awake.new) (unpaused (answers self.old)) (unpaused (answers self.new))) }
        ensures top { OnOk result (top self.new ≡ top self.old) };

    /// The dial of this connection is up, or failed.
    fn dialled(&mut self, awake: &mut Awake, conn: u64, up: bool) -> Result<(), NoMemory>
        requires given { conn ≤ top self.old }
        ensures did { OnOk result (did self.old (DialDone conn up) self.new) }
        ensures wakes { OnOk result (Wakes (is_in awake.old) (is_in awake.new) (unpaused (answers self.old)) (unpaused (answers self.new))) }
        ensures top { OnOk result (top self.new ≡ top self.old) };

    fn drain(&mut self, awake: &mut Awake) -> Result<(), NoMemory>
        ensures did { OnOk result (did self.old Drained self.new) }
        ensures wakes { OnOk result (Wakes (is_in awake.old) (is_in awake.new) (unpaused (answers self.old)) (unpaused (answers self.new))) }
        ensures top { OnOk result (top self.new ≡ top self.old) };
}
