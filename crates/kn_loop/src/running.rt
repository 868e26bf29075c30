ghost use Rattle.std.specs.Prelude.{ℕ, Bool, true, false, ◌≡◌, ◌<◌, ◌≤◌, ◌==◌, not, List, [], length, OnOk, IfOk};
ghost use Rattle.kn_loop.specs.Turns.{is_busy, is_due, is_active, is_done, is_bound, answer_of, TurnCounts};
ghost use Rattle.kn_loop.specs.Calls.{unpaused};
ghost use Rattle.kn_loop.specs.Kept.{is_in, line_of};

use crate::awake::Awake;
use crate::watch::Watch;
use crate::{Course, Node, Turn};
use kn_io::NoMemory;
use kn_port::Woken;
use std::alloc::Global;

/// A connection that is accepted where so many were not shut is shut at once.
pub const CONNECTION_LIMIT: u64 = 800;

/// The room of a read.
pub const READ_ROOM: usize = 16384;

/// A node at work, and what the port's answers say of its connections.
#[derive(Drop)]
pub struct Running<N: Node + Drop> {
    pub(crate) node: N,
    pub(crate) watch: Watch,
    /// Within a turn: the connections of which something else is known or said.
    pub(crate) awake: Awake,
    /// Between turns: the connections at which something would be to do if the bytes of each were wanted.
    pub(crate) busy: Vec<u64>,
    pub(crate) room: Vec<u8>,
    pub(crate) woken: Woken,
    /// The last connection that gave bytes: the next turn begins behind it.
    pub(crate) turn_from: u64,
    pub(crate) alloc: Global,
    ghost full: { length room.items ≡ 16384 },
}

impl<N: Node + Drop> Running<N> {
    /// Whether there is something to read, to write or to ask for at the connection.
    pub(crate) fn is_busy(&self, conn: u64) -> bool
        ensures { result ≡ is_busy (line_of self.now.watch.lines conn) (N.answers self.now.node conn) }
    {
        match self.watch.lines.get(conn) {
            Some(line) => {
                let has_out = !self.node.out(conn).is_empty();
                !line.is_settled(self.node.wants(conn), has_out)
            }
            None => false,
        }
    }

    /// Whether there would be something to do at the connection if its bytes were wanted.
    pub(crate) fn is_busy_unpaused(&self, conn: u64) -> bool
        ensures { result ≡ is_busy (line_of self.now.watch.lines conn) (unpaused (N.answers self.now.node) conn) }
    {
        match self.watch.lines.get(conn) {
            Some(line) => {
                let has_out = !self.node.out(conn).is_empty();
                !line.is_settled(true, has_out)
            }
            None => false,
        }
    }

    /// Whether the connection is to be shut now. The node's want of its bytes does not matter.
    pub(crate) fn is_due(&self, conn: u64) -> bool
        ensures value { result ≡ is_due (line_of self.now.watch.lines conn) (N.answers self.now.node conn) }
        ensures alike { result ≡ is_due (line_of self.now.watch.lines conn) (unpaused (N.answers self.now.node) conn) }
    {
        match self.watch.lines.get(conn) {
            Some(_) => self.node.shuts(conn) && self.node.out(conn).is_empty(),
            None => false,
        }
    }

    /// Keeps the connection awake where there would be something to do at it if its bytes were wanted.
    pub(crate) fn stay_awake(&mut self, conn: u64) -> Result<(), NoMemory>
        ensures awake { OnOk result (is_active (line_of self.old.watch.lines conn) (unpaused (N.answers self.old.node) conn) ≡ true → is_in self.new.awake conn ≡ true) }
        ensures grows { OnOk result ((c : ℕ) → is_in self.old.awake c ≡ true → is_in self.new.awake c ≡ true) }
        ensures watch { self.new.watch ≡ self.old.watch }
        ensures node { self.new.node ≡ self.old.node }
    {
        if self.is_busy_unpaused(conn) || self.is_due(conn) {
            return self.awake.add(conn);
        }
        Ok(())
    }

    /// What the turn answers where no call of the port ended it.
    pub fn answer(&self) -> Turn
        ensures counts { (before after : ℕ) → before ≤ after → TurnCounts result before after }
        ensures value { result ≡ answer_of (is_done self.now.watch.course (N.ended_count self.now.node) self.now.watch.lines (N.answers self.now.node)) (N.is_cut_off self.now.node) (is_bound self.now.watch.course) }
    {
        if self.is_done() {
            return Turn::Done;
        }
        if self.node.server_lost() {
            return Turn::ServerLost;
        }
        if self.is_bound() {
            return Turn::Bound;
        }
        Turn::More
    }

    fn is_done(&self) -> bool
        ensures { result ≡ is_done self.now.watch.course (N.ended_count self.now.node) self.now.watch.lines (N.answers self.now.node) }
    {
        0 < self.watch.course.tunnels
            && self.watch.course.tunnels <= self.node.gone()
            && !self.watch.lines.any_out(&self.node)
    }

    fn is_bound(&self) -> bool
        ensures { result ≡ is_bound self.now.watch.course }
    {
        0 < self.watch.course.turns && self.watch.course.turn == self.watch.course.turns
    }
}
