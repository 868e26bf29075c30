ghost use Rattle.std.specs.Prelude.{◌≡◌, ℕ, ◌==◌, true, [], None, Some, Option, is_some, OnOk, OnErr, if◌then◌else◌};
ghost use Rattle.kn_loop.specs.Watch.{at_conn, line_read, line_wrote, line_named, line_dialled};
ghost use Rattle.std.specs.List.{list_any};
ghost use Rattle.kn_loop.specs.Kept.{line_of};
ghost use Rattle.kn_loop.specs.Ran.{leads_to_server};
ghost use Rattle.kn_loop.specs.Turns.{Touches};

use crate::{Line, Node};
use kn_io::NoMemory;
use kn_port::{DialEnd, PortGot, Took};
use std::alloc::Global;
use std::collections::BTreeMap;
use std::marker::Model;

/// What is known of each connection. Contracts see the list of pairs by rising number.
#[derive(Drop)]
pub(crate) struct Lines {
    inner: BTreeMap<u64, Line>,
}

impl Model for Lines {
    ghost use Rattle.std.specs.Prelude.{ℕ, List};
    ghost use Rattle.kn_loop.specs.declared.line.Line.{Line};

    ghost Value = { List (ℕ × Line) };

    ghost view = { λ l. l.inner.entries };
}

impl Lines {
    pub(crate) fn new(alloc: Global) -> Lines
        ensures { result ≡ [] }
    {
        Lines {
            inner: BTreeMap::new(alloc),
        }
    }

    pub(crate) fn get(&self, conn: u64) -> Option<Line>
        ensures { result ≡ line_of self.now conn }
    {
        self.inner.get(&conn).copied()
    }

    pub(crate) fn set(&mut self, conn: u64, line: Line) -> Result<(), NoMemory>
        ensures ok { OnOk result ((c : ℕ) → line_of self.new c ≡ (if conn == c then Some line else line_of self.old c)) }
        ensures err { OnErr result (self.new ≡ self.old) }
    {
        self.inner.insert(conn, line)?;
        Ok(())
    }

    /// Forgets a connection.
    pub(crate) fn remove(&mut self, conn: u64)
        ensures { (c : ℕ) → line_of self.new c ≡ (if conn == c then None else line_of self.old c) }
    {
        self.inner.remove(&conn);
    }

    /// Changes what is known of a connection that is kept.
    fn replace(&mut self, conn: u64, line: Line) -> Result<(), NoMemory>
        requires { is_some (line_of self.old conn) ≡ true }
        ensures ok { OnOk result ((c : ℕ) → line_of self.new c ≡ (if conn == c then Some line else line_of self.old c)) }
        ensures touches { OnOk result (Touches conn (line_of self.old) (line_of self.new)) }
    {
        self.set(conn, line)
    }

    /// Notes what came of the connection's dial.
    pub(crate) fn note_dial_end(&mut self, conn: u64, end: DialEnd) -> Result<(), NoMemory>
        ensures ok { OnOk result ((c : ℕ) → line_of self.new c ≡ at_conn conn (line_dialled end) c (line_of self.old c)) }
        ensures touches { OnOk result (Touches conn (line_of self.old) (line_of self.new)) }
    {
        match self.get(conn) {
            Some(line) => self.replace(conn, line.after_dial_end(end)),
            None => Ok(()),
        }
    }

    /// Notes what a read of the connection answered.
    pub(crate) fn note_read(&mut self, conn: u64, got: PortGot) -> Result<(), NoMemory>
        ensures ok { OnOk result ((c : ℕ) → line_of self.new c ≡ at_conn conn (line_read got) c (line_of self.old c)) }
        ensures touches { OnOk result (Touches conn (line_of self.old) (line_of self.new)) }
    {
        match self.get(conn) {
            Some(line) => self.replace(conn, line.after_read(got)),
            None => Ok(()),
        }
    }

    /// Notes what a write on the connection answered.
    pub(crate) fn note_write(&mut self, conn: u64, took: Took) -> Result<(), NoMemory>
        ensures ok { OnOk result ((c : ℕ) → line_of self.new c ≡ at_conn conn (line_wrote took) c (line_of self.old c)) }
        ensures touches { OnOk result (Touches conn (line_of self.old) (line_of self.new)) }
    {
        match self.get(conn) {
            Some(line) => self.replace(conn, line.after_write(took)),
            None => Ok(()),
        }
    }

    /// Notes that a wait named the connection.
    pub(crate) fn note_named(&mut self, conn: u64) -> Result<(), NoMemory>
        ensures ok { OnOk result ((c : ℕ) → line_of self.new c ≡ at_conn conn line_named c (line_of self.old c)) }
        ensures touches { OnOk result (Touches conn (line_of self.old) (line_of self.new)) }
    {
        match self.get(conn) {
            Some(line) => self.replace(conn, line.after_wait()),
            None => Ok(()),
        }
    }

    /// Whether the connection leads to the server.
    pub(crate) fn leads_to_server(&self, conn: u64) -> bool
        ensures { result ≡ leads_to_server (line_of self.now conn) }
    {
        match self.get(conn) {
            Some(line) => line.is_server,
            None => false,
        }
    }

    /// Whether a node has bytes for one of the connections.
    pub(crate) fn any_out<N: Node>(&self, node: &N) -> bool
        ensures { result ≡ list_any (λ l. (N.answers node.now l.0).has_out) self.now }
    {
        for (conn, _) in &self.inner {
            if !node.out(*conn).is_empty() {
                return true;
            }
        }
        false
    }
}
