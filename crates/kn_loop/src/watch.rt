ghost use Rattle.std.specs.Prelude.{◌≡◌, ℕ, ◌+◌, ◌-◌, ◌<◌, ◌^◌, ◌==◌, [], Some, None, OnOk, if◌then◌else◌};
ghost use Rattle.kn_loop.specs.Kept.{line_of};
ghost use Rattle.kn_loop.specs.Watch.{named_one};
ghost use Rattle.kn_loop.specs.Gates.{gate_named};
ghost use Rattle.kn_loop.specs.Known.{Begins, Forgets};

use crate::lines::Lines;
use crate::{Course, Gates, Line};
use kn_io::NoMemory;
use kn_port::Ready;
use std::alloc::Global;

/// What the answers of the port say so far, and how far the program is.
#[derive(Drop)]
pub(crate) struct Watch {
    /// What is known of each connection that was not shut.
    pub(crate) lines: Lines,
    /// How many connections were not shut.
    pub(crate) held: u64,
    pub(crate) gates: Gates,
    /// Behind how many more dials the node drains. 0: it does not.
    pub(crate) drain: u64,
    pub(crate) course: Course,
}

impl Watch {
    pub(crate) fn new(alloc: Global, gates: Gates, drain: u64, course: Course) -> Watch
        ensures { result ≡ record { lines = []; held = 0; gates = gates; drain = drain; course = course } }
    {
        Watch {
            lines: Lines::new(alloc),
            held: 0,
            gates,
            drain,
            course,
        }
    }

    /// Notes a connection that was made.
    pub(crate) fn begin(
        &mut self,
        conn: u64,
        dialling: bool,
        is_server: bool,
    ) -> Result<(), NoMemory>
        requires { self.old.held + 1 < 2 ^ 64 }
        ensures { OnOk result (Begins conn dialling is_server self.old self.new) }
    {
        self.lines.set(conn, Line::new(dialling, is_server))?;
        self.held += 1;
        Ok(())
    }

    /// Forgets a connection that was shut.
    pub(crate) fn forget(&mut self, conn: u64)
        ensures { Forgets conn self.old self.new }
    {
        self.lines.remove(conn);
        self.held = self.held.saturating_sub(1);
    }

    /// Notes that a wait named this.
    pub(crate) fn note_named(&mut self, named: Ready) -> Result<(), NoMemory>
        ensures lines { OnOk result ((c : ℕ) → line_of self.new.lines c ≡ named_one named c (line_of self.old.lines c)) }
        ensures gates { OnOk result (self.new.gates ≡ gate_named named self.old.gates) }
        ensures held { self.new.held ≡ self.old.held }
        ensures drain { self.new.drain ≡ self.old.drain }
        ensures course { self.new.course ≡ self.old.course }
    {
        match named {
            Ready::Conn(conn) => self.lines.note_named(conn),
            Ready::Gate(_) => {
                self.gates.note_named(named);
                Ok(())
            }
        }
    }

    /// Counts a dial for the node. It says whether the node drains behind it.
    pub(crate) fn count_dial(&mut self) -> bool
        ensures drains { result ≡ (self.old.drain == 1) }
        ensures after { self.new ≡ record self.old { drain = self.old.drain - 1 } }
    {
        let drains = self.drain == 1;
        self.drain = self.drain.saturating_sub(1);
        drains
    }
}
