ghost use Rattle.std.specs.Prelude.{ℕ, ◌≡◌, ◌≤◌, List, [], Option, IfOk};
ghost use Rattle.kn_loop.specs.Gates.{gate_listened};
ghost use Rattle.kn_loop.specs.Known.{Starts, IsNew, IsAtHand};
ghost use Rattle.kn_loop.specs.Turns.{Steady};
ghost use Rattle.kn_port.specs.Answers.{ListenCounts};
ghost use Rattle.kn_port.specs.Journal.{Tells, listen_entries};
ghost use Rattle.kn_port.specs.declared.entry.Entry.{Entry};

use crate::awake::Awake;
use crate::running::{READ_ROOM, Running};
use crate::watch::Watch;
use crate::{Course, Gates, Node};
use kn_io::NoMemory;
use kn_port::{Gate, Listened, Port, Woken};
use std::alloc::Global;

/// Listens at a gate, and notes it.
pub fn listen_at<P: Port>(port: &mut P, gates: &mut Gates, gate: Gate, address: &str) -> Listened
    ensures count { ListenCounts result (P.faults port.old) (P.faults port.new) }
    ensures last { P.last port.new ≡ P.last port.old }
    ensures told { Tells (P.told port.old) (P.told port.new) (listen_entries gate address.now result) }
    ensures gates { gates.new ≡ gate_listened gate result gates.old }
{
    let answer = port.listen(gate, address);
    gates.note_listened(gate, answer);
    answer
}

/// What is known where a node begins.
fn first_watch(
    alloc: Global,
    server: Option<u64>,
    gates: Gates,
    drain: u64,
    course: Course,
) -> Result<Watch, NoMemory>
    ensures { IfOk result (λ w. Starts server gates drain course w) }
{
    let mut watch = Watch::new(alloc, gates, drain, course);
    match server {
        Some(conn) => {
            watch.begin(conn, true, true)?;
            Ok(watch)
        }
        None => Ok(watch),
    }
}

impl<N: Node + Drop> Running<N> {
    /// A node with no connection but that to its server, whose dial is under way.
    pub fn new(
        alloc: Global,
        node: N,
        server: Option<u64>,
        gates: Gates,
        drain: u64,
        course: Course,
    ) -> Result<Running<N>, NoMemory>
        requires { IsNew server (N.top node) (N.answers node) }
        ensures node { IfOk result (λ r. r.node ≡ node) }
        ensures watch { IfOk result (λ r. Starts server gates drain course r.watch) }
        ensures steady { IfOk result (λ r. (drawn : ℕ) (told : Option (List Entry)) → N.top node ≤ drawn → IsAtHand server told → Steady r.busy.items r.awake r.watch (N.answers node) (N.top node) drawn told) }
    {
        let watch = first_watch(alloc, server, gates, drain, course)?;
        let room = vec![in alloc; 0; READ_ROOM]?;
        Ok(Running {
            node,
            watch,
            awake: Awake::new(alloc),
            busy: Vec::new(alloc),
            room,
            woken: Woken::new(alloc),
            turn_from: 0,
            alloc,
        })
    }
}
