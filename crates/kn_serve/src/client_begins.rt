//! A run of a client: its gate is opened, its server is dialled, and its node works.

ghost use Rattle.std.specs.Prelude.{ℕ, ◌≡◌, ◌≤◌, ◌<◌, false, length, List, Option, Some, IfOk};
ghost use Rattle.kn_port.specs.declared.entry.Entry.{Entry};
ghost use Rattle.kn_port.specs.Journal.{Tells, dial_entries};
ghost use Rattle.kn_port.specs.declared.names.Dialled.{Dialled};
ghost use Rattle.kn_port.specs.declared.names.Dialled.TheVariants as dialled;
ghost use Rattle.kn_loop.specs.Known.{Starts, IsAtHand};
ghost use Rattle.kn_loop.specs.Turns.{Steady};
ghost use Rattle.kn_client_node.specs.Calls as client;
ghost use Rattle.kn_serve.specs.First.{first_course};
ghost use Rattle.kn_serve.specs.Sides.{client_answers, top_of};
ghost use Rattle.kn_serve.specs.Programs.{ClientWorks, ClientDials, ClientRuns};
ghost use Rattle.kn_serve.specs.Working.{IsLast, RunCounts};

use crate::client_side::ClientSide;
use crate::first::course;
use crate::serving::work;
use kn_client_node::ClientNode;
use kn_io::NoMemory;
use kn_loop::{Course, Gates, Running, Turn, listen_at};
use kn_options::ClientOptions;
use kn_port::{Dialled, Gate, Listened, Port};
use std::alloc::Global;
use std::sync::Wait;

/// The client's node on the connection that was dialled.
fn fresh_node(alloc: Global, conn: u64, options: &ClientOptions) -> Result<ClientNode, NoMemory>
    ensures fresh { IfOk result (λ node. node ≡ client.fresh_node conn options.now.server) }
    ensures top { IfOk result (λ node. node.top ≡ conn) }
    ensures stays { IfOk result (λ node. client.shuts_of node conn ≡ false) }
{
    ClientNode::new(alloc, conn, options.server.as_str())
}

/// Puts a fresh node to work.
fn run_side(
    alloc: Global,
    conn: u64,
    side: ClientSide,
    gates: Gates,
    course: Course,
) -> Result<Running<ClientSide>, NoMemory>
    requires drawn { 0 < conn }
    requires top { top_of side.node.top side.other ≡ conn }
    requires stays { client.shuts_of side.node conn ≡ false }
    ensures side { IfOk result (λ r. r.node ≡ side) }
    ensures watch { IfOk result (λ r. Starts (Some conn) gates 0 course r.watch) }
    ensures ready { IfOk result (λ r. (drawn : ℕ) (told : Option (List Entry)) → conn ≤ drawn → IsAtHand (Some conn) told → Steady r.busy.items r.awake r.watch (client_answers r.node.node) (top_of r.node.node.top r.node.other) drawn told) }
{
    let running = Running::new(alloc, side, Some(conn), gates, 0, course)?;
    Ok(running)
}

fn run_client(
    alloc: Global,
    conn: u64,
    options: ClientOptions,
    gates: Gates,
) -> Result<Running<ClientSide>, NoMemory>
    requires drawn { 0 < conn }
    requires short { length options.address ≤ 1048576 }
    ensures node { IfOk result (λ r. r.node.node ≡ client.fresh_node conn options.server) }
    ensures address { IfOk result (λ r. r.node.address ≡ options.address) }
    ensures watch { IfOk result (λ r. Starts (Some conn) gates 0 (first_course options.tunnels options.turns) r.watch) }
    ensures ready { IfOk result (λ r. (drawn : ℕ) (told : Option (List Entry)) → conn ≤ drawn → IsAtHand (Some conn) told → Steady r.busy.items r.awake r.watch (client_answers r.node.node) (top_of r.node.node.top r.node.other) drawn told) }
{
    let node = fresh_node(alloc, conn, &options)?;
    let course = course(options.tunnels, options.turns);
    let side = ClientSide {
        node,
        other: 0,
        address: options.address,
        alloc,
    };
    let running = run_side(alloc, conn, side, gates, course)?;
    Ok(running)
}

fn work_client<W: Wait, P: Port>(
    rt: &W,
    alloc: Global,
    conn: u64,
    options: ClientOptions,
    gates: Gates,
    port: &mut P,
) -> Turn
    requires drawn { (0 < conn) × (conn ≤ P.last port.old) }
    requires short { length options.address ≤ 1048576 }
    requires hand { IsAtHand (Some conn) (P.told port.old) }
    ensures works { ClientWorks options gates conn (P.told port.old) (P.told port.new) result }
    ensures last { IsLast result }
    ensures counts { RunCounts result (P.faults port.old) (P.faults port.new) }
{
    match run_client(alloc, conn, options, gates) {
        Ok(running) => work(rt, running, port),
        Err(NoMemory) => Turn::NoMemory,
    }
}

#[tactic(auto, using(crate::proofs::FirstLemmas::dialled_at_hand, crate::proofs::CountLemmas::later_counts))]
fn dial_client<W: Wait, P: Port>(
    rt: &W,
    alloc: Global,
    options: ClientOptions,
    gates: Gates,
    port: &mut P,
) -> Turn
    requires { length options.address ≤ 1048576 }
    ensures dials { ClientDials options gates (P.told port.old) (P.told port.new) result }
    ensures last { IsLast result }
    ensures counts { RunCounts result (P.faults port.old) (P.faults port.new) }
{
    match port.dial(options.server.as_str()) {
        Dialled::Conn(conn) => work_client(rt, alloc, conn, options, gates, port),
        Dialled::Failed => Turn::ServerLost,
        Dialled::NoMemory => Turn::NoMemory,
    }
}

/// A whole run of a client: it listens, dials its server, and then its node works until a turn is its last. It waits
/// as its port does.
#[tactic(auto, using(crate::proofs::CountLemmas::later_counts))]
pub fn run_as_client<W: Wait, P: Port>(
    rt: &W,
    alloc: Global,
    options: ClientOptions,
    port: &mut P,
) -> Turn
    requires { length options.address ≤ 1048576 }
    ensures runs { ClientRuns options (P.told port.old) (P.told port.new) result }
    ensures last { IsLast result }
    ensures counts { RunCounts result (P.faults port.old) (P.faults port.new) }
{
    let mut gates = Gates::none();
    match listen_at(port, &mut gates, Gate::Apps, options.listen.as_str()) {
        Listened::Done => dial_client(rt, alloc, options, gates, port),
        Listened::Failed => Turn::BindFault,
        Listened::NoMemory => Turn::NoMemory,
    }
}
