//! A run of an agent: its server is dialled, and its node works.

ghost use Rattle.std.specs.Prelude.{ℕ, ◌≡◌, ◌≤◌, ◌<◌, false, List, Option, Some, IfOk};
ghost use Rattle.kn_port.specs.declared.entry.Entry.{Entry};
ghost use Rattle.kn_port.specs.declared.names.Dialled.TheVariants as dialled;
ghost use Rattle.kn_loop.specs.Known.{Starts, IsAtHand};
ghost use Rattle.kn_loop.specs.Gates.{no_gates};
ghost use Rattle.kn_loop.specs.Turns.{Steady};
ghost use Rattle.kn_agent_node.specs.Calls as agent;
ghost use Rattle.kn_agent_node.specs.Answers.{shuts_of};
ghost use Rattle.kn_serve.specs.First.{first_course};
ghost use Rattle.kn_serve.specs.Sides as side;
ghost use Rattle.kn_serve.specs.Programs.{AgentWorks, AgentRuns};
ghost use Rattle.kn_serve.specs.Working.{IsLast, RunCounts};

use crate::agent_side::AgentSide;
use crate::first::course;
use crate::serving::work;
use kn_agent_node::AgentNode;
use kn_io::NoMemory;
use kn_loop::{Course, Gates, Running, Turn};
use kn_options::AgentOptions;
use kn_port::{Dialled, Port};
use std::alloc::Global;
use std::sync::Wait;

/// The agent's node on the connection that was dialled.
fn fresh_node(alloc: Global, conn: u64, options: &AgentOptions) -> Result<AgentNode, NoMemory>
    ensures started { IfOk result (λ node. node ≡ agent.started conn options.now.server options.now.id options.now.identifiers) }
    ensures top { IfOk result (λ node. node.top ≡ conn) }
    ensures stays { IfOk result (λ node. shuts_of node conn ≡ false) }
{
    AgentNode::new(
        alloc,
        conn,
        options.server.as_str(),
        options.id.as_str(),
        options.identifiers.as_str(),
    )
}

/// Puts a fresh node to work.
fn run_node(
    alloc: Global,
    conn: u64,
    node: AgentNode,
    drain: u64,
    course: Course,
) -> Result<Running<AgentSide>, NoMemory>
    requires drawn { 0 < conn }
    requires top { node.top ≡ conn }
    requires stays { shuts_of node conn ≡ false }
    ensures node { IfOk result (λ r. r.node.node ≡ node) }
    ensures watch { IfOk result (λ r. Starts (Some conn) no_gates drain course r.watch) }
    ensures ready { IfOk result (λ r. (drawn : ℕ) (told : Option (List Entry)) → conn ≤ drawn → IsAtHand (Some conn) told → Steady r.busy.items r.awake r.watch (side.agent_answers r.node.node) (side.top_of r.node.node.top r.node.other) drawn told) }
{
    let side = AgentSide {
        node,
        other: 0,
        alloc,
    };
    let running = Running::new(alloc, side, Some(conn), Gates::none(), drain, course)?;
    Ok(running)
}

fn run_agent(
    alloc: Global,
    conn: u64,
    options: &AgentOptions,
) -> Result<Running<AgentSide>, NoMemory>
    requires { 0 < conn }
    ensures node { IfOk result (λ r. r.node.node ≡ agent.started conn options.now.server options.now.id options.now.identifiers) }
    ensures watch { IfOk result (λ r. Starts (Some conn) no_gates options.now.drain (first_course options.now.tunnels options.now.turns) r.watch) }
    ensures ready { IfOk result (λ r. (drawn : ℕ) (told : Option (List Entry)) → conn ≤ drawn → IsAtHand (Some conn) told → Steady r.busy.items r.awake r.watch (side.agent_answers r.node.node) (side.top_of r.node.node.top r.node.other) drawn told) }
{
    let node = fresh_node(alloc, conn, options)?;
    let course = course(options.tunnels, options.turns);
    let running = run_node(alloc, conn, node, options.drain, course)?;
    Ok(running)
}

fn work_agent<W: Wait, P: Port>(
    rt: &W,
    alloc: Global,
    conn: u64,
    options: &AgentOptions,
    port: &mut P,
) -> Turn
    requires drawn { (0 < conn) × (conn ≤ P.last port.old) }
    requires hand { IsAtHand (Some conn) (P.told port.old) }
    ensures works { AgentWorks options.now conn (P.told port.old) (P.told port.new) result }
    ensures last { IsLast result }
    ensures counts { RunCounts result (P.faults port.old) (P.faults port.new) }
{
    match run_agent(alloc, conn, options) {
        Ok(running) => work(rt, running, port),
        Err(NoMemory) => Turn::NoMemory,
    }
}

/// A whole run of an agent: it dials its server, and then its node works until a turn is its last. It waits as its
/// port does.
#[tactic(auto, using(crate::proofs::FirstLemmas::dialled_at_hand, crate::proofs::CountLemmas::later_counts))]
pub fn run_as_agent<W: Wait, P: Port>(
    rt: &W,
    alloc: Global,
    options: AgentOptions,
    port: &mut P,
) -> Turn
    ensures runs { AgentRuns options (P.told port.old) (P.told port.new) result }
    ensures last { IsLast result }
    ensures counts { RunCounts result (P.faults port.old) (P.faults port.new) }
{
    match port.dial(options.server.as_str()) {
        Dialled::Conn(conn) => work_agent(rt, alloc, conn, &options, port),
        Dialled::Failed => Turn::ServerLost,
        Dialled::NoMemory => Turn::NoMemory,
    }
}
