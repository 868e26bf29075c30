//! A run of a server: the gates are opened, and its node works.

ghost use Rattle.std.specs.Prelude.{ℕ, ◌≡◌, ◌≤◌, List, Option, None, Some, IfOk};
ghost use Rattle.kn_port.specs.declared.entry.Entry.{Entry};
ghost use Rattle.kn_port.specs.Journal.{Tells};
ghost use Rattle.kn_port.specs.declared.names.Listened.{Listened};
ghost use Rattle.kn_port.specs.Answers.{ListenCounts};
ghost use Rattle.kn_loop.specs.Known.{Starts};
ghost use Rattle.kn_loop.specs.Gates.{no_gates};
ghost use Rattle.kn_loop.specs.Turns.{Steady};
ghost use Rattle.kn_server_node.specs.Calls as server;
ghost use Rattle.kn_serve.specs.First.{first_course, ServerListens, entries_after, gates_after, after, entries_after_any, gates_after_any, after_any, FailsWith};
ghost use Rattle.kn_serve.specs.Sides as side;
ghost use Rattle.kn_serve.specs.Programs.{ServerWorks, ServerRuns};
ghost use Rattle.kn_serve.specs.Working.{IsLast, RunCounts};

use crate::first::course;
use crate::server_side::ServerSide;
use crate::serving::work;
use kn_io::{NoMemory, Text};
use kn_loop::{Gates, Running, Turn, listen_at};
use kn_options::ServerOptions;
use kn_port::{Gate, Listened, Port};
use kn_server_node::ServerNode;
use std::alloc::Global;
use std::sync::Wait;

/// Listens at a gate, where those before it are open.
fn listen_after<P: Port>(
    port: &mut P,
    gates: &mut Gates,
    before: Listened,
    gate: Gate,
    address: &str,
) -> Listened
    ensures told { (answer : Listened) × Tells (P.told port.old) (P.told port.new) (entries_after before gate address.now answer)
        × (gates.new ≡ gates_after before gate answer gates.old) × (result ≡ after before answer) }
    ensures last { P.last port.new ≡ P.last port.old }
    ensures faults { P.faults port.old ≤ P.faults port.new }
    ensures failed { FailsWith before result (P.faults port.old) (P.faults port.new) }
{
    match before {
        Listened::Done => listen_at(port, gates, gate, address),
        Listened::Failed => Listened::Failed,
        Listened::NoMemory => Listened::NoMemory,
    }
}

/// Listens at a gate that may be left out, where those before it are open.
fn listen_any<P: Port>(
    port: &mut P,
    gates: &mut Gates,
    before: Listened,
    gate: Gate,
    address: &Option<Text>,
) -> Listened
    ensures told { (answer : Listened) × Tells (P.told port.old) (P.told port.new) (entries_after_any address.now before gate answer)
        × (gates.new ≡ gates_after_any address.now before gate answer gates.old) × (result ≡ after_any address.now before answer) }
    ensures last { P.last port.new ≡ P.last port.old }
    ensures faults { P.faults port.old ≤ P.faults port.new }
    ensures failed { FailsWith before result (P.faults port.old) (P.faults port.new) }
{
    match address {
        Some(address) => listen_after(port, gates, before, gate, address.as_str()),
        None => before,
    }
}

/// Listens at the gates of a server, in their order.
fn listen_server<P: Port>(port: &mut P, gates: &mut Gates, options: &ServerOptions) -> Listened
    requires { gates.old ≡ no_gates }
    ensures listens { ServerListens options.now (P.told port.old) (P.told port.new) gates.new result }
    ensures last { P.last port.new ≡ P.last port.old }
    ensures count { ListenCounts result (P.faults port.old) (P.faults port.new) }
{
    let agents = listen_at(port, gates, Gate::Agents, options.agents.as_str());
    let clients = listen_after(port, gates, agents, Gate::Clients, options.clients.as_str());
    listen_any(port, gates, clients, Gate::Connect, &options.connect)
}

fn run_server(
    alloc: Global,
    options: ServerOptions,
    gates: Gates,
) -> Result<Running<ServerSide>, NoMemory>
    ensures node { IfOk result (λ r. r.node.node ≡ server.start options.strategies options.id 1) }
    ensures watch { IfOk result (λ r. Starts None gates 0 (first_course options.tunnels options.turns) r.watch) }
    ensures ready { IfOk result (λ r. (drawn : ℕ) (told : Option (List Entry)) → Steady r.busy.items r.awake r.watch (side.server_answers r.node.node) r.node.node.top drawn told) }
{
    let course = course(options.tunnels, options.turns);
    let node = ServerNode::new(alloc, options.strategies, options.id);
    let side = ServerSide { node, alloc };
    let running = Running::new(alloc, side, None, gates, 0, course)?;
    Ok(running)
}

fn work_server<W: Wait, P: Port>(
    rt: &W,
    alloc: Global,
    options: ServerOptions,
    gates: Gates,
    port: &mut P,
) -> Turn
    ensures works { ServerWorks options gates (P.told port.old) (P.told port.new) result }
    ensures last { IsLast result }
    ensures counts { RunCounts result (P.faults port.old) (P.faults port.new) }
{
    match run_server(alloc, options, gates) {
        Ok(running) => work(rt, running, port),
        Err(NoMemory) => Turn::NoMemory,
    }
}

/// A whole run of a server: it listens, and then its node works until a turn is its last. It waits as its port does.
#[tactic(auto, using(crate::proofs::CountLemmas::later_counts))]
pub fn run_as_server<W: Wait, P: Port>(
    rt: &W,
    alloc: Global,
    options: ServerOptions,
    port: &mut P,
) -> Turn
    ensures runs { ServerRuns options (P.told port.old) (P.told port.new) result }
    ensures last { IsLast result }
    ensures counts { RunCounts result (P.faults port.old) (P.faults port.new) }
{
    let mut gates = Gates::none();
    match listen_server(port, &mut gates, &options) {
        Listened::Done => work_server(rt, alloc, options, gates, port),
        Listened::Failed => Turn::BindFault,
        Listened::NoMemory => Turn::NoMemory,
    }
}
