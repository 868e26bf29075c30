//! Steps, until none is left to make.

ghost use Rattle.std.specs.Prelude.{◌≡◌, ℕ, not, [], true, false, Some, OnOk, IfOk};
ghost use Rattle.kn_h2_state.specs.declared.moves.Move.{Move};
ghost use Rattle.kn_rising.specs.Members.{at};
ghost use Rattle.kn_rising.specs.Stirring.{is_stirred};
ghost use Rattle.kn_server_node.specs.Ends.{may_write, is_over};
ghost use Rattle.kn_ends.specs.Queues.{is_empty};
ghost use Rattle.kn_ends.specs.Carriers.{inlet_at};
ghost use Rattle.kn_server_node.specs.Noting.{any_in, has_front, inlet_has};
ghost use Rattle.kn_server_node.specs.Steps as step;
ghost use Rattle.kn_server_node.specs.Steps.{MayDo, Reaches, IsSettled, Settles};
ghost use Rattle.kn_server_node.specs.Tasks.{IsDone, MayMake};

use crate::choosing::next;
use crate::door::Door;
use crate::end::End;
use crate::front::{Seen, front_of};
use crate::handling::{follow, handle, standing_at};
use crate::hearing::hear;
use crate::node::Node;
use crate::one;
use crate::task::Task;
use kn_ends::Inlet;
use kn_io::NoMemory;
use std::alloc::Global;

fn make_follow(alloc: Global, node: &mut Node) -> Result<(), NoMemory>
    requires { is_empty node.old.todo ≡ false }
    ensures { OnOk result (Reaches node.old node.new) }
{
    follow(alloc, node)
}

fn make_hear(alloc: Global, node: &mut Node) -> Result<(), NoMemory>
    requires { (node.old.todo ≡ []) × (is_empty node.old.told ≡ false) }
    ensures { OnOk result (Reaches node.old node.new) }
{
    hear(alloc, node)
}

fn make_handle(alloc: Global, node: &mut Node, conn: u64, stream: u32) -> Result<(), NoMemory>
    requires { MayDo node.old (step.Handle conn stream) }
    ensures { OnOk result (Reaches node.old node.new) }
{
    let standing = standing_at(alloc, node, conn, stream)?;
    handle(alloc, node, conn, stream, standing)
}

fn make(alloc: Global, node: &mut Node, task: Task) -> Result<(), NoMemory>
    requires { MayMake node.old task }
    ensures { OnOk result (Reaches node.old node.new) }
{
    match task {
        Task::Follow => make_follow(alloc, node),
        Task::Hear => make_hear(alloc, node),
        Task::Handle { conn, stream } => make_handle(alloc, node, conn, stream),
    }
}

// ---- writing and forgetting

/// Something else may have to be told of a connection.
fn look(node: &mut Node, conn: u64) -> Result<(), NoMemory>
    ensures made { OnOk result (Reaches node.old node.new) }
    ensures stirred { OnOk result (is_stirred conn node.new.stirred ≡ true) }
    ensures rest { OnOk result (node.new ≡ record node.old { stirred = node.new.stirred }) }
{
    node.stirred.add(conn)
}

/// What is due is written on a connection.
fn write(alloc: Global, node: &mut Node, conn: u64) -> Result<(), NoMemory>
    requires { is_stirred conn node.old.stirred ≡ true }
    ensures made { OnOk result (Reaches node.old node.new) }
    ensures filled { OnOk result ((m : Move) → may_write (at node.new.ends conn) m ≡ false) }
    ensures rest { OnOk result (node.new ≡ record node.old { ends = node.new.ends }) }
{
    node.ends.write(alloc, conn)
}

fn inlet_has(inlet: &Inlet) -> bool
    ensures { result ≡ inlet_has (Some inlet.now) }
{
    match front_of(&inlet.messages) {
        Seen::Less => inlet.ended,
        Seen::Packet { .. } => true,
        Seen::Bad { .. } => true,
    }
}

fn any_in(inlets: &[Inlet]) -> bool
    ensures { result ≡ any_in inlets.now }
{
    for inlet in inlets {
        if inlet_has(inlet) {
            return true;
        }
    }
    false
}

/// One of them has something at its front.
fn any_has(inlets: &[Inlet]) -> bool
    ensures { result ≡ false → (s : ℕ) → inlet_has (inlet_at inlets.now s) ≡ false }
{
    any_in(inlets)
}

fn has_early(door: &Door) -> bool
    ensures { result ≡ not (is_empty door.now.early) }
{
    !door.early.is_empty()
}

fn end_has(end: &End) -> bool
    ensures { result ≡ false → (s : ℕ) → has_front (Some end.now) s ≡ false }
{
    match end {
        End::Streams { carrier, .. } => any_has(carrier.inlets.as_slice()),
        End::Connect { door } => has_early(door),
    }
}

/// A connection has a stream with something to handle, whatever that waits for.
fn has_front(node: &Node, conn: u64) -> bool
    ensures { result ≡ false → (s : ℕ) → has_front (at node.now.ends conn) s ≡ false }
{
    match node.ends.get(conn) {
        Some(end) => end_has(end),
        None => false,
    }
}

fn rest(node: &mut Node, conn: u64)
    ensures { node.new ≡ node.old }
{
    if !has_front(node, conn) {
        node.ends.rest(conn);
    }
}

fn is_over(node: &Node, conn: u64) -> bool
    ensures { result ≡ is_over (at node.now.ends conn) }
{
    match node.ends.get(conn) {
        Some(end) => one::is_over(end),
        None => false,
    }
}

/// A connection that is over is forgotten.
fn forget(node: &mut Node, conn: u64) -> Result<(), NoMemory>
    requires followed { node.old.todo ≡ [] }
    requires heard { node.old.told ≡ [] }
    requires over { is_over (at node.old.ends conn) ≡ true }
    requires stirred { is_stirred conn node.old.stirred ≡ true }
    ensures { OnOk result (Reaches node.old node.new) }
{
    node.ends.forget(conn)
}

/// A connection that was written on is forgotten where it is over, and is not due where it is not.
fn leave(node: &mut Node, conn: u64) -> Result<(), NoMemory>
    requires followed { node.old.todo ≡ [] }
    requires heard { node.old.told ≡ [] }
    requires written { (m : Move) → may_write (at node.old.ends conn) m ≡ false }
    requires stirred { is_stirred conn node.old.stirred ≡ true }
    ensures { OnOk result (Reaches node.old node.new) }
{
    if is_over(node, conn) {
        forget(node, conn)
    } else {
        node.ends.done(conn);
        Ok(())
    }
}

fn visit(alloc: Global, node: &mut Node, conn: u64) -> Result<(), NoMemory>
    requires followed { node.old.todo ≡ [] }
    requires heard { node.old.told ≡ [] }
    ensures { OnOk result (Reaches node.old node.new) }
{
    look(node, conn)?;
    write(alloc, node, conn)?;
    rest(node, conn);
    leave(node, conn)
}

/// A connection that is due is written on, and forgotten where it is over. Tells whether there was one.
fn write_one(alloc: Global, node: &mut Node) -> Result<bool, NoMemory>
    requires { IsDone node.old }
    ensures made { OnOk result (Reaches node.old node.new) }
    ensures none { IfOk result (λ more. more ≡ false → IsSettled node.new) }
{
    match node.ends.next_due() {
        Some(conn) => {
            visit(alloc, node, conn)?;
            Ok(true)
        }
        None => Ok(false),
    }
}

/// One step, or many writes on a connection; and whether there was any.
fn go_on(alloc: Global, node: &mut Node) -> Result<bool, NoMemory>
    ensures made { OnOk result (Reaches node.old node.new) }
    ensures none { IfOk result (λ more. more ≡ false → IsSettled node.new) }
{
    match next(node) {
        Some(task) => {
            make(alloc, node, task)?;
            Ok(true)
        }
        None => write_one(alloc, node),
    }
}

/// Steps are made until none is left. As many rounds as a number counts are never made.
pub fn settle(alloc: Global, node: &mut Node) -> Result<(), NoMemory>
    ensures { OnOk result (Settles node.old node.new) }
{
    for _round in 0..u64::MAX {
        if !go_on(alloc, node)? {
            return Ok(());
        }
    }
    Err(NoMemory)
}
