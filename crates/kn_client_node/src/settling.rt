//! Steps, until none is left to make.

ghost use Rattle.std.specs.Prelude.{◌≡◌, ◌∷◌, [], false, OnOk, IfOk, MatchOption};
ghost use Rattle.kn_h2_state.specs.declared.moves.Move.{Move};
ghost use Rattle.kn_ends.specs.Carriers.{can_write, events_then};
ghost use Rattle.kn_client_node.specs.Steps as step;
ghost use Rattle.kn_client_node.specs.Steps.{Reaches, IsSettled, Settles};

use crate::handling::handle_at;
use crate::hearing::heard;
use crate::node::Node;
use crate::sending::{admit, can_admit};
use crate::waiting::arrival;
use kn_ends::{carrier, next_told};
use kn_h2::H2Event;
use kn_io::NoMemory;
use std::alloc::Global;

/// What is due is written, while there is room.
fn write(alloc: Global, node: &mut Node) -> Result<(), NoMemory>
    ensures made { OnOk result (Reaches node.old node.new) }
    ensures filled { OnOk result ((m : Move) → can_write node.new.carrier m ≡ false) }
{
    carrier::write(&mut node.carrier, alloc)?;
    Ok(())
}

/// What arrived is handled, if anything did; and whether anything did.
fn handle_next(alloc: Global, node: &mut Node) -> Result<bool, NoMemory>
    requires heard { step.told node.old ≡ [] }
    requires admitted { step.can_admit node.old ≡ false }
    requires filled { (m : Move) → can_write node.old.carrier m ≡ false }
    ensures made { OnOk result (Reaches node.old node.new) }
    ensures none { IfOk result (λ more. more ≡ false → IsSettled node.new) }
{
    match arrival(alloc, node)? {
        Some(arrival) => {
            handle_at(alloc, node, arrival)?;
            Ok(true)
        }
        None => Ok(false),
    }
}

/// The first packet behind the queue goes to it, or what arrived is handled.
fn admit_next(alloc: Global, node: &mut Node) -> Result<bool, NoMemory>
    requires heard { step.told node.old ≡ [] }
    requires filled { (m : Move) → can_write node.old.carrier m ≡ false }
    ensures made { OnOk result (Reaches node.old node.new) }
    ensures none { IfOk result (λ more. more ≡ false → IsSettled node.new) }
{
    if can_admit(node) {
        admit(node)?;
        Ok(true)
    } else {
        handle_next(alloc, node)
    }
}

/// The next event that the connection told.
fn next_event(node: &mut Node) -> Option<H2Event>
    ensures { MatchOption result
        ((step.told node.old ≡ []) × (node.new ≡ node.old))
        (λ event. node.old ≡ step.on_carrier (events_then (event ∷ step.told node.new)) node.new) }
{
    next_told(&mut node.carrier)
}

/// The next step but for writing, and whether there was any.
fn next(alloc: Global, node: &mut Node) -> Result<bool, NoMemory>
    requires { (m : Move) → can_write node.old.carrier m ≡ false }
    ensures made { OnOk result (Reaches node.old node.new) }
    ensures none { IfOk result (λ more. more ≡ false → IsSettled node.new) }
{
    match next_event(node) {
        Some(event) => {
            heard(alloc, node, event)?;
            Ok(true)
        }
        None => admit_next(alloc, node),
    }
}

/// What is due is written, and then one step is made; and whether there was any.
fn go_on(alloc: Global, node: &mut Node) -> Result<bool, NoMemory>
    ensures made { OnOk result (Reaches node.old node.new) }
    ensures none { IfOk result (λ more. more ≡ false → IsSettled node.new) }
{
    write(alloc, node)?;
    next(alloc, node)
}

/// Steps are made until none is left. As many rounds as a number counts are never made.
pub fn settle(alloc: Global, node: &mut Node) -> Result<(), NoMemory>
    ensures { OnOk result (Settles node.old node.new) }
{
    for _round in 0..u64::MAX {
        if !go_on(alloc, node)? {
            return Ok(());
        }
    }
    Err(NoMemory)
}
