ghost use Rattle.std.specs.Prelude.{IfOk};
ghost use Rattle.kn_cmd.specs.Outcome.{ComesOf, ReportsRun};
ghost use Rattle.kn_cmd.specs.declared.command.Command.{Command};

use crate::Command;
use crate::messages::line_fault;
use crate::outcome::{Outcome, refused, written};
use kn_io::{Blob, NoMemory};
use kn_refinement::{
    no_end_is_due, quiet_worlds_are_at_rest, sides_send_their_own_bytes,
    unanswered_apps_are_refused, worlds_keep_their_promises,
};
use kn_route::Strategies;
use kn_script::{ScriptError, line_count, read_script, reason_text, report};
use kn_world::{World, WorldEvent};
use std::alloc::Global;

/// The most lines of a script.
pub const LINE_LIMIT: usize = 10_000;

/// What becomes of a script.
pub(crate) fn replay(alloc: Global, strategies: Strategies, bytes: &[u8]) -> Outcome
    ensures { ComesOf (Command.Replay strategies) bytes.now result }
{
    if line_count(bytes) > LINE_LIMIT {
        return Outcome::TooLong;
    }
    match read_script(alloc, bytes) {
        Ok(events) => written(replayed(alloc, strategies, &events)),
        Err(ScriptError::NoMemory) => Outcome::NoMemory,
        Err(ScriptError::Fault(fault)) => refused(line_fault(
            alloc,
            fault.line as u64,
            reason_text(fault.reason),
        )),
    }
}

/// The report of a world with these strategies after these events.
fn replayed(alloc: Global, strategies: Strategies, events: &[WorldEvent]) -> Result<Blob, NoMemory>
    ensures { IfOk result (ReportsRun strategies events.now) }
{
    worlds_keep_their_promises();
    unanswered_apps_are_refused();
    sides_send_their_own_bytes();
    no_end_is_due();
    quiet_worlds_are_at_rest();
    let mut world = World::new(alloc, strategies);
    let idle = world.run(alloc, events)?;
    report(alloc, &world, idle)
}
