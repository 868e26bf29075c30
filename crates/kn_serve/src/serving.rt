//! A node at work: turns until one ends the run.

ghost use Rattle.kn_loop.specs.Turns.{Steady, IsTurn, is_done, is_bound, answer_of};
ghost use Rattle.kn_serve.specs.Working.{IsLast, RunCounts, Serves, Works};

use kn_loop::{Node, Running, Turn};
use kn_port::Port;
use std::sync::Wait;

/// Turns until one answers something else than `More`. It waits as its port does.
#[tactic(auto, using(crate::proofs::CountLemmas::last_counts))]
pub(crate) fn serve<W: Wait, N: Node + Drop, P: Port>(
    rt: &W,
    running: &mut Running<N>,
    port: &mut P,
) -> Turn
    requires { Steady running.old.busy.items running.old.awake running.old.watch (N.answers running.old.node) (N.top running.old.node) (P.last port.old) (P.told port.old) }
    ensures serves { Serves (IsTurn N.did N.outgoing N.answers N.top N.to_dial N.takes_of N.ended_count N.is_cut_off) (P.told port.old) running.old.watch running.old.node (P.told port.new) result }
    ensures last { IsLast result }
    ensures counts { RunCounts result (P.faults port.old) (P.faults port.new) }
{
    for _turn in rt.forever() {
        let answer = running.turn(port);
        if answer != Turn::More {
            return answer;
        }
    }
    unreachable!()
}

/// The rest of a run whose first turn was made: its answer, or further turns where there may be some.
#[tactic(auto, using(crate::proofs::CountLemmas::last_counts))]
pub(crate) fn work<W: Wait, N: Node + Drop, P: Port>(
    rt: &W,
    running: Running<N>,
    port: &mut P,
) -> Turn
    requires { Steady running.busy.items running.awake running.watch (N.answers running.node) (N.top running.node) (P.last port.old) (P.told port.old) }
    ensures works { Works (IsTurn N.did N.outgoing N.answers N.top N.to_dial N.takes_of N.ended_count N.is_cut_off) (answer_of (is_done running.watch.course (N.ended_count running.node) running.watch.lines (N.answers running.node)) (N.is_cut_off running.node) (is_bound running.watch.course)) (P.told port.old) running.watch running.node (P.told port.new) result }
    ensures last { IsLast result }
    ensures counts { RunCounts result (P.faults port.old) (P.faults port.new) }
{
    let mut running = running;
    match running.answer() {
        Turn::More => serve(rt, &mut running, port),
        Turn::Done => Turn::Done,
        Turn::Bound => Turn::Bound,
        Turn::BindFault => Turn::BindFault,
        Turn::WaitFault => Turn::WaitFault,
        Turn::ServerLost => Turn::ServerLost,
        Turn::NoMemory => Turn::NoMemory,
    }
}
