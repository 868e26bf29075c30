ghost use Rattle.std.specs.Prelude.{◌≡◌, map};
ghost use Rattle.kn_net.specs.Ends.{number_of, TellsEnd};
ghost use Rattle.kn_net.specs.Run as spec;
ghost use Rattle.kn_net.specs.Told.{told};
ghost use Rattle.kn_net.specs.declared.end.End.{End};
ghost use Rattle.kn_serve.specs.Working.{IsLast, RunCounts};

use crate::End;
use crate::end::tell;
use kn_io::Sink;
use kn_loop::Turn;
use kn_options::{Options, read_options};
use kn_port::Port;
use kn_serve::{run_as_agent, run_as_client, run_as_server};
use std::alloc::Global;
use std::sync::Wait;

/// Makes the turns of the program that the options ask for, until one is the last, and answers what that answered.
fn run_turns<R: Wait, P: Port>(rt: &R, alloc: Global, options: Options, port: &mut P) -> Turn
    requires short { spec.HasShortAddress options }
    ensures runs { spec.ProgramRuns options (P.told port.old) (P.told port.new) result }
    ensures last { IsLast result }
    ensures counts { RunCounts result (P.faults port.old) (P.faults port.new) }
{
    match options {
        Options::Server(options) => run_as_server(rt, alloc, options, port),
        Options::Agent(options) => run_as_agent(rt, alloc, options, port),
        Options::Client(options) => run_as_client(rt, alloc, options, port),
    }
}

/// Runs the program that the options ask for, and says what its last turn brings.
fn run_options<R: Wait, P: Port>(rt: &R, alloc: Global, options: Options, port: &mut P) -> End
    requires short { spec.HasShortAddress options }
    ensures { spec.Runs options (spec.network (P.faults port.old) (P.told port.old)) (spec.network (P.faults port.new) (P.told port.new)) result }
{
    match run_turns(rt, alloc, options, port) {
        Turn::More => unreachable!(),
        Turn::Done => End::Done,
        Turn::Bound => End::TurnBound,
        Turn::BindFault => End::CannotListen,
        Turn::WaitFault => End::WaitFault,
        Turn::ServerLost => End::ServerLost,
        Turn::NoMemory => End::NoMemory,
    }
}

fn run<R: Wait, P: Port>(rt: &R, alloc: Global, words: &[&str], port: &mut P) -> End
    ensures { spec.Comes (map (λ word. word.now) words.now) (spec.network (P.faults port.old) (P.told port.old)) (spec.network (P.faults port.new) (P.told port.new)) result }
{
    match read_options(alloc, words) {
        Err(_) => End::NoMemory,
        Ok(None) => End::Usage,
        Ok(Some(options)) => run_options(rt, alloc, options, port),
    }
}

/// Runs the program that the words ask for over a port, until a turn is its last, and tells on `err` how it ended,
/// where that is not well. The words leave out the program's name. The answer is the status of the process. It waits
/// as the port does. A failing `err` changes nothing.
pub fn run_net<R: Wait, P: Port, E: Sink>(
    rt: &R,
    alloc: Global,
    words: &[&str],
    port: &mut P,
    err: &mut E,
) -> u8
    ensures { (end : End) × (result ≡ number_of end)
        × spec.Comes (map (λ word. word.now) words.now) (spec.network (P.faults port.old) (P.told port.old)) (spec.network (P.faults port.new) (P.told port.new)) end
        × TellsEnd end (told (E.faults err.old) (E.written err.old)) (told (E.faults err.new) (E.written err.new)) }
{
    let end = run(rt, alloc, words, port);
    tell(err, end);
    end.number()
}

/// As `run_net`, over a port of its own.
pub(crate) fn run_over<R: Wait, P: Port + Drop, E: Sink>(
    rt: &R,
    alloc: Global,
    words: &[&str],
    port: P,
    err: &mut E,
) -> u8
    ensures { (end : End) × (result ≡ number_of end) × spec.ComesTo (map (λ word. word.now) words.now) end
        × TellsEnd end (told (E.faults err.old) (E.written err.old)) (told (E.faults err.new) (E.written err.new)) }
{
    let mut port = port;
    run_net(rt, alloc, words, &mut port, err)
}
