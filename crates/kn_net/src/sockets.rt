ghost use Rattle.std.specs.Prelude.{◌≡◌, map};
ghost use Rattle.kn_net.specs.Ends.{number_of, TellsEnd};
ghost use Rattle.kn_net.specs.Run.{ComesTo};
ghost use Rattle.kn_net.specs.Told.{told};
ghost use Rattle.kn_net.specs.declared.end.End.{End};

use crate::run::run_over;
use kn_io::Sink;
use kn_mio::MioPort;
use std::alloc::Global;
use std::net::Net;
use std::sync::Wait;

/// Runs the program that the words ask for over the sockets of the system, as `run_net` does over any port.
pub fn run_on_sockets<R: Net + Wait, E: Sink>(
    rt: &R,
    alloc: Global,
    words: &[&str],
    err: &mut E,
) -> u8
    ensures { (end : End) × (result ≡ number_of end) × ComesTo (map (λ word. word.now) words.now) end
        × TellsEnd end (told (E.faults err.old) (E.written err.old)) (told (E.faults err.new) (E.written err.new)) }
{
    run_over(rt, alloc, words, MioPort::new(rt, alloc), err)
}
