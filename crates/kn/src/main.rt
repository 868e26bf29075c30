// The program `kn`: what a person asks about it, the programs that use the network, and the plain commands.
#![tactic(auto)]

mod program;

use crate::program::run_program;
use kn_io::{StdSink, StdSource};
use std::process::ExitCode;

fn main(rt: HostRuntime) -> ExitCode {
    let mut source = StdSource::new(rt.stdin());
    let mut out = StdSink::new(rt.stdout());
    let mut err = StdSink::new(rt.stderr());
    ExitCode::from(run_program(&rt, &mut source, &mut out, &mut err))
}
