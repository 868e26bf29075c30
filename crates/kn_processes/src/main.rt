// Three processes of the product over this machine's loopback, driven from outside. With the words of a program that
// uses the network this is that program, as `kn` is; without words it starts itself as a server, an agent and a
// client, and says of each step that it was done.
#![tactic(auto)]

mod children;
mod driver;
mod sockets;
mod steps;

use kn_io::{NoMemory, StdSink};
use kn_net::run_on_sockets;
use std::alloc::Global;
use std::env;
use std::process::ExitCode;

fn main(rt: HostRuntime) -> ExitCode {
    let alloc = rt.alloc();
    let Some(args) = args_of(&rt) else {
        return ExitCode::from(7);
    };
    let Ok(words) = borrowed(alloc, &args) else {
        return ExitCode::from(7);
    };
    if words.is_empty() {
        return ExitCode::from(driver::drive(&rt));
    }
    let mut err = StdSink::new(rt.stderr());
    ExitCode::from(run_on_sockets(&rt, alloc, &words, &mut err))
}

fn args_of(rt: &HostRuntime) -> Option<Vec<String>> {
    match env::args(rt) {
        Ok(args) => args.skip(1).collect(rt.alloc()).ok(),
        Err(_) => None,
    }
}

fn borrowed<'a>(alloc: Global, args: &'a [String]) -> Result<Vec<&'a str>, NoMemory> {
    let mut words = Vec::with_capacity(alloc, args.len())?;
    for arg in args {
        words.push(arg.as_str())?;
    }
    Ok(words)
}
