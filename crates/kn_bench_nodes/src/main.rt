// Bytes through a client, a server and an agent in one process. `bench/nodes.sh` measures them by the clock and by
// instructions.
//
// Words: `up` or `down`, how many tunnels, how many bytes through each, and how many idle tunnels beside them. The
// first word says whether apps send and destinations take, or the other way round. How many bytes came in all is
// printed.
#![tactic(auto)]

mod fault;
mod nodes;
mod passing;
mod peers;
mod side;

use crate::fault::Fault;
use crate::nodes::Way;
use crate::passing::{Job, pass};
use std::alloc::Global;
use std::env;
use std::process::ExitCode;

fn way_of(word: &str) -> Option<Way> {
    match word {
        "up" => Some(Way::Up),
        "down" => Some(Way::Down),
        _ => None,
    }
}

/// How many bytes came, or none where the words ask for nothing that there is.
fn run(alloc: Global, words: &[String]) -> Result<Option<u64>, Fault> {
    let [_, way, tunnels, bytes, idle] = words else {
        return Ok(None);
    };
    let (Some(way), Ok(tunnels), Ok(bytes), Ok(idle)) = (
        way_of(way.as_str()),
        tunnels.as_str().parse::<u32>(),
        bytes.as_str().parse::<u64>(),
        idle.as_str().parse::<u32>(),
    ) else {
        return Ok(None);
    };
    let job = Job {
        way,
        tunnels,
        bytes,
        idle,
    };
    Ok(Some(pass(alloc, &job)?))
}

fn read_and_run(rt: &HostRuntime) -> Result<Option<u64>, Fault> {
    let Ok(args) = env::args(rt) else {
        return Ok(None);
    };
    let words: Vec<String> = args.collect(rt.alloc())?;
    run(rt.alloc(), &words)
}

/// Status 1 where the count cannot be printed, 2 for words that ask for nothing that there is, 7 for want of memory.
fn main(rt: HostRuntime) -> ExitCode {
    match read_and_run(&rt) {
        Ok(Some(count)) => match println!(rt; "{count}") {
            Ok(()) => ExitCode::from(0),
            Err(_) => ExitCode::from(1),
        },
        Ok(None) => ExitCode::from(2),
        Err(Fault::NoMemory) => ExitCode::from(7),
    }
}
