// Bytes through the two ends of one HTTP/2 connection in one process. `bench/connection.sh` measures them by
// the clock.
//
// Words: `connection` or `copy`, how many bytes, and how many times. The first carries them on a new connection
// from its client's queue to what its server takes; the second copies them from one vector to another, piece by
// piece. How many came in all is printed.
#![tactic(auto)]

mod copying;
mod fault;
mod passing;

use crate::copying::copy_times;
use crate::fault::Fault;
use crate::passing::pass_times;
use std::alloc::Global;
use std::env;
use std::process::ExitCode;

/// How many bytes came, or none where the words ask for nothing that there is.
fn run(alloc: Global, words: &[String]) -> Result<Option<u64>, Fault> {
    let [_, what, bytes, times] = words else {
        return Ok(None);
    };
    let (Ok(bytes), Ok(times)) = (bytes.as_str().parse::<u64>(), times.as_str().parse::<u32>())
    else {
        return Ok(None);
    };
    match what.as_str() {
        "connection" => Ok(Some(pass_times(alloc, bytes, times)?)),
        "copy" => Ok(Some(copy_times(alloc, bytes, times)?)),
        _ => Ok(None),
    }
}

fn read_and_run(rt: &HostRuntime) -> Result<Option<u64>, Fault> {
    let Ok(args) = env::args(rt) else {
        return Ok(None);
    };
    let words: Vec<String> = args.collect(rt.alloc())?;
    run(rt.alloc(), &words)
}

/// Status 1 where a call of the connection was refused, 2 for words that ask for nothing that there is, 7 for
/// want of memory.
fn main(rt: HostRuntime) -> ExitCode {
    match read_and_run(&rt) {
        Ok(Some(count)) => match println!(rt; "{count}") {
            Ok(()) => ExitCode::from(0),
            Err(_) => ExitCode::from(1),
        },
        Ok(None) => ExitCode::from(2),
        Err(Fault::Refused) => ExitCode::from(1),
        Err(Fault::NoMemory) => ExitCode::from(7),
    }
}
