// Rounds of insert, find and remove in the server's tables. `bench/tables.sh` measures them by the clock.
//
// Words: `awaited` or `held`, how many entries the table holds all along, and how many rounds are made.
#![tactic(auto)]

use kn_io::NoMemory;
use kn_tables::{Awaited, AwaitedEntry, Held, HeldEntry, HeldState};
use std::alloc::Global;
use std::env;
use std::process::ExitCode;

/// How many fronts the entries are spread over, and how many links.
const FRONTS: u32 = 100;

/// Each dial number gives an entry of its own in every key.
fn awaited_entry(dial: u32) -> AwaitedEntry {
    AwaitedEntry {
        dial: u64::from(dial),
        front: u64::from(dial % FRONTS),
        link: u64::from(dial % FRONTS),
        random: i64::from(dial / FRONTS),
    }
}

fn held_entry(dial: u32) -> HeldEntry {
    HeldEntry {
        dial: u64::from(dial),
        link: u64::from(dial % FRONTS),
        connect_id: i64::from(dial / FRONTS),
        front: Some(u64::from(dial % FRONTS)),
        state: HeldState::Open,
    }
}

fn await_dial(table: &mut Awaited, entry: AwaitedEntry) -> Result<(), NoMemory> {
    if table.find_dial(entry.dial).is_none()
        && table.find_random(entry.front, entry.random).is_none()
    {
        table.insert(entry)
    } else {
        Ok(())
    }
}

fn hold(table: &mut Held, entry: HeldEntry) -> Result<(), NoMemory> {
    if table.find_dial(entry.dial).is_none() && table.find(entry.link, entry.connect_id).is_none() {
        table.insert(entry)
    } else {
        Ok(())
    }
}

/// The number that a round puts in: an odd one, and all over the table.
fn round_number(round: u32, entries: u32) -> u32 {
    let spread = round.wrapping_mul(2_654_435_761);
    (spread % entries.max(1)).wrapping_mul(2).wrapping_add(1)
}

/// The entries that stay have even numbers.
fn run_awaited(alloc: Global, entries: u32, rounds: u32) -> Result<usize, NoMemory> {
    let mut table = Awaited::new(alloc);
    for number in 0..entries {
        await_dial(&mut table, awaited_entry(number.wrapping_mul(2)))?;
    }
    for round in 0..rounds {
        let entry = awaited_entry(round_number(round, entries));
        await_dial(&mut table, entry)?;
        if table.find_random(entry.front, entry.random).is_some() {
            table.remove(entry.dial);
        }
    }
    Ok(table.len())
}

fn run_held(alloc: Global, entries: u32, rounds: u32) -> Result<usize, NoMemory> {
    let mut table = Held::new(alloc);
    for number in 0..entries {
        hold(&mut table, held_entry(number.wrapping_mul(2)))?;
    }
    for round in 0..rounds {
        let entry = held_entry(round_number(round, entries));
        hold(&mut table, entry)?;
        if table.find(entry.link, entry.connect_id).is_some() {
            table.remove(entry.link, entry.connect_id);
        }
    }
    Ok(table.len())
}

/// How many entries are left, or none where the words ask for nothing that there is.
fn run(alloc: Global, words: &[String]) -> Result<Option<usize>, NoMemory> {
    let [_, table, entries, rounds] = words else {
        return Ok(None);
    };
    let (Ok(entries), Ok(rounds)) = (
        entries.as_str().parse::<u32>(),
        rounds.as_str().parse::<u32>(),
    ) else {
        return Ok(None);
    };
    match table.as_str() {
        "awaited" => Ok(Some(run_awaited(alloc, entries, rounds)?)),
        "held" => Ok(Some(run_held(alloc, entries, rounds)?)),
        _ => Ok(None),
    }
}

fn read_and_run(rt: &HostRuntime) -> Result<Option<usize>, NoMemory> {
    let Ok(args) = env::args(rt) else {
        return Ok(None);
    };
    let words: Vec<String> = args.collect(rt.alloc())?;
    run(rt.alloc(), &words)
}

/// Status 2 for words that ask for nothing that there is, 7 for want of memory.
fn main(rt: HostRuntime) -> ExitCode {
    match read_and_run(&rt) {
        Ok(Some(_)) => ExitCode::from(0),
        Ok(None) => ExitCode::from(2),
        Err(NoMemory) => ExitCode::from(7),
    }
}
