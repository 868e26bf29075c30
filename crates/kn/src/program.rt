ghost use Rattle.std.specs.Prelude.{◌≡◌, map};
ghost use Rattle.kn_cmd.specs.Run.{told, streams};
ghost use Rattle.kn.specs.Program as spec;

use kn_cmd::{Status, refuse, run_plain};
use kn_io::{NoMemory, Put, Sink, Source};
use kn_net::run_on_sockets;
use kn_options::{Help, help_of, is_net};
use std::alloc::{AllocGlobal, Global};
use std::env::Env;
use std::net::Net;
use std::sync::Wait;
use std::{env, io};

/// Does what the words of the command line ask for. The answer is the status of the process. Words that are not
/// UTF-8 are those of no command.
pub fn run_program<R: Env + AllocGlobal + Net + Wait, S: Source, K: Sink, E: Sink>(
    rt: &R,
    source: &mut S,
    out: &mut K,
    err: &mut E,
) -> u8 {
    match words_of(rt) {
        Ok(Some(args)) => run_args(rt, &args, source, out, err),
        Ok(None) => refuse(err, Status::Usage),
        Err(NoMemory) => refuse(err, Status::NoMemory),
    }
}

/// The words of the command line, without the program's name, or none where one is not UTF-8.
fn words_of<R: Env + AllocGlobal>(rt: &R) -> Result<Option<Vec<String>>, NoMemory> {
    match env::args(rt) {
        Ok(args) => Ok(Some(args.skip(1).collect(rt.alloc())?)),
        Err(error) => {
            if error.kind() == io::ErrorKind::OutOfMemory {
                Err(NoMemory)
            } else {
                Ok(None)
            }
        }
    }
}

fn run_args<R: AllocGlobal + Net + Wait, S: Source, K: Sink, E: Sink>(
    rt: &R,
    args: &[String],
    source: &mut S,
    out: &mut K,
    err: &mut E,
) -> u8 {
    let alloc = rt.alloc();
    match borrowed(alloc, args) {
        Ok(words) => run_words(rt, alloc, &words, source, out, err),
        Err(NoMemory) => refuse(err, Status::NoMemory),
    }
}

fn borrowed<'a>(alloc: Global, args: &'a [String]) -> Result<Vec<&'a str>, NoMemory> {
    let mut words = Vec::with_capacity(alloc, args.len())?;
    for arg in args {
        words.push(arg.as_str())?;
    }
    Ok(words)
}

/// Does what the words, without the program's name, ask for: tells about the program, runs a program over the
/// sockets of the system, or runs a plain command over the source and the sink. The answer is the status of the
/// process.
fn run_words<R: Net + Wait, S: Source, K: Sink, E: Sink>(
    rt: &R,
    alloc: Global,
    words: &[&str],
    source: &mut S,
    out: &mut K,
    err: &mut E,
) -> u8
    ensures { spec.ProgramEnds (map (λ word. word.now) words.now)
        (streams (told (S.faults source.old) (S.left source.old)) (told (K.faults out.old) (K.written out.old)) (told (E.faults err.old) (E.written err.old)))
        (streams (told (S.faults source.new) (S.left source.new)) (told (K.faults out.new) (K.written out.new)) (told (E.faults err.new) (E.written err.new)))
        result }
{
    match help_of(words) {
        Some(help) => tell_help(help, out, err),
        None => {
            if is_net(words) {
                run_on_sockets(rt, alloc, words, err)
            } else {
                run_plain(alloc, words, source, out, err)
            }
        }
    }
}

/// Writes the help to the output.
fn tell_help<K: Sink, E: Sink>(help: Help, out: &mut K, err: &mut E) -> u8
    ensures { spec.HelpEnds help (told (K.faults out.old) (K.written out.old)) (told (K.faults out.new) (K.written out.new))
        (told (E.faults err.old) (E.written err.old)) (told (E.faults err.new) (E.written err.new)) result }
{
    match out.write(help.text().as_bytes()) {
        Put::Done => 0,
        Put::Failed => refuse(err, Status::WriteFault),
        Put::NoMemory => refuse(err, Status::NoMemory),
    }
}
