ghost use Rattle.std.specs.Prelude.{◌≡◌, map};
ghost use Rattle.kn_cmd.specs.Command.{Asks};
ghost use Rattle.kn_cmd.specs.Status.{number_of, message_of};
ghost use Rattle.kn_cmd.specs.declared.status.Status.{Status};
ghost use Rattle.kn_cmd.specs.Run.{told, streams, Tells, Delivers, CommandEnds, Ends};

use crate::command::command_of;
use crate::input::{Input, read_input};
use crate::outcome::{Outcome, make_outcome};
use crate::{Command, Status};
use kn_io::{Put, Sink, Source};
use std::alloc::Global;

/// Runs a plain command: reads the source to its end, writes the output to `out` in one write once all of it
/// is made, and tells what went wrong on `err`. The words leave out the program's name. The answer is the
/// status of the process. A failing `err` changes nothing.
pub fn run_plain<S: Source, K: Sink, E: Sink>(
    alloc: Global,
    words: &[&str],
    source: &mut S,
    out: &mut K,
    err: &mut E,
) -> u8
    ensures { (end : Status) × (result ≡ number_of end) × Ends (map (λ word. word.now) words.now)
        (streams (told (S.faults source.old) (S.left source.old)) (told (K.faults out.old) (K.written out.old)) (told (E.faults err.old) (E.written err.old)))
        (streams (told (S.faults source.new) (S.left source.new)) (told (K.faults out.new) (K.written out.new)) (told (E.faults err.new) (E.written err.new)))
        end }
{
    run(alloc, words, source, out, err).number()
}

fn run<S: Source, K: Sink, E: Sink>(
    alloc: Global,
    words: &[&str],
    source: &mut S,
    out: &mut K,
    err: &mut E,
) -> Status
    ensures { Ends (map (λ word. word.now) words.now)
        (streams (told (S.faults source.old) (S.left source.old)) (told (K.faults out.old) (K.written out.old)) (told (E.faults err.old) (E.written err.old)))
        (streams (told (S.faults source.new) (S.left source.new)) (told (K.faults out.new) (K.written out.new)) (told (E.faults err.new) (E.written err.new)))
        result }
{
    match command_of(alloc, words) {
        Ok(Some(command)) => run_command(alloc, command, source, out, err),
        Ok(None) => fail(err, Status::Usage),
        Err(_) => fail(err, Status::NoMemory),
    }
}

fn run_command<S: Source, K: Sink, E: Sink>(
    alloc: Global,
    command: Command,
    source: &mut S,
    out: &mut K,
    err: &mut E,
) -> Status
    ensures { CommandEnds command
        (streams (told (S.faults source.old) (S.left source.old)) (told (K.faults out.old) (K.written out.old)) (told (E.faults err.old) (E.written err.old)))
        (streams (told (S.faults source.new) (S.left source.new)) (told (K.faults out.new) (K.written out.new)) (told (E.faults err.new) (E.written err.new)))
        result }
{
    match read_input(alloc, source) {
        Input::Whole(bytes) => {
            let came = make_outcome(alloc, command, bytes.as_slice());
            deliver(came, out, err)
        }
        Input::TooLong => fail(err, Status::TooLong),
        Input::Fault => fail(err, Status::ReadFault),
        Input::NoMemory => fail(err, Status::NoMemory),
    }
}

/// Writes the output, or tells why there is none.
fn deliver<K: Sink, E: Sink>(came: Outcome, out: &mut K, err: &mut E) -> Status
    ensures { Delivers came (told (K.faults out.old) (K.written out.old)) (told (K.faults out.new) (K.written out.new))
        (told (E.faults err.old) (E.written err.old)) (told (E.faults err.new) (E.written err.new)) result }
{
    match came {
        Outcome::Output(text) => match out.write(text.as_slice()) {
            Put::Done => Status::Done,
            Put::Failed => fail(err, Status::WriteFault),
            Put::NoMemory => fail(err, Status::NoMemory),
        },
        Outcome::Refused(message) => {
            tell(err, message.as_slice());
            Status::BadInput
        }
        Outcome::TooLong => fail(err, Status::TooLong),
        Outcome::NoMemory => fail(err, Status::NoMemory),
    }
}

/// Tells the message of a status with which a program ends before it runs a command, and answers its number.
pub fn refuse<E: Sink>(err: &mut E, status: Status) -> u8
    ensures number { result ≡ number_of status }
    ensures message { Tells (told (E.faults err.old) (E.written err.old)) (told (E.faults err.new) (E.written err.new)) (message_of status) }
{
    fail(err, status).number()
}

/// Tells the message of the status, and answers the status.
fn fail<E: Sink>(err: &mut E, status: Status) -> Status
    ensures same { result ≡ status }
    ensures message { Tells (told (E.faults err.old) (E.written err.old)) (told (E.faults err.new) (E.written err.new)) (message_of status) }
{
    tell(err, status.message());
    status
}

fn tell<E: Sink>(err: &mut E, message: &[u8])
    ensures { Tells (told (E.faults err.old) (E.written err.old)) (told (E.faults err.new) (E.written err.new)) message.now }
{
    let _ = err.write(message);
}

#[cfg(test)]
mod races;
#[cfg(test)]
mod tests;
