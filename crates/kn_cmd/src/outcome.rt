ghost use Rattle.std.specs.Prelude.{◌≡◌, [], ◌∷◌, ◌++◌, IfOk};
ghost use Rattle.kn_packet.specs.Lines.{line_of};
ghost use Rattle.kn_packet.specs.Messages.{message};
ghost use Rattle.kn_cmd.specs.Outcome.{ComesOf, IsWritten, IsRefused, choice_line};
ghost use Rattle.kn_cmd.specs.declared.command.Command.{Command};

use crate::messages::{line_fault, offset_fault};
use crate::replay::replay;
use crate::{Command, Question};
use kn_frames::{ListingError, frame_lines};
use kn_io::{Blob, NoMemory};
use kn_packet::{PacketRef, view};
use kn_route::{Links, ListingFault, read_links, show_choice};
use std::alloc::Global;

/// What a command makes of its input.
#[derive(Drop)]
pub(crate) enum Outcome {
    /// What is to be written.
    Output(Blob),
    /// The input breaks its grammar: what is told of it.
    Refused(Blob),
    /// The input is a script of more lines than the limit.
    TooLong,
    NoMemory,
}

/// What the command makes of the bytes.
pub(crate) fn make_outcome(alloc: Global, command: Command, bytes: &[u8]) -> Outcome
    ensures { ComesOf command bytes.now result }
{
    match command {
        Command::Replay(strategies) => replay(alloc, strategies, bytes),
        Command::Show => show(alloc, bytes),
        Command::Frames => list_frames(alloc, bytes),
        Command::Route(question) => route(alloc, &question, bytes),
    }
}

/// The text is to be written, if there was memory for it.
pub(crate) fn written(text: Result<Blob, NoMemory>) -> Outcome
    ensures { IsWritten text result }
{
    match text {
        Ok(text) => Outcome::Output(text),
        Err(_) => Outcome::NoMemory,
    }
}

/// The input is refused with this message, if there was memory for it.
pub(crate) fn refused(message: Result<Blob, NoMemory>) -> Outcome
    ensures { IsRefused message result }
{
    match message {
        Ok(message) => Outcome::Refused(message),
        Err(_) => Outcome::NoMemory,
    }
}

/// What becomes of a packet's bytes.
fn show(alloc: Global, bytes: &[u8]) -> Outcome
    ensures { ComesOf Command.Show bytes.now result }
{
    match view(bytes) {
        Ok(packet) => written(packet_line(alloc, &packet)),
        Err(fault) => refused(offset_fault(alloc, fault.place as u64, fault.reason.as_str())),
    }
}

/// The packet's line and a line feed.
fn packet_line(alloc: Global, packet: &PacketRef<'_>) -> Result<Blob, NoMemory>
    ensures { IfOk result (λ text. text ≡ line_of (message packet.now) ++ 10 ∷ []) }
{
    let line = kn_packet::show(alloc, packet)?;
    let mut text = Blob::of(alloc, line.as_str().as_bytes())?;
    text.append(b"\n")?;
    Ok(text)
}

/// What becomes of bytes of HTTP/2.
fn list_frames(alloc: Global, bytes: &[u8]) -> Outcome
    ensures { ComesOf Command.Frames bytes.now result }
{
    match frame_lines(alloc, bytes) {
        Ok(lines) => Outcome::Output(lines),
        Err(ListingError::NoMemory) => Outcome::NoMemory,
        Err(ListingError::Fault(fault)) => {
            refused(offset_fault(alloc, fault.offset, fault.reason.text()))
        }
    }
}

/// What becomes of a listing of links.
fn route(alloc: Global, question: &Question, bytes: &[u8]) -> Outcome
    ensures { ComesOf (Command.Route question.now) bytes.now result }
{
    match read_links(alloc, bytes) {
        Ok(links) => written(route_line(alloc, question, &links)),
        Err(ListingFault::NoMemory) => Outcome::NoMemory,
        Err(ListingFault::Line(number)) => { refused(line_fault(alloc, number, "bad identifiers")) }
    }
}

/// The line of the choice among these links.
fn route_line(alloc: Global, question: &Question, links: &Links) -> Result<Blob, NoMemory>
    ensures { IfOk result (λ text. text ≡ choice_line question.now links.now.links) }
{
    let choice = links.pick(&question.strategies, question.host.as_str(), question.dial);
    let line = show_choice(alloc, &choice)?;
    Blob::of(alloc, line.as_str().as_bytes())
}
