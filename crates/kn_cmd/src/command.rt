ghost use Rattle.std.specs.Prelude.{◌≡◌, ◌↔◌, [], ◌∷◌, IfOk, IfSome, IfNone, IsTrue, map};
ghost use Rattle.kn_cmd.specs.Command.{Asks};
ghost use Rattle.kn_cmd.specs.declared.command.Command.{Command};

use crate::question::{Question, read_question, read_strategies};
use kn_io::NoMemory;
use kn_route::Strategies;
use std::alloc::Global;

/// What the words of a plain command ask for.
#[derive(Drop)]
pub enum Command {
    /// `replay LIST`: a script is applied to a world whose server chooses agents by these strategies, and the
    /// world is reported.
    Replay(Strategies),
    /// `show`: a packet's bytes become its line.
    Show,
    /// `frames`: bytes of HTTP/2 become a line for each frame.
    Frames,
    /// `route LIST ADDRESS D`: of the links in a listing one is chosen for a dial.
    Route(Question),
}

/// The command that the words ask for, without the program's name, or none.
pub(crate) fn command_of(alloc: Global, words: &[&str]) -> Result<Option<Command>, NoMemory>
    ensures found { IfOk result (λ found. IfSome found (Asks (map (λ word. word.now) words.now))) }
    ensures none { IfOk result (λ found. IfNone found ((command : Command) → ¬ Asks (map (λ word. word.now) words.now) command)) }
{
    match words {
        [] => Ok(None),
        [first] => Ok(command_of_one(first)),
        [first, second] => command_of_two(alloc, first, second),
        [_, _, _] => Ok(None),
        [first, list, address, dial] => command_of_four(alloc, first, list, address, dial),
        [_, _, _, _, _, ..] => Ok(None),
    }
}

fn command_of_one(first: &str) -> Option<Command>
    ensures found { IfSome result (Asks (first.now ∷ [])) }
    ensures none { IfNone result ((command : Command) → ¬ Asks (first.now ∷ []) command) }
{
    if is_word(first, "show") {
        return Some(Command::Show);
    }
    if is_word(first, "frames") {
        return Some(Command::Frames);
    }
    None
}

fn command_of_two(alloc: Global, first: &str, second: &str) -> Result<Option<Command>, NoMemory>
    ensures found { IfOk result (λ found. IfSome found (Asks (first.now ∷ second.now ∷ []))) }
    ensures none { IfOk result (λ found. IfNone found ((command : Command) → ¬ Asks (first.now ∷ second.now ∷ []) command)) }
{
    if !is_word(first, "replay") {
        return Ok(None);
    }
    match read_strategies(alloc, second) {
        Err(_) => Err(NoMemory),
        Ok(None) => Ok(None),
        Ok(Some(strategies)) => Ok(Some(Command::Replay(strategies))),
    }
}

fn command_of_four(
    alloc: Global,
    first: &str,
    list: &str,
    address: &str,
    dial: &str,
) -> Result<Option<Command>, NoMemory>
    ensures found { IfOk result (λ found. IfSome found (Asks (first.now ∷ list.now ∷ address.now ∷ dial.now ∷ []))) }
    ensures none { IfOk result (λ found. IfNone found ((command : Command) → ¬ Asks (first.now ∷ list.now ∷ address.now ∷ dial.now ∷ []) command)) }
{
    if !is_word(first, "route") {
        return Ok(None);
    }
    match read_question(alloc, list, address, dial) {
        Err(_) => Err(NoMemory),
        Ok(None) => Ok(None),
        Ok(Some(question)) => Ok(Some(Command::Route(question))),
    }
}

fn is_word(word: &str, name: &str) -> bool
    ensures { IsTrue result ↔ (word.now ≡ name.now) }
{
    word == name
}
