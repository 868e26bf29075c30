// The events of verbs that one word follows.
ghost use Rattle.std.specs.Prelude.{Ok};
ghost use Rattle.kn_world.specs.declared.event.WorldEvent.TheVariants as event;
ghost use Rattle.kn_script.specs.Script.{one_word_event, agent_of, with_dial, with_named, with_bytes};
ghost use Rattle.kn_script.specs.Answers.{IsWithin, LineGives};

use crate::fault::LineError;
use crate::hexadecimal::hex_bytes;
use crate::identifiers::{identifiers_of, text_of};
use crate::made::Made;
use crate::numbers::{dial_number, named};
use crate::verbs::OneWordVerb;
use kn_world::WorldEvent;
use std::alloc::Global;

fn agent(alloc: Global, word: &str) -> Result<WorldEvent, LineError>
    ensures { LineGives (agent_of word.now) result }
{
    match identifiers_of(alloc, word) {
        Err(error) => Err(error),
        Ok(identifiers) => Ok(WorldEvent::Agent { identifiers }),
    }
}

fn connect(alloc: Global, word: &str) -> Result<WorldEvent, LineError>
    ensures { LineGives (Ok (event.Connect word.now)) result }
{
    match text_of(alloc, word) {
        Err(error) => Err(error),
        Ok(address) => Ok(WorldEvent::Connect { address }),
    }
}

fn raw(alloc: Global, digits: &str) -> Result<WorldEvent, LineError>
    ensures { LineGives (with_bytes event.Raw digits.now) result }
{
    match hex_bytes(alloc, digits) {
        Err(error) => Err(error),
        Ok(bytes) => Ok(WorldEvent::Raw { bytes }),
    }
}

fn up(word: &str) -> Result<WorldEvent, LineError>
    ensures { LineGives (with_dial event.Up word.now) result }
{
    match dial_number(word) {
        Err(reason) => Err(LineError::Fault(reason)),
        Ok(dial) => Ok(WorldEvent::Up { dial }),
    }
}

fn refuse(word: &str) -> Result<WorldEvent, LineError>
    ensures { LineGives (with_dial event.Refuse word.now) result }
{
    match dial_number(word) {
        Err(reason) => Err(LineError::Fault(reason)),
        Ok(dial) => Ok(WorldEvent::Refuse { dial }),
    }
}

fn hang(word: &str) -> Result<WorldEvent, LineError>
    ensures { LineGives (with_dial event.Hang word.now) result }
{
    match dial_number(word) {
        Err(reason) => Err(LineError::Fault(reason)),
        Ok(dial) => Ok(WorldEvent::Hang { dial }),
    }
}

fn fail(word: &str) -> Result<WorldEvent, LineError>
    ensures { LineGives (with_dial event.Fail word.now) result }
{
    match dial_number(word) {
        Err(reason) => Err(LineError::Fault(reason)),
        Ok(dial) => Ok(WorldEvent::Fail { dial }),
    }
}

fn end(made: Made, word: &str) -> Result<WorldEvent, LineError>
    requires { IsWithin made }
    ensures { LineGives (with_named event.End made.apps word.now) result }
{
    match named(made.apps, word) {
        Err(reason) => Err(LineError::Fault(reason)),
        Ok(app) => Ok(WorldEvent::End { app }),
    }
}

fn drain(made: Made, word: &str) -> Result<WorldEvent, LineError>
    requires { IsWithin made }
    ensures { LineGives (with_named event.Drain made.agents word.now) result }
{
    match named(made.agents, word) {
        Err(reason) => Err(LineError::Fault(reason)),
        Ok(agent) => Ok(WorldEvent::Drain { agent }),
    }
}

/// The event of a verb and its word.
pub fn one_word_event(
    alloc: Global,
    made: Made,
    verb: OneWordVerb,
    word: &str,
) -> Result<WorldEvent, LineError>
    requires { IsWithin made }
    ensures { LineGives (one_word_event made verb word.now) result }
{
    match verb {
        OneWordVerb::Agent => agent(alloc, word),
        OneWordVerb::Connect => connect(alloc, word),
        OneWordVerb::Raw => raw(alloc, word),
        OneWordVerb::Up => up(word),
        OneWordVerb::Refuse => refuse(word),
        OneWordVerb::End => end(made, word),
        OneWordVerb::Hang => hang(word),
        OneWordVerb::Fail => fail(word),
        OneWordVerb::Drain => drain(made, word),
    }
}
