ghost use Rattle.std.specs.Prelude.{Ok};
ghost use Rattle.kn_script.specs.Script.{identifiers_of, readable};
ghost use Rattle.kn_script.specs.Answers.{LineGives};

use crate::fault::{LineError, ScriptReason};
use kn_io::Text;
use kn_route::{IdFault, Identifiers};
use std::alloc::Global;

/// The identifiers of an agent, which can be read; a dash stands for none.
pub fn identifiers_of(alloc: Global, word: &str) -> Result<Text, LineError>
    ensures { LineGives (identifiers_of word.now) result }
{
    if word == "-" {
        Ok(Text::new(alloc))
    } else {
        readable(alloc, word)
    }
}

fn readable(alloc: Global, word: &str) -> Result<Text, LineError>
    ensures { LineGives (readable word.now) result }
{
    match Identifiers::read(alloc, word) {
        Ok(_) => text_of(alloc, word),
        Err(IdFault::NoMemory) => Err(LineError::NoMemory),
        Err(IdFault::TooLong) => Err(LineError::Fault(ScriptReason::Identifiers)),
        Err(IdFault::Kind { pair: _ }) => Err(LineError::Fault(ScriptReason::Identifiers)),
    }
}

/// A word, owned.
pub fn text_of(alloc: Global, word: &str) -> Result<Text, LineError>
    ensures { LineGives (Ok word.now) result }
{
    match Text::of(alloc, word) {
        Ok(text) => Ok(text),
        Err(_) => Err(LineError::NoMemory),
    }
}
