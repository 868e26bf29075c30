ghost use Rattle.std.specs.Prelude.{◌≡◌, ◌++◌, true, Ok, IfOk, IfErr, OnOk};
ghost use Rattle.std.specs.Option.{option_to_list};
ghost use Rattle.kn_script.specs.Script.{script_of};
ghost use Rattle.kn_script.specs.Answers.{made_with, may_add, IsWithin, IsFaultOf, IsFaultAt};

use crate::events::line_event;
use crate::fault::{LineError, ScriptError, ScriptFault};
use crate::lines::next_line;
use crate::made::Made;
use kn_io::NoMemory;
use kn_world::WorldEvent;
use std::alloc::Global;

/// The events so far, and what they made.
#[derive(Drop)]
struct Reader {
    events: Vec<WorldEvent>,
    made: Made,
}

impl Reader {
    fn add(&mut self, found: Option<WorldEvent>) -> Result<(), NoMemory>
        requires within { IsWithin self.old.made }
        requires room { may_add self.old.made found ≡ true }
        ensures events { OnOk result (self.new.events.items ≡ self.old.events.items ++ option_to_list found) }
        ensures made { OnOk result (self.new.made ≡ made_with found self.old.made) }
        ensures within { OnOk result (IsWithin self.new.made) }
    {
        match found {
            None => Ok(()),
            Some(event) => {
                self.made = self.made.and(&event);
                self.events.push(event)?;
                Ok(())
            }
        }
    }
}

fn fault_at(line: usize, error: LineError) -> ScriptError
    ensures { IsFaultAt line error result }
{
    match error {
        LineError::NoMemory => ScriptError::NoMemory,
        LineError::Fault(reason) => ScriptError::Fault(ScriptFault { line, reason }),
    }
}

/// Reads a script: lines that end with a line feed, which the last may lack, each of them empty, a comment that
/// begins with `#`, or an event. The first line that is none of these is the fault. It takes time linear in
/// the bytes.
pub fn read_script(alloc: Global, bytes: &[u8]) -> Result<Vec<WorldEvent>, ScriptError>
    ensures events { IfOk result (λ events. script_of bytes.now ≡ Ok events.items) }
    ensures fault { IfErr result (λ error. IsFaultOf (script_of bytes.now) error) }
{
    let mut reader = Reader {
        events: Vec::new(alloc),
        made: Made::nothing(),
    };
    let mut rest = bytes;
    let mut number = 0;
    while !rest.is_empty() {
        let (line, after) = next_line(rest);
        number += 1;
        let found = match line_event(alloc, reader.made, line) {
            Err(error) => return Err(fault_at(number, error)),
            Ok(found) => found,
        };
        match reader.add(found) {
            Err(_) => return Err(ScriptError::NoMemory),
            Ok(()) => {}
        }
        rest = after;
    }
    Ok(reader.events)
}

#[cfg(test)]
mod tests;
