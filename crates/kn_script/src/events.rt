ghost use Rattle.std.specs.Prelude.{◌≡◌, IfOk, true};
ghost use Rattle.kn_script.specs.Lines.{pieces_of};
ghost use Rattle.kn_script.specs.Pieces.{pieces_left};
ghost use Rattle.kn_script.specs.Script.{one_word_event, two_word_event, three_word_event, with_one, with_two, with_three, pass_of, event_of, event_of_pieces, line_event, is_remark, within_limits, has_room};
ghost use Rattle.kn_script.specs.declared.verbs.Verb.TheVariants as verb;
ghost use Rattle.kn_script.specs.Answers.{may_add, IsWithin, LineGives};

use crate::fault::{LineError, ScriptReason};
use crate::made::{DEFAULT_ROUNDS, Made};
use crate::more_words::{three_word_event, two_word_event};
use crate::numbers::round_count;
use crate::one_word::one_word_event;
use crate::verbs::{OneWordVerb, ThreeWordVerb, TwoWordVerb, Verb, verb_of};
use crate::words::{cut, no_word, one_word, text_of, three_words, two_words};
use kn_world::WorldEvent;
use std::alloc::Global;

fn client(made: Made, left: Option<&str>) -> Result<WorldEvent, LineError>
    ensures { LineGives (event_of made verb.Client (pieces_left left.entry)) result }
{
    if no_word(left) {
        Ok(WorldEvent::Client)
    } else {
        Err(LineError::Fault(ScriptReason::Count))
    }
}

fn pass(word: &str) -> Result<WorldEvent, LineError>
    ensures { LineGives (pass_of word.now) result }
{
    match round_count(word) {
        Err(reason) => Err(LineError::Fault(reason)),
        Ok(rounds) => Ok(WorldEvent::Pass { rounds }),
    }
}

fn pass_words(made: Made, left: Option<&str>) -> Result<WorldEvent, LineError>
    ensures { LineGives (event_of made verb.Pass (pieces_left left.entry)) result }
{
    if no_word(left) {
        Ok(WorldEvent::Pass {
            rounds: DEFAULT_ROUNDS,
        })
    } else {
        match one_word(left) {
            None => Err(LineError::Fault(ScriptReason::Count)),
            Some(word) => pass(word),
        }
    }
}

fn with_one(
    alloc: Global,
    made: Made,
    verb: OneWordVerb,
    left: Option<&str>,
) -> Result<WorldEvent, LineError>
    requires { IsWithin made }
    ensures { LineGives (with_one (one_word_event made verb) (pieces_left left.entry)) result }
{
    match one_word(left) {
        None => Err(LineError::Fault(ScriptReason::Count)),
        Some(word) => one_word_event(alloc, made, verb, word),
    }
}

fn with_two(
    alloc: Global,
    made: Made,
    verb: TwoWordVerb,
    left: Option<&str>,
) -> Result<WorldEvent, LineError>
    requires { IsWithin made }
    ensures { LineGives (with_two (two_word_event made verb) (pieces_left left.entry)) result }
{
    match two_words(left) {
        None => Err(LineError::Fault(ScriptReason::Count)),
        Some((first, second)) => two_word_event(alloc, made, verb, first, second),
    }
}

fn with_three(made: Made, verb: ThreeWordVerb, left: Option<&str>) -> Result<WorldEvent, LineError>
    requires { IsWithin made }
    ensures { LineGives (with_three (three_word_event made verb) (pieces_left left.entry)) result }
{
    match three_words(left) {
        None => Err(LineError::Fault(ScriptReason::Count)),
        Some(words) => three_word_event(made, verb, words),
    }
}

/// The event of a verb and what is left of its line.
fn event_of(
    alloc: Global,
    made: Made,
    verb: Verb,
    left: Option<&str>,
) -> Result<WorldEvent, LineError>
    requires { IsWithin made }
    ensures { LineGives (event_of made verb (pieces_left left.entry)) result }
{
    match verb {
        Verb::Client => client(made, left),
        Verb::Pass => pass_words(made, left),
        Verb::OneWord(verb) => with_one(alloc, made, verb, left),
        Verb::TwoWord(verb) => with_two(alloc, made, verb, left),
        Verb::ThreeWord(verb) => with_three(made, verb, left),
    }
}

fn within_limits(made: Made, event: WorldEvent) -> Result<WorldEvent, LineError>
    ensures value { LineGives (within_limits made event) result }
    ensures room { IfOk result (λ kept. has_room made kept ≡ true) }
{
    if made.has_room(&event) {
        Ok(event)
    } else {
        Err(LineError::Fault(ScriptReason::Limit))
    }
}

fn event_of_words(alloc: Global, made: Made, line: &str) -> Result<WorldEvent, LineError>
    requires { IsWithin made }
    ensures value { LineGives (event_of_pieces made (pieces_of line.now)) result }
    ensures room { IfOk result (λ event. has_room made event ≡ true) }
{
    let (first, left) = cut(line);
    match verb_of(first) {
        None => Err(LineError::Fault(ScriptReason::Word)),
        Some(verb) => {
            match event_of(alloc, made, verb, left) {
                Err(error) => Err(error),
                Ok(event) => within_limits(made, event),
            }
        }
    }
}

fn is_remark(line: &[u8]) -> bool
    ensures { result ≡ is_remark line.now }
{
    match line {
        [] => true,
        [first, ..] => *first == b'#',
    }
}

/// The event of a line, if it has one.
pub fn line_event(alloc: Global, made: Made, line: &[u8]) -> Result<Option<WorldEvent>, LineError>
    requires { IsWithin made }
    ensures value { LineGives (line_event made line.now) result }
    ensures room { IfOk result (λ found. may_add made found ≡ true) }
{
    match text_of(line) {
        None => Err(LineError::Fault(ScriptReason::Byte)),
        Some(text) => {
            if is_remark(line) {
                Ok(None)
            } else {
                match event_of_words(alloc, made, text) {
                    Err(error) => Err(error),
                    Ok(event) => Ok(Some(event)),
                }
            }
        }
    }
}
