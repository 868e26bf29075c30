// The events of verbs that two or three words follow.
ghost use Rattle.kn_world.specs.declared.event.WorldEvent.TheVariants as event;
ghost use Rattle.kn_script.specs.Script.{two_word_event, three_word_event, with_named, with_dial, send_of, answer_of, take_app_of, take_dest_of, step_of};
ghost use Rattle.kn_script.specs.declared.verbs.ThreeWordVerb.TheVariants as three;
ghost use Rattle.kn_script.specs.declared.verbs.TwoWordVerb.TheVariants as two;
ghost use Rattle.kn_script.specs.Answers.{IsWithin, LineGives};

use crate::fault::{LineError, ScriptReason};
use crate::hexadecimal::hex_bytes;
use crate::identifiers::text_of;
use crate::made::Made;
use crate::numbers::{dial_number, named, peer_number, taken_count};
use crate::places::{End, Peer, Side, direction_of, end_of, peer_of, pipe_of, side_of};
use crate::verbs::{ThreeWordVerb, TwoWordVerb};
use crate::words::Three;
use kn_world::WorldEvent;
use std::alloc::Global;

fn app(alloc: Global, made: Made, client: &str, address: &str) -> Result<WorldEvent, LineError>
    requires { IsWithin made }
    ensures { LineGives (two_word_event made two.App client.now address.now) result }
{
    match named(made.clients, client) {
        Err(reason) => Err(LineError::Fault(reason)),
        Ok(client) => {
            match text_of(alloc, address) {
                Err(error) => Err(error),
                Ok(address) => Ok(WorldEvent::App { client, address }),
            }
        }
    }
}

fn send(alloc: Global, made: Made, app: &str, digits: &str) -> Result<WorldEvent, LineError>
    requires { IsWithin made }
    ensures { LineGives (send_of made app.now digits.now) result }
{
    match named(made.apps, app) {
        Err(reason) => Err(LineError::Fault(reason)),
        Ok(app) => {
            match hex_bytes(alloc, digits) {
                Err(error) => Err(error),
                Ok(bytes) => Ok(WorldEvent::Send { app, bytes }),
            }
        }
    }
}

fn answer(alloc: Global, dial: &str, digits: &str) -> Result<WorldEvent, LineError>
    ensures { LineGives (answer_of dial.now digits.now) result }
{
    match dial_number(dial) {
        Err(reason) => Err(LineError::Fault(reason)),
        Ok(dial) => {
            match hex_bytes(alloc, digits) {
                Err(error) => Err(error),
                Ok(bytes) => Ok(WorldEvent::Answer { dial, bytes }),
            }
        }
    }
}

fn hold_app(made: Made, word: &str) -> Result<WorldEvent, LineError>
    requires { IsWithin made }
    ensures { LineGives (with_named event.HoldApp made.apps word.now) result }
{
    match named(made.apps, word) {
        Err(reason) => Err(LineError::Fault(reason)),
        Ok(app) => Ok(WorldEvent::HoldApp { app }),
    }
}

fn hold_dest(word: &str) -> Result<WorldEvent, LineError>
    ensures { LineGives (with_dial event.HoldDest word.now) result }
{
    match dial_number(word) {
        Err(reason) => Err(LineError::Fault(reason)),
        Ok(dial) => Ok(WorldEvent::HoldDest { dial }),
    }
}

fn hold(made: Made, side: &str, number: &str) -> Result<WorldEvent, LineError>
    requires { IsWithin made }
    ensures { LineGives (two_word_event made two.Hold side.now number.now) result }
{
    match side_of(side) {
        None => Err(LineError::Fault(ScriptReason::Word)),
        Some(Side::App) => hold_app(made, number),
        Some(Side::Dest) => hold_dest(number),
    }
}

fn go_app(made: Made, word: &str) -> Result<WorldEvent, LineError>
    requires { IsWithin made }
    ensures { LineGives (with_named event.GoApp made.apps word.now) result }
{
    match named(made.apps, word) {
        Err(reason) => Err(LineError::Fault(reason)),
        Ok(app) => Ok(WorldEvent::GoApp { app }),
    }
}

fn go_dest(word: &str) -> Result<WorldEvent, LineError>
    ensures { LineGives (with_dial event.GoDest word.now) result }
{
    match dial_number(word) {
        Err(reason) => Err(LineError::Fault(reason)),
        Ok(dial) => Ok(WorldEvent::GoDest { dial }),
    }
}

fn go(made: Made, side: &str, number: &str) -> Result<WorldEvent, LineError>
    requires { IsWithin made }
    ensures { LineGives (two_word_event made two.Go side.now number.now) result }
{
    match side_of(side) {
        None => Err(LineError::Fault(ScriptReason::Word)),
        Some(Side::App) => go_app(made, number),
        Some(Side::Dest) => go_dest(number),
    }
}

fn lose_server(made: Made, word: &str) -> Result<WorldEvent, LineError>
    requires { IsWithin made }
    ensures { LineGives (with_named event.LoseServer made.agents word.now) result }
{
    match named(made.agents, word) {
        Err(reason) => Err(LineError::Fault(reason)),
        Ok(agent) => Ok(WorldEvent::LoseServer { agent }),
    }
}

fn lose_agent(made: Made, word: &str) -> Result<WorldEvent, LineError>
    requires { IsWithin made }
    ensures { LineGives (with_named event.LoseAgent made.agents word.now) result }
{
    match named(made.agents, word) {
        Err(reason) => Err(LineError::Fault(reason)),
        Ok(agent) => Ok(WorldEvent::LoseAgent { agent }),
    }
}

fn lose_front(made: Made, word: &str) -> Result<WorldEvent, LineError>
    requires { IsWithin made }
    ensures { LineGives (with_named event.LoseFront made.clients word.now) result }
{
    match named(made.clients, word) {
        Err(reason) => Err(LineError::Fault(reason)),
        Ok(client) => Ok(WorldEvent::LoseFront { client }),
    }
}

fn lose_client(made: Made, word: &str) -> Result<WorldEvent, LineError>
    requires { IsWithin made }
    ensures { LineGives (with_named event.LoseClient made.clients word.now) result }
{
    match named(made.clients, word) {
        Err(reason) => Err(LineError::Fault(reason)),
        Ok(client) => Ok(WorldEvent::LoseClient { client }),
    }
}

fn lose(made: Made, end: &str, number: &str) -> Result<WorldEvent, LineError>
    requires { IsWithin made }
    ensures { LineGives (two_word_event made two.Lose end.now number.now) result }
{
    match end_of(end) {
        None => Err(LineError::Fault(ScriptReason::Word)),
        Some(End::Server) => lose_server(made, number),
        Some(End::Agent) => lose_agent(made, number),
        Some(End::Front) => lose_front(made, number),
        Some(End::Client) => lose_client(made, number),
    }
}

/// The event of a verb and its two words.
pub fn two_word_event(
    alloc: Global,
    made: Made,
    verb: TwoWordVerb,
    first: &str,
    second: &str,
) -> Result<WorldEvent, LineError>
    requires { IsWithin made }
    ensures { LineGives (two_word_event made verb first.now second.now) result }
{
    match verb {
        TwoWordVerb::App => app(alloc, made, first, second),
        TwoWordVerb::Send => send(alloc, made, first, second),
        TwoWordVerb::Answer => answer(alloc, first, second),
        TwoWordVerb::Hold => hold(made, first, second),
        TwoWordVerb::Go => go(made, first, second),
        TwoWordVerb::Lose => lose(made, first, second),
    }
}

fn take_app(made: Made, word: &str, count: &str) -> Result<WorldEvent, LineError>
    requires { IsWithin made }
    ensures { LineGives (take_app_of made word.now count.now) result }
{
    match named(made.apps, word) {
        Err(reason) => Err(LineError::Fault(reason)),
        Ok(app) => {
            match taken_count(count) {
                Err(reason) => Err(LineError::Fault(reason)),
                Ok(count) => Ok(WorldEvent::TakeApp { app, count }),
            }
        }
    }
}

fn take_dest(made: Made, word: &str, count: &str) -> Result<WorldEvent, LineError>
    ensures { LineGives (take_dest_of word.now count.now) result }
{
    match dial_number(word) {
        Err(reason) => Err(LineError::Fault(reason)),
        Ok(dial) => {
            match taken_count(count) {
                Err(reason) => Err(LineError::Fault(reason)),
                Ok(count) => Ok(WorldEvent::TakeDest { dial, count }),
            }
        }
    }
}

fn take(made: Made, words: Three<'_>) -> Result<WorldEvent, LineError>
    requires { IsWithin made }
    ensures { LineGives (three_word_event made three.Take words.entry.first.now words.entry.second.now words.entry.third.now) result }
{
    match side_of(words.first) {
        None => Err(LineError::Fault(ScriptReason::Word)),
        Some(Side::App) => take_app(made, words.second, words.third),
        Some(Side::Dest) => take_dest(made, words.second, words.third),
    }
}

fn step_of(made: Made, peer: Peer, number: &str, way: &str) -> Result<WorldEvent, LineError>
    requires { IsWithin made }
    ensures { LineGives (step_of made number.now way.now peer) result }
{
    match peer_number(made, peer, number) {
        Err(reason) => Err(LineError::Fault(reason)),
        Ok(number) => {
            match direction_of(way) {
                None => Err(LineError::Fault(ScriptReason::Word)),
                Some(direction) => Ok(WorldEvent::Step {
                    pipe: pipe_of(peer, direction, number),
                }),
            }
        }
    }
}

fn step(made: Made, words: Three<'_>) -> Result<WorldEvent, LineError>
    requires { IsWithin made }
    ensures { LineGives (three_word_event made three.Step words.entry.first.now words.entry.second.now words.entry.third.now) result }
{
    match peer_of(words.first) {
        None => Err(LineError::Fault(ScriptReason::Word)),
        Some(peer) => step_of(made, peer, words.second, words.third),
    }
}

/// The event of a verb and its three words.
pub fn three_word_event(
    made: Made,
    verb: ThreeWordVerb,
    words: Three<'_>,
) -> Result<WorldEvent, LineError>
    requires { IsWithin made }
    ensures { LineGives (three_word_event made verb words.entry.first.now words.entry.second.now words.entry.third.now) result }
{
    match verb {
        ThreeWordVerb::Take => take(made, words),
        ThreeWordVerb::Step => step(made, words),
    }
}
