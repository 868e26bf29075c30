ghost use Rattle.std.specs.Prelude.{◌≡◌, ℕ, ◌&&◌, nat_lt, nat_le, List, Some, None, Ok, if◌then◌else◌, IfOk, IfSome, IfNone};
ghost use Rattle.kn_cmd.specs.Question.{IsQuestion, IsDialNumber};
ghost use Rattle.kn_cmd.specs.declared.question.Question.{Question};
ghost use Rattle.kn_route.specs.Strategies.{strategies_in};
ghost use Rattle.kn_route.specs.declared.strategy.Strategy.{Strategy};
ghost use Rattle.kn_route.specs.Hosts.{host_in};

use kn_io::{NoMemory, Text};
use kn_route::{Strategies, StrategyFault, host_of};
use kn_script::read_number;
use std::alloc::Global;

/// The greatest number of a dial.
const DIAL_LIMIT: u64 = 9_223_372_036_854_775_806;

/// What `route` is asked: by which strategies, for which host and for which dial a link is chosen.
#[derive(Drop)]
pub struct Question {
    pub strategies: Strategies,
    pub host: Text,
    pub dial: u64,
}

/// The question of the three words after `route`, or none where one of them is out of form.
pub(crate) fn read_question(
    alloc: Global,
    list: &str,
    address: &str,
    dial: &str,
) -> Result<Option<Question>, NoMemory>
    ensures found { IfOk result (λ found. IfSome found (IsQuestion list.now address.now dial.now)) }
    ensures none { IfOk result (λ found. IfNone found ((question : Question) → ¬ IsQuestion list.now address.now dial.now question)) }
{
    let dial = match read_dial(dial) {
        Some(dial) => dial,
        None => return Ok(None),
    };
    let host = match host_of(address) {
        Ok(host) => host,
        Err(_) => return Ok(None),
    };
    match read_strategies(alloc, list) {
        Err(_) => Err(NoMemory),
        Ok(None) => Ok(None),
        Ok(Some(strategies)) => Ok(Some(Question {
            strategies,
            host: Text::of(alloc, host)?,
            dial,
        })),
    }
}

/// The strategies of a list, or none where it is out of form.
pub(crate) fn read_strategies(alloc: Global, list: &str) -> Result<Option<Strategies>, NoMemory>
    ensures found { IfOk result (λ found. IfSome found (λ strategies. strategies_in list.now ≡ Ok strategies)) }
    ensures none { IfOk result (λ found. IfNone found ((strategies : List Strategy) → ¬ (strategies_in list.now ≡ Ok strategies))) }
{
    match Strategies::read(alloc, list) {
        Ok(strategies) => Ok(Some(strategies)),
        Err(StrategyFault::NoMemory) => Err(NoMemory),
        Err(StrategyFault::Empty) => Ok(None),
        Err(StrategyFault::Unknown { place: _ }) => Ok(None),
        Err(StrategyFault::Repeat { place: _ }) => Ok(None),
    }
}

/// The number of a dial, from 1 to the greatest.
fn read_dial(word: &str) -> Option<u64>
    ensures found { IfSome result (IsDialNumber word.now) }
    ensures none { IfNone result ((n : ℕ) → ¬ IsDialNumber word.now n) }
{
    match read_number(word) {
        Some(number) => within_limit(number),
        None => None,
    }
}

fn within_limit(number: u64) -> Option<u64>
    ensures { result ≡ (if nat_lt 0 number && nat_le number 9223372036854775806 then Some number else None) }
{
    if 0 < number && number <= DIAL_LIMIT {
        Some(number)
    } else {
        None
    }
}
