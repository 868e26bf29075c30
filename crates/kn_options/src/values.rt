ghost use Rattle.std.specs.Prelude.{◌≡◌, List, option_map, unwrap_or, Ok, IfOk, IfSome, IfNone, is_ok};
ghost use Rattle.kn_options.specs.Values as spec;
ghost use Rattle.kn_route.specs.Hosts.{host_in};
ghost use Rattle.kn_route.specs.Identifiers.{identifiers_in};
ghost use Rattle.kn_route.specs.Strategies.{strategies_in};
ghost use Rattle.kn_route.specs.declared.strategy.Strategy.{Strategy};

use crate::number::read_number;
use kn_io::{NoMemory, Text};
use kn_route::{IdFault, Identifiers, Strategies, StrategyFault, host_of};
use std::alloc::Global;

/// The most bytes that the name of a server or an agent has.
const ID_LIMIT: usize = 1_024;

/// The value, or what stands for it where it was left out.
pub(crate) fn text_or<'a>(value: Option<&'a str>, own: &'a str) -> &'a str
    ensures { result.now ≡ unwrap_or (option_map (λ text. text.now) value.entry) own.now }
{
    match value {
        Some(text) => text,
        None => own,
    }
}

/// A copy of the value, where it was given.
pub(crate) fn copy_of(alloc: Global, value: Option<&str>) -> Result<Option<Text>, NoMemory>
    ensures { IfOk result (λ copy. copy ≡ option_map (λ text. text.now) value.entry) }
{
    match value {
        Some(text) => Ok(Some(Text::of(alloc, text)?)),
        None => Ok(None),
    }
}

/// The number of an option: 0 where it was left out, and none where its value is no number.
pub(crate) fn number_or_zero(value: Option<&str>) -> Option<u64>
    ensures { result ≡ spec.number_or_zero (option_map (λ text. text.now) value.entry) }
{
    match value {
        Some(word) => read_number(word),
        None => Some(0),
    }
}

/// Whether a name is within the limit.
pub(crate) fn is_id(text: &str) -> bool
    ensures { result ≡ spec.is_id text.now }
{
    text.len() <= ID_LIMIT
}

/// Whether an address has a host and a port.
pub(crate) fn has_host(address: &str) -> bool
    ensures { result ≡ is_ok (host_in address.now) }
{
    host_of(address).is_ok()
}

/// The strategies of a list, or none where it is out of form.
pub(crate) fn strategies_of(alloc: Global, list: &str) -> Result<Option<Strategies>, NoMemory>
    ensures found { IfOk result (λ found. IfSome found (λ strategies. strategies_in list.now ≡ Ok strategies)) }
    ensures none { IfOk result (λ found. IfNone found ((strategies : List Strategy) → ¬ (strategies_in list.now ≡ Ok strategies))) }
{
    match Strategies::read(alloc, list) {
        Ok(strategies) => Ok(Some(strategies)),
        Err(StrategyFault::NoMemory) => Err(NoMemory),
        Err(StrategyFault::Empty) => Ok(None),
        Err(StrategyFault::Unknown { place: _ }) => Ok(None),
        Err(StrategyFault::Repeat { place: _ }) => Ok(None),
    }
}

/// Whether a text of identifiers can be read.
pub(crate) fn has_identifiers(alloc: Global, text: &str) -> Result<bool, NoMemory>
    ensures { IfOk result (λ can. can ≡ is_ok (identifiers_in text.now)) }
{
    match Identifiers::read(alloc, text) {
        Ok(_) => Ok(true),
        Err(IdFault::NoMemory) => Err(NoMemory),
        Err(IdFault::TooLong) => Ok(false),
        Err(IdFault::Kind { pair: _ }) => Ok(false),
    }
}
