ghost use Rattle.std.specs.Prelude.{◌≡◌, ◌<◌, ◌++◌, ◌∷◌, [], length, slice_get, OnOk, MatchResult};
ghost use Rattle.kn_route.specs.Strategies as spec;
ghost use Rattle.kn_route.specs.Steps.{steps};
ghost use Rattle.kn_route.specs.Cuts.{parts_of};

use crate::cut::first_part;
use crate::strategy::Strategy;
use kn_io::NoMemory;
use std::alloc::Global;
use std::marker::Model;

/// Why a text is no list of strategies. Places are counted from 1, and the first bad name is told.
#[derive(Clone, Copy, Debug, PartialEq, Eq)]
pub enum StrategyFault {
    NoMemory,
    /// The text is empty.
    Empty,
    /// The name at this place is none of the three.
    Unknown { place: usize },
    /// The name at this place stood before.
    Repeat { place: usize },
}

impl From<NoMemory> for StrategyFault {
    ghost use Rattle.std.specs.Prelude.{◌≡◌};
    ghost use Rattle.kn_route.specs.declared.strategies.StrategyFault.TheVariants as Fault;

    ghost from_gives = { λ _ fault. fault ≡ Fault.NoMemory };

    fn from(_error: NoMemory) -> StrategyFault {
        StrategyFault::NoMemory
    }
}

/// Strategies in their order, each at most once. Contracts see the list.
#[derive(Drop)]
pub struct Strategies {
    list: Vec<Strategy>,
}

impl Model for Strategies {
    ghost use Rattle.std.specs.Prelude.{List};
    ghost use Rattle.kn_route.specs.declared.strategy.Strategy.{Strategy};

    ghost Value = { List Strategy };

    ghost view = { λ s. s.list.items };
}

fn stands_in(list: &[Strategy], strategy: &Strategy) -> bool
    ensures { result ≡ spec.stands_in list.now strategy.now }
{
    list.iter().any(|s| s.is_same(strategy))
}

// The strategy of the name that stands after the list, or its fault.
fn next_strategy(list: &[Strategy], name: &[u8]) -> Result<Strategy, StrategyFault>
    ensures { MatchResult result
        (λ s. spec.with_name list.now name.now ≡ Ok (list.now ++ s ∷ []))
        (λ fault. spec.with_name list.now name.now ≡ Err fault) }
{
    match Strategy::named(name) {
        None => Err(StrategyFault::Unknown {
            place: list.len() + 1,
        }),
        Some(strategy) => {
            if stands_in(list, &strategy) {
                Err(StrategyFault::Repeat {
                    place: list.len() + 1,
                })
            } else {
                Ok(strategy)
            }
        }
    }
}

fn read_names(alloc: Global, text: &[u8]) -> Result<Strategies, StrategyFault>
    ensures { spec.IsStrategiesAnswer (steps spec.with_name [] (parts_of 44 text.now)) result }
{
    let mut strategies = Strategies::new(alloc);
    let mut rest = Some(text);
    while let Some(names) = rest {
        let (name, after) = first_part(names, b',');
        let strategy = next_strategy(strategies.as_slice(), name)?;
        strategies.push(strategy)?;
        rest = after;
    }
    Ok(strategies)
}

impl Strategies {
    fn new(alloc: Global) -> Strategies
        ensures { result ≡ [] }
    {
        Strategies {
            list: Vec::new(alloc),
        }
    }

    fn push(&mut self, strategy: Strategy) -> Result<(), NoMemory>
        ensures { OnOk result (self.new ≡ self.old ++ strategy ∷ []) }
    {
        self.list.push(strategy)?;
        Ok(())
    }

    /// Reads names with commas between them, as `destHost,default`.
    #[tactic(auto, unfolding(crate::specs::Strategies::strategies_in))]
    pub fn read(alloc: Global, text: &str) -> Result<Strategies, StrategyFault>
        ensures { spec.IsStrategiesAnswer (spec.strategies_in text.now) result }
    {
        if text.is_empty() {
            return Err(StrategyFault::Empty);
        }
        read_names(alloc, text.as_bytes())
    }

    /// How many strategies there are.
    pub fn len(&self) -> usize
        ensures { result ≡ length self.now }
    {
        self.list.len()
    }

    /// The strategy at an index, counted from 0.
    pub fn at(&self, index: usize) -> Strategy
        requires { index < length self.now }
        ensures { slice_get self.now index ≡ Some result }
    {
        self.list[index]
    }

    /// The strategies in their order.
    pub fn as_slice(&self) -> &[Strategy]
        ensures { result.now ≡ self.now }
    {
        self.list.as_slice()
    }
}
