// Which agent a dial goes to: identifiers of agents, hosts, addresses and strategies as texts, the links
// that are up, and the choice among them.
#![tactic(auto)]

mod address;
mod choice;
mod cut;
mod host;
mod id_kind;
mod identifiers;
mod laws;
mod link;
mod links;
mod listing;
mod marks;
mod meaning;
mod pair;
mod strategies;
mod strategy;
#[cfg(test)]
mod tests;

pub use address::{Address, Range, address_of, range_of};
pub use host::{ADDRESS_LIMIT, HostFault, host_of};
pub use id_kind::IdKind;
pub use identifiers::{IDENTIFIERS_LIMIT, IdFault, Identifiers};
pub use laws::{
    addresses_as_spelled, fits_by_table, hosts_as_spelled, identifiers_as_spelled,
    listings_by_lines, picks_by_strategy, ranges_as_spelled, strategies_as_spelled,
};
pub use links::Links;
pub use listing::{ListingFault, read_links, show_choice};
pub use marks::Marks;
pub use strategies::{Strategies, StrategyFault};
pub use strategy::Strategy;
