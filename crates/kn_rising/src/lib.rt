// Members by number, found by halves; and numbers of those that were stirred.
#![tactic(auto)]

mod rising;
mod stirred;

pub use rising::{Rising, place_of};
pub use stirred::Stirred;

#[cfg(test)]
mod tests;
