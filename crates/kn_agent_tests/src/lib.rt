// Tests of an agent over bytes, by public calls alone.
#![tactic(auto)]

#[cfg(test)]
mod rows;
