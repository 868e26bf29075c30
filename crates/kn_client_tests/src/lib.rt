// Tests of a client over bytes, by public calls alone.
#![tactic(auto)]

#[cfg(test)]
mod rows;
