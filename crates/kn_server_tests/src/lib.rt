// Tests of a server over bytes, by public calls alone.
#![tactic(auto)]

#[cfg(test)]
mod limits;
#[cfg(test)]
mod queues;
#[cfg(test)]
mod rows;
