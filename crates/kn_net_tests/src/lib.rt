// Tests of the programs that use the network, over a port in memory.
#![tactic(auto)]

#[cfg(test)]
mod rows;
