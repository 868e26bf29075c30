// Tests of connections whose streams carry packets, over public calls alone.
#![tactic(auto)]

#[cfg(test)]
mod rows;
