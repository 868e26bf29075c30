// Tests of a server, an agent and a client joined in memory.
#![tactic(auto)]

#[cfg(test)]
mod joined;
#[cfg(test)]
mod peer;
#[cfg(test)]
mod side;
#[cfg(test)]
mod tunnels;
