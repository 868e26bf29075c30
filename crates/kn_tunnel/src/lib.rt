//! One tunnel by itself: what may happen to it at the three ends, and what holds of it after every list of events.
//! It has no code that runs: its functions are laws, which the crates above call to have what they say.
#![tactic(auto)]

mod laws;

pub use laws::{
    closed_tunnels_leave_nothing, connections_are_accounted_for, delivered_is_a_prefix, facts_hold,
    holdings_fit, lists_keep_their_order, rules_hold, runs_go_on, tables_hold,
};
