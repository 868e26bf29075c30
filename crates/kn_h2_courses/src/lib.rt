//! Laws over the whole life of one end of a connection of HTTP/2: any list of what may be done with it, from a new
//! connection on. It has no code that runs: its functions are laws.
#![tactic(auto)]

mod laws;
mod own_calls;

pub use laws::{
    connection_windows_are_sums, fails_where_felled, moves_fill_little, queued_is_sent,
    stream_windows_are_sums, tables_are_small, text_is_heard,
};
pub use own_calls::calls_change_their_stream;
