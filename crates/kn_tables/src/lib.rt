// The server's tables: the dials that agents have not answered yet, and the tunnels that are open or closing,
// each found by every key that an event may name without a scan of the others.
#![tactic(auto)]

mod awaited;
mod awaited_entry;
mod counts;
mod held;
mod held_entry;
mod index;
#[cfg(test)]
mod tests;

pub use awaited::Awaited;
pub use awaited_entry::AwaitedEntry;
pub use held::Held;
pub use held_entry::{HeldEntry, HeldState};
