// The plain commands of `kn`: their words, what they read, what they write, and the status they end with.
#![tactic(auto)]

mod command;
mod input;
mod messages;
mod outcome;
mod plain;
mod question;
mod replay;
mod status;

pub use command::Command;
pub use input::INPUT_LIMIT;
pub use plain::{refuse, run_plain};
pub use question::Question;
pub use replay::LINE_LIMIT;
pub use status::Status;
