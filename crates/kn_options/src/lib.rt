// The commands that use the network: what their words ask for.
#![tactic(auto)]

mod command;
mod help;
mod number;
mod options;
mod parse;
mod program;
mod reading;
mod texts;
mod values;

pub use help::{Help, help_of};
pub use options::{AgentOptions, ClientOptions, Options, ServerOptions};
pub use program::is_net;
pub use reading::read_options;

#[cfg(test)]
mod tests;
