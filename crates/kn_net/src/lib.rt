// The programs that use the network, from their words to their status.
#![tactic(auto)]

mod end;
mod run;
mod sockets;

pub use end::End;
pub use run::run_net;
pub use sockets::run_on_sockets;
