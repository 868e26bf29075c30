// In which order streams of a connection are told as opened, and that no frame and no step of this end makes a queue longer.
#![tactic(auto)]

mod laws;

pub use laws::{own_steps_keep_queues, pieces_keep_order};
