// The ends of HTTP/2 connections whose streams carry packets: what an end keeps of each stream, what its steps
// do, and queues that the nodes share.
#![tactic(auto)]

pub mod carrier;
mod heard;
mod inlet;
mod inlets;
mod packet_queue;
mod standing;
mod streams;
mod told;
mod under_way;
mod who;

pub use carrier::{
    Carrier, answer_on, deafen, end_stream, feed, finish, note_end, note_reset, queue, read, take,
    write,
};
pub use heard::Heard;
pub use inlet::Inlet;
pub use inlets::Inlets;
pub use packet_queue::PacketQueue;
pub use standing::{
    counts, is_bare, is_gone, is_live, lose, next_told, out, queued, take_told, took,
};
pub use streams::{add_inlet, answer, begin, reset};
pub use told::Told;
pub use under_way::missing;
pub use who::Who;
