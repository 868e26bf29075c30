// The packets of Konnectivity (KEP-1281), by the names of the apiserver-network-proxy's client.proto.
#![tactic(auto)]

mod draft;
mod entry;
mod fault;
mod field;
mod length;
mod line;
mod owning;
mod packet;
mod packet_ref;
mod part;
mod payload;
mod varint;
mod viewing;
mod writing;

pub use fault::{PacketFault, PacketReason};
pub use length::{encoded_len, is_encodable};
pub use line::show;
pub use owning::own;
pub use packet::Packet;
pub use packet_ref::PacketRef;
pub use viewing::{has_a_reading, has_one_reading, spelling_reads, view};
pub use writing::encode_into;

#[cfg(test)]
mod tests;
