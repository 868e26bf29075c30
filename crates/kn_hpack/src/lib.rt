// Header blocks of HTTP/2 (RFC 7541): a decoder that reads each block as the standard says, or tells
// its first fault, and an encoder whose blocks such a decoder reads as the lists that they were made of.
#![tactic(auto)]

mod decoder;
mod dynamic_table;
mod encoder;
mod fault;
mod field;
mod gathered;
mod headers;
mod huffman;
mod integers;
mod laws;
mod representation;
mod standing;
mod static_table;
mod strings;
mod tree;

pub use decoder::Decoder;
pub use encoder::Encoder;
pub use fault::{HpackError, HpackFault, HpackReason};
pub use headers::Headers;
pub use laws::{block_laws, fault_laws, huffman_laws, round_trip_laws};
