use kn_packet::Packet;

/// What is handled at the front of the stream.
#[derive(Drop)]
pub enum Arrival {
    /// The end of the server's half.
    End,
    Packet { packet: Packet },
    /// A message that is bad.
    Bad,
}
