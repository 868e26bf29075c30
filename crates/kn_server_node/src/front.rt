//! What stands at the front of a stream.

ghost use Rattle.kn_grpc.specs.Packets.{first_of, status_of};
ghost use Rattle.kn_grpc.specs.Readers.{Whole, first_message};
ghost use Rattle.std.specs.Prelude.{◌≡◌, ℕ, List, IfOk};
ghost use Rattle.kn_server_node.specs.Fronts.{IsSeen, IsOwned};

use kn_grpc::{Front as Lent, MessageReason, Messages, first_packet_of};
use kn_io::NoMemory;
use kn_packet::{Packet, PacketRef, own, view};
use std::alloc::Global;

/// What stands at the front of a stream, in the bytes that are kept of it.
#[derive(Clone, Copy)]
pub enum Seen<'a> {
    /// Less than a message.
    Less,
    Packet { packet: PacketRef<'a> },
    /// No packet, and the status that its call ends with.
    Bad { status: u32 },
}

/// What stands at the front of a stream.
#[derive(Drop)]
pub enum Front {
    /// Less than a message.
    Less,
    Packet { packet: Packet },
    /// No packet, and the status that its call ends with.
    Bad { status: u32 },
}

/// The gRPC status that a call ends with where a message is bad.
fn status_of(reason: MessageReason) -> u32
    ensures { result ≡ status_of reason }
{
    match reason {
        MessageReason::Compressed => 12,
        MessageReason::Flag => 13,
        MessageReason::TooLong => 8,
    }
}

/// What a whole message is.
fn packet_in(message: &[u8]) -> Seen<'_>
    ensures { (text rest : List ℕ) → first_message text ≡ Whole message.now rest → IsSeen result (first_of text) }
{
    first_packet_of();
    match view(message) {
        Ok(packet) => Seen::Packet { packet },
        Err(_fault) => Seen::Bad { status: 13 },
    }
}

/// What stands at the front of what is kept.
pub fn front_of(messages: &Messages) -> Seen<'_>
    ensures { IsSeen result (first_of messages.now.kept) }
{
    first_packet_of();
    match messages.first() {
        Lent::Less => Seen::Less,
        Lent::Whole { message } => packet_in(message),
        Lent::Bad { reason } => Seen::Bad {
            status: status_of(reason),
        },
    }
}

/// The same, owned.
pub fn own_front(alloc: Global, seen: Seen<'_>) -> Result<Front, NoMemory>
    ensures { IfOk result (λ front. IsOwned seen.entry front) }
{
    match seen {
        Seen::Less => Ok(Front::Less),
        Seen::Packet { packet } => {
            let packet = own(alloc, packet)?;
            Ok(Front::Packet { packet })
        }
        Seen::Bad { status } => Ok(Front::Bad { status }),
    }
}
