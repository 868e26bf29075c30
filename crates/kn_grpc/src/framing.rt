ghost use Rattle.std.specs.Prelude.{◌≡◌, ◌+◌, ◌≤◌, length, IfOk};
ghost use Rattle.kn_packet.specs.Spelling.{spelling, HasSpelling};
ghost use Rattle.kn_grpc.specs.Packets.{framed};
ghost use Rattle.kn_grpc.specs.Messages.{spelled};

use kn_io::{Blob, NoMemory};
use kn_packet::{Packet, encode_into, encoded_len};
use std::alloc::Global;

/// Writes a message into a room that has its length and five bytes more.
#[tactic(auto, unfolding(crate::specs::Messages::spelled))]
fn write_frame(packet: &Packet, len: usize, room: &mut [u8])
    requires spelled { HasSpelling packet.now }
    requires len { len ≡ length (spelling packet.now) }
    requires small { len ≤ 4194304 }
    requires room { length room.old ≡ 5 + len }
    ensures { room.new ≡ framed packet.now }
{
    let [a, b, c, d] = (len as u32).to_be_bytes();
    let (head, body) = room.split_at_mut(5);
    head.copy_from_slice(&[0, a, b, c, d]);
    encode_into(packet, body);
}

/// The message of a packet as a stream carries it: its five bytes, and the packet's canonical spelling.
pub fn frame(alloc: Global, packet: &Packet) -> Result<Blob, NoMemory>
    requires spelled { HasSpelling packet.now }
    requires small { length (spelling packet.now) ≤ 4194304 }
    ensures { IfOk result (λ blob. blob ≡ framed packet.now) }
{
    let len = encoded_len(packet);
    let mut room = vec![in alloc; 0u8; 5 + len]?;
    write_frame(packet, len, &mut room);
    Blob::of(alloc, &room)
}
