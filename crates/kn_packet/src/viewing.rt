ghost use Rattle.std.specs.Prelude.{◌≡◌, ◌⊎◌, List, ℕ, IfOk, IfErr, IsOkAnd, IsErrAnd};
ghost use Rattle.kn_packet.specs.declared.packet.Packet.{Packet};
ghost use Rattle.kn_packet.specs.declared.fault.PacketFault.{PacketFault};
ghost use Rattle.kn_packet.specs.Messages.{message};
ghost use Rattle.kn_packet.specs.Reading.{Reads};
ghost use Rattle.kn_packet.specs.Faults.{HasFault};
ghost use Rattle.kn_packet.specs.Spelling.{spelling, HasSpelling, IsPacket};

use crate::draft::{empty_draft, finished};
use crate::fault::PacketFault;
use crate::packet_ref::PacketRef;
use crate::part::read_parts;

/// The packet that the bytes read as, or their first fault.
fn first_reading(bytes: &[u8]) -> Result<PacketRef<'_>, PacketFault>
    ensures packet { IfOk result (λ p. Reads bytes.now (message p)) }
    ensures fault { IfErr result (λ fault. HasFault bytes.now fault) }
{
    match read_parts(bytes, empty_draft()) {
        Ok(draft) => Ok(finished(draft)),
        Err(stop) => Err(PacketFault {
            place: bytes.len() - stop.left,
            reason: stop.reason,
        }),
    }
}

/// The one packet that the bytes read as, by the Protocol Buffers encoding and client.proto, or their
/// first fault. The packet borrows the bytes, and no memory is taken.
pub fn view(bytes: &[u8]) -> Result<PacketRef<'_>, PacketFault>
    ensures packet { IfOk result (λ p. Reads bytes.now (message p)) }
    ensures only_packet { (packet : Packet) → Reads bytes.now packet → IsOkAnd result (λ p. message p ≡ packet) }
    ensures fault { IfErr result (λ fault. HasFault bytes.now fault) }
    ensures only_fault { (fault : PacketFault) → HasFault bytes.now fault → IsErrAnd result (λ found. found ≡ fault) }
{
    first_reading(bytes)
}

/// Whatever the bytes are, they read as a packet or have a first fault.
pub fn has_a_reading(bytes: &[u8])
    ensures { ((packet : Packet) × Reads bytes.now packet)
        ⊎ ((fault : PacketFault) × HasFault bytes.now fault) }
{
    let _found = view(bytes);
}

/// No bytes read as two packets, have two first faults, or have both a packet and a fault.
pub fn has_one_reading()
    ensures one_packet { (bytes : List ℕ) (p q : Packet) → Reads bytes p → Reads bytes q → p ≡ q }
    ensures one_fault { (bytes : List ℕ) (f g : PacketFault) → HasFault bytes f → HasFault bytes g → f ≡ g }
    ensures not_both { (bytes : List ℕ) (p : Packet) (f : PacketFault) → Reads bytes p → HasFault bytes f → ⊥ }
{}

/// The canonical spelling of a packet reads as the packet: what `encode_into` writes, `view` gives back.
pub fn spelling_reads()
    ensures { (packet : Packet) → IsPacket packet → HasSpelling packet → Reads (spelling packet) packet }
{}
