ghost use Rattle.std.specs.Prelude.{◌≡◌, IfOk};
ghost use Rattle.kn_packet.specs.Messages.{message};

use crate::packet::Packet;
use crate::packet_ref::PacketRef;
use kn_io::{Blob, NoMemory, Text};
use std::alloc::Global;

/// The equal packet that owns its texts and bytes.
pub fn own(alloc: Global, packet: PacketRef<'_>) -> Result<Packet, NoMemory>
    ensures { IfOk result (λ owned. owned ≡ message packet.entry) }
{
    match packet {
        PacketRef::DialReq {
            protocol,
            address,
            random,
        } => Ok(Packet::DialReq {
            protocol: Text::of(alloc, protocol)?,
            address: Text::of(alloc, address)?,
            random,
        }),
        PacketRef::DialRsp {
            error,
            connect_id,
            random,
        } => Ok(Packet::DialRsp {
            error: Text::of(alloc, error)?,
            connect_id,
            random,
        }),
        PacketRef::CloseReq { connect_id } => Ok(Packet::CloseReq { connect_id }),
        PacketRef::CloseRsp { error, connect_id } => Ok(Packet::CloseRsp {
            error: Text::of(alloc, error)?,
            connect_id,
        }),
        PacketRef::Data {
            connect_id,
            error,
            bytes,
        } => Ok(Packet::Data {
            connect_id,
            error: Text::of(alloc, error)?,
            bytes: Blob::of(alloc, bytes)?,
        }),
        PacketRef::DialCls { random } => Ok(Packet::DialCls { random }),
        PacketRef::Drain => Ok(Packet::Drain),
        PacketRef::Other { number } => Ok(Packet::Other { number }),
    }
}
