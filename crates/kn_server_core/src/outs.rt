ghost use Rattle.std.specs.Prelude.{◌≡◌, ◌<◌, ◌^◌, ◌++◌, [], ◌∷◌, OnOk};
ghost use Rattle.kn_server_core.specs.Packets as spec;
ghost use Rattle.kn_server_core.specs.Server.{ended_to};

use crate::event::ServerOut;
use kn_io::{Blob, NoMemory, Text};
use kn_packet::Packet;
use std::alloc::Global;

/// The most bytes that go in one packet of data.
const DATA_LIMIT: usize = 4_194_000;

/// A dial is refused with a text.
pub(crate) fn refuse(
    front: u64,
    random: i64,
    error: Text,
    outs: &mut Vec<ServerOut>,
) -> Result<(), NoMemory>
    ensures { OnOk result (outs.new.items ≡ outs.old.items ++ spec.refusal front random error ∷ []) }
{
    outs.push(ServerOut::ToFront {
        front,
        packet: Packet::DialRsp {
            error,
            connect_id: 0,
            random,
        },
    })?;
    Ok(())
}

/// A dial is refused with one of the server's own texts.
pub(crate) fn refuse_as(
    alloc: Global,
    front: u64,
    random: i64,
    text: &str,
    outs: &mut Vec<ServerOut>,
) -> Result<(), NoMemory>
    ensures { OnOk result (outs.new.items ≡ outs.old.items ++ spec.refusal front random text.now ∷ []) }
{
    let error = Text::of(alloc, text)?;
    refuse(front, random, error, outs)
}

/// A front's tunnel is open.
pub(crate) fn tell_opened(
    alloc: Global,
    front: u64,
    dial: u64,
    random: i64,
    outs: &mut Vec<ServerOut>,
) -> Result<(), NoMemory>
    requires { dial < 2 ^ 63 }
    ensures { OnOk result (outs.new.items ≡ outs.old.items ++ spec.opened front dial random ∷ []) }
{
    outs.push(ServerOut::ToFront {
        front,
        packet: Packet::DialRsp {
            error: Text::new(alloc),
            connect_id: dial as i64,
            random,
        },
    })?;
    Ok(())
}

/// The end of a tunnel is told to its front, where it has one.
pub(crate) fn tell_ended(
    front: Option<u64>,
    dial: u64,
    error: Text,
    outs: &mut Vec<ServerOut>,
) -> Result<(), NoMemory>
    requires { dial < 2 ^ 63 }
    ensures { OnOk result (outs.new.items ≡ outs.old.items ++ ended_to front dial error) }
{
    match front {
        Some(front) => {
            outs.push(ServerOut::ToFront {
                front,
                packet: Packet::CloseRsp {
                    error,
                    connect_id: dial as i64,
                },
            })?;
            Ok(())
        }
        None => Ok(()),
    }
}

/// An agent is asked to close a connection.
pub(crate) fn ask_close(
    link: u64,
    connect_id: i64,
    outs: &mut Vec<ServerOut>,
) -> Result<(), NoMemory>
    ensures { OnOk result (outs.new.items ≡ outs.old.items ++ spec.close_asked link connect_id ∷ []) }
{
    outs.push(ServerOut::ToLink {
        link,
        packet: Packet::CloseReq { connect_id },
    })?;
    Ok(())
}

fn push_close(
    front: u64,
    connect_id: i64,
    error: Text,
    outs: &mut Vec<ServerOut>,
) -> Result<(), NoMemory>
    ensures { OnOk result (outs.new.items ≡ outs.old.items ++ spec.close_refused front connect_id error ∷ []) }
{
    outs.push(ServerOut::ToFront {
        front,
        packet: Packet::CloseRsp { error, connect_id },
    })?;
    Ok(())
}

/// A front's request to close is refused with a text.
pub(crate) fn refuse_close(
    alloc: Global,
    front: u64,
    connect_id: i64,
    text: &str,
    outs: &mut Vec<ServerOut>,
) -> Result<(), NoMemory>
    ensures { OnOk result (outs.new.items ≡ outs.old.items ++ spec.close_refused front connect_id text.now ∷ []) }
{
    let error = Text::of(alloc, text)?;
    push_close(front, connect_id, error, outs)
}

fn push_to_front(
    alloc: Global,
    front: u64,
    dial: u64,
    bytes: Blob,
    outs: &mut Vec<ServerOut>,
) -> Result<(), NoMemory>
    requires { dial < 2 ^ 63 }
    ensures { OnOk result (outs.new.items ≡ outs.old.items ++ spec.data_to_front front dial (bytes ∷ [])) }
{
    outs.push(ServerOut::ToFront {
        front,
        packet: Packet::Data {
            connect_id: dial as i64,
            error: Text::new(alloc),
            bytes,
        },
    })?;
    Ok(())
}

/// Bytes go to a front, in two packets where they are too many for one.
pub(crate) fn data_to_front(
    alloc: Global,
    front: u64,
    dial: u64,
    bytes: Blob,
    outs: &mut Vec<ServerOut>,
) -> Result<(), NoMemory>
    requires { dial < 2 ^ 63 }
    ensures { OnOk result (outs.new.items ≡ outs.old.items ++ spec.data_to_front front dial (spec.in_packets bytes)) }
{
    if bytes.len() > DATA_LIMIT {
        let (first, rest) = bytes.as_slice().split_at(DATA_LIMIT);
        push_to_front(alloc, front, dial, Blob::of(alloc, first)?, outs)?;
        push_to_front(alloc, front, dial, Blob::of(alloc, rest)?, outs)
    } else {
        push_to_front(alloc, front, dial, bytes, outs)
    }
}

fn push_to_link(
    alloc: Global,
    link: u64,
    connect_id: &i64,
    bytes: Blob,
    outs: &mut Vec<ServerOut>,
) -> Result<(), NoMemory>
    ensures { OnOk result (outs.new.items ≡ outs.old.items ++ spec.data_to_link link connect_id.now (bytes ∷ [])) }
{
    outs.push(ServerOut::ToLink {
        link,
        packet: Packet::Data {
            connect_id: *connect_id,
            error: Text::new(alloc),
            bytes,
        },
    })?;
    Ok(())
}

/// Bytes go to an agent, in two packets where they are too many for one.
pub(crate) fn data_to_link(
    alloc: Global,
    link: u64,
    connect_id: &i64,
    bytes: Blob,
    outs: &mut Vec<ServerOut>,
) -> Result<(), NoMemory>
    ensures { OnOk result (outs.new.items ≡ outs.old.items ++ spec.data_to_link link connect_id.now (spec.in_packets bytes)) }
{
    if bytes.len() > DATA_LIMIT {
        let (first, rest) = bytes.as_slice().split_at(DATA_LIMIT);
        push_to_link(alloc, link, connect_id, Blob::of(alloc, first)?, outs)?;
        push_to_link(alloc, link, connect_id, Blob::of(alloc, rest)?, outs)
    } else {
        push_to_link(alloc, link, connect_id, bytes, outs)
    }
}
