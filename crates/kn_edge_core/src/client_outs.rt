ghost use Rattle.std.specs.Prelude.{◌≡◌, ◌++◌, ◌<◌, [], ◌∷◌, pos, codes, OnOk};
ghost use Rattle.kn_packet.specs.declared.packet.Packet.TheVariants.{DialReq, CloseReq, Data, DialCls};
ghost use Rattle.kn_edge_core.specs.declared.client_event.ClientOut.TheVariants as out;

use crate::client_event::ClientOut;
use kn_io::{Blob, NoMemory, Text};
use kn_packet::Packet;
use std::alloc::Global;

/// The server is asked for a dial by tcp.
pub(crate) fn ask_dial(
    alloc: Global,
    number: u64,
    address: Text,
    outs: &mut Vec<ClientOut>,
) -> Result<(), NoMemory>
    requires { number < 9223372036854775807 }
    ensures { OnOk result (outs.new.items ≡ outs.old.items ++ out.ToServer (DialReq (codes "tcp") address (pos number)) ∷ []) }
{
    let protocol = Text::of(alloc, "tcp")?;
    outs.push(ClientOut::ToServer(Packet::DialReq {
        protocol,
        address,
        random: number as i64,
    }))?;
    Ok(())
}

/// The server is asked to close a connection.
pub(crate) fn ask_close(connect_id: &i64, outs: &mut Vec<ClientOut>) -> Result<(), NoMemory>
    ensures { OnOk result (outs.new.items ≡ outs.old.items ++ out.ToServer (CloseReq connect_id.now) ∷ []) }
{
    outs.push(ClientOut::ToServer(Packet::CloseReq {
        connect_id: *connect_id,
    }))?;
    Ok(())
}

fn push_cancel(number: u64, outs: &mut Vec<ClientOut>) -> Result<(), NoMemory>
    requires { number < 9223372036854775807 }
    ensures { OnOk result (outs.new.items ≡ outs.old.items ++ out.ToServer (DialCls (pos number)) ∷ []) }
{
    outs.push(ClientOut::ToServer(Packet::DialCls {
        random: number as i64,
    }))?;
    Ok(())
}

/// Bytes of an app go to the server.
pub(crate) fn send_bytes(
    alloc: Global,
    connect_id: &i64,
    bytes: Blob,
    outs: &mut Vec<ClientOut>,
) -> Result<(), NoMemory>
    ensures { OnOk result (outs.new.items ≡ outs.old.items ++ out.ToServer (Data connect_id.now [] bytes) ∷ []) }
{
    outs.push(ClientOut::ToServer(Packet::Data {
        connect_id: *connect_id,
        error: Text::new(alloc),
        bytes,
    }))?;
    Ok(())
}

/// Bytes are to be written to an app.
pub(crate) fn write_bytes(app: u64, bytes: Blob, outs: &mut Vec<ClientOut>) -> Result<(), NoMemory>
    ensures { OnOk result (outs.new.items ≡ outs.old.items ++ out.ToApp app bytes ∷ []) }
{
    outs.push(ClientOut::ToApp { app, bytes })?;
    Ok(())
}

/// An app is told that its tunnel is over.
pub(crate) fn tell_end(app: u64, error: Text, outs: &mut Vec<ClientOut>) -> Result<(), NoMemory>
    ensures { OnOk result (outs.new.items ≡ outs.old.items ++ out.EndApp app error ∷ []) }
{
    outs.push(ClientOut::EndApp { app, error })?;
    Ok(())
}

/// The same, with a copy of the error.
pub(crate) fn tell_end_copied(
    alloc: Global,
    app: u64,
    error: &str,
    outs: &mut Vec<ClientOut>,
) -> Result<(), NoMemory>
    ensures { OnOk result (outs.new.items ≡ outs.old.items ++ out.EndApp app error.now ∷ []) }
{
    let error = Text::of(alloc, error)?;
    tell_end(app, error, outs)
}

/// A dial is taken back, and its app told.
pub(crate) fn cancel_telling(
    alloc: Global,
    number: u64,
    outs: &mut Vec<ClientOut>,
) -> Result<(), NoMemory>
    requires { number < 9223372036854775807 }
    ensures { OnOk result (outs.new.items ≡ outs.old.items ++ out.ToServer (DialCls (pos number)) ∷ out.EndApp number [] ∷ []) }
{
    push_cancel(number, outs)?;
    tell_end(number, Text::new(alloc), outs)
}

/// The server is asked to close a connection, and its app told.
pub(crate) fn close_telling(
    alloc: Global,
    number: u64,
    connect_id: &i64,
    outs: &mut Vec<ClientOut>,
) -> Result<(), NoMemory>
    ensures { OnOk result (outs.new.items ≡ outs.old.items ++ out.ToServer (CloseReq connect_id.now) ∷ out.EndApp number [] ∷ []) }
{
    ask_close(connect_id, outs)?;
    tell_end(number, Text::new(alloc), outs)
}
