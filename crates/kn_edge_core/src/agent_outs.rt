ghost use Rattle.std.specs.Prelude.{◌≡◌, ◌++◌, ◌<◌, [], ◌∷◌, OnOk, pos};
ghost use Rattle.kn_packet.specs.declared.packet.Packet.TheVariants.{CloseRsp, Data, Drain};
ghost use Rattle.kn_edge_core.specs.declared.agent_event.AgentOut.TheVariants as out;
ghost use Rattle.kn_edge_core.specs.Agent as spec;

use crate::agent_event::AgentOut;
use kn_io::{Blob, NoMemory, Text};
use kn_packet::Packet;
use std::alloc::Global;

fn push_answer(
    error: Text,
    connect_id: &i64,
    random: &i64,
    outs: &mut Vec<AgentOut>,
) -> Result<(), NoMemory>
    ensures { OnOk result (outs.new.items ≡ outs.old.items ++ spec.answer error connect_id.now random.now ∷ []) }
{
    outs.push(AgentOut::ToServer(Packet::DialRsp {
        error,
        connect_id: *connect_id,
        random: *random,
    }))?;
    Ok(())
}

/// A dial is refused with a text.
pub(crate) fn refuse(
    alloc: Global,
    text: &str,
    random: &i64,
    outs: &mut Vec<AgentOut>,
) -> Result<(), NoMemory>
    ensures { OnOk result (outs.new.items ≡ outs.old.items ++ spec.refusal text.now random.now ∷ []) }
{
    let error = Text::of(alloc, text)?;
    push_answer(error, &0, random, outs)
}

/// A dial is answered with a connection.
pub(crate) fn tell_opened(
    alloc: Global,
    number: u64,
    random: &i64,
    outs: &mut Vec<AgentOut>,
) -> Result<(), NoMemory>
    requires { number < 9223372036854775807 }
    ensures { OnOk result (outs.new.items ≡ outs.old.items ++ spec.answer [] (pos number) random.now ∷ []) }
{
    let connect_id = number as i64;
    push_answer(Text::new(alloc), &connect_id, random, outs)
}

fn push_close(error: Text, connect_id: &i64, outs: &mut Vec<AgentOut>) -> Result<(), NoMemory>
    ensures { OnOk result (outs.new.items ≡ outs.old.items ++ out.ToServer (CloseRsp error connect_id.now) ∷ []) }
{
    outs.push(AgentOut::ToServer(Packet::CloseRsp {
        error,
        connect_id: *connect_id,
    }))?;
    Ok(())
}

/// The server is told the end of a connection.
pub(crate) fn tell_closed(
    alloc: Global,
    text: &str,
    connect_id: &i64,
    outs: &mut Vec<AgentOut>,
) -> Result<(), NoMemory>
    ensures { OnOk result (outs.new.items ≡ outs.old.items ++ out.ToServer (CloseRsp text.now connect_id.now) ∷ []) }
{
    let error = Text::of(alloc, text)?;
    push_close(error, connect_id, outs)
}

/// A destination is closed, and the server is told.
pub(crate) fn close_telling(
    alloc: Global,
    text: &str,
    connect_id: &i64,
    outs: &mut Vec<AgentOut>,
) -> Result<(), NoMemory>
    ensures { OnOk result (outs.new.items ≡ outs.old.items ++ out.CloseDest connect_id.now ∷ out.ToServer (CloseRsp text.now connect_id.now) ∷ []) }
{
    outs.push(AgentOut::CloseDest {
        connect_id: *connect_id,
    })?;
    tell_closed(alloc, text, connect_id, outs)
}

/// Bytes of a destination go to the server.
pub(crate) fn send_bytes(
    alloc: Global,
    connect_id: &i64,
    bytes: Blob,
    outs: &mut Vec<AgentOut>,
) -> Result<(), NoMemory>
    ensures { OnOk result (outs.new.items ≡ outs.old.items ++ out.ToServer (Data connect_id.now [] bytes) ∷ []) }
{
    outs.push(AgentOut::ToServer(Packet::Data {
        connect_id: *connect_id,
        error: Text::new(alloc),
        bytes,
    }))?;
    Ok(())
}

/// Bytes are to be written to a destination.
pub(crate) fn write_bytes(
    connect_id: &i64,
    bytes: Blob,
    outs: &mut Vec<AgentOut>,
) -> Result<(), NoMemory>
    ensures { OnOk result (outs.new.items ≡ outs.old.items ++ out.Write connect_id.now bytes ∷ []) }
{
    outs.push(AgentOut::Write {
        connect_id: *connect_id,
        bytes,
    })?;
    Ok(())
}

/// An address is to be dialled.
pub(crate) fn start_dial(
    ticket: u64,
    address: Text,
    outs: &mut Vec<AgentOut>,
) -> Result<(), NoMemory>
    ensures { OnOk result (outs.new.items ≡ outs.old.items ++ out.Dial ticket address ∷ []) }
{
    outs.push(AgentOut::Dial { ticket, address })?;
    Ok(())
}

/// A dial is to be given up.
pub(crate) fn drop_dial(ticket: u64, outs: &mut Vec<AgentOut>) -> Result<(), NoMemory>
    ensures { OnOk result (outs.new.items ≡ outs.old.items ++ out.DropDial ticket ∷ []) }
{
    outs.push(AgentOut::DropDial { ticket })?;
    Ok(())
}

/// A dial is refused with a text, and to be given up.
pub(crate) fn refuse_dropping(
    alloc: Global,
    text: &str,
    ticket: u64,
    random: &i64,
    outs: &mut Vec<AgentOut>,
) -> Result<(), NoMemory>
    ensures { OnOk result (outs.new.items ≡ outs.old.items ++ spec.refusal text.now random.now ∷ out.DropDial ticket ∷ []) }
{
    refuse(alloc, text, random, outs)?;
    drop_dial(ticket, outs)
}

/// The connection of a number is to be closed.
pub(crate) fn close_number(number: u64, outs: &mut Vec<AgentOut>) -> Result<(), NoMemory>
    requires { number < 9223372036854775807 }
    ensures { OnOk result (outs.new.items ≡ outs.old.items ++ out.CloseDest (pos number) ∷ []) }
{
    outs.push(AgentOut::CloseDest {
        connect_id: number as i64,
    })?;
    Ok(())
}

/// The server is asked for no further dials.
pub(crate) fn ask_drain(outs: &mut Vec<AgentOut>) -> Result<(), NoMemory>
    ensures { OnOk result (outs.new.items ≡ outs.old.items ++ out.ToServer Drain ∷ []) }
{
    outs.push(AgentOut::ToServer(Packet::Drain))?;
    Ok(())
}
