ghost use Rattle.std.specs.Prelude.{◌≡◌, ◌≢◌, ◌++◌, None, Some, OnOk};
ghost use Rattle.kn_tables.specs.Lists.{first_where};
ghost use Rattle.kn_tables.specs.Awaiting.{is_dial, is_random};
ghost use Rattle.kn_server_core.specs.Server as spec;
ghost use Rattle.kn_server_core.specs.Sound.{IsSound};

use crate::choose::choose;
use crate::event::ServerOut;
use crate::outs::refuse_as;
use crate::state::State;
use kn_io::{NoMemory, Text};
use kn_packet::Packet;
use kn_tables::AwaitedEntry;
use std::alloc::Global;

/// The dial draws its number, is awaited, and goes to the link that was picked.
fn send_dial(
    state: &mut State,
    front: u64,
    protocol: Text,
    address: Text,
    random: i64,
    link: u64,
    outs: &mut Vec<ServerOut>,
) -> Result<(), NoMemory>
    requires sound { IsSound state.old }
    requires left { state.old.next_dial ≢ 9223372036854775807 }
    requires new_random { first_where (is_random front random) state.old.awaited ≡ None }
    ensures sound { IsSound state.new }
    ensures state { OnOk result (state.new ≡ (spec.dial_sent state.old front protocol address random link).state) }
    ensures outs { OnOk result (outs.new.items ≡ outs.old.items ++ (spec.dial_sent state.old front protocol address random link).outs) }
{
    let dial = state.next_dial;
    state.awaited.insert(AwaitedEntry {
        dial,
        front,
        link,
        random,
    })?;
    state.next_dial = dial + 1;
    outs.push(ServerOut::Made { dial, link, front })?;
    outs.push(ServerOut::ToLink {
        link,
        packet: Packet::DialReq {
            protocol,
            address,
            random: dial as i64,
        },
    })?;
    Ok(())
}

/// A front asks for a dial.
pub(crate) fn dial_asked(
    alloc: Global,
    state: &mut State,
    front: u64,
    protocol: Text,
    address: Text,
    random: i64,
    outs: &mut Vec<ServerOut>,
) -> Result<(), NoMemory>
    requires { IsSound state.old }
    ensures sound { IsSound state.new }
    ensures state { OnOk result (state.new ≡ (spec.dial_asked state.old front protocol address random).state) }
    ensures outs { OnOk result (outs.new.items ≡ outs.old.items ++ (spec.dial_asked state.old front protocol address random).outs) }
{
    match choose(state, front, protocol.as_str(), address.as_str(), random) {
        Ok(link) => send_dial(state, front, protocol, address, random, link, outs),
        Err(text) => refuse_as(alloc, front, random, text, outs),
    }
}
