ghost use Rattle.std.specs.Prelude.{◌≡◌, ◌+◌, ◌++◌, ◌<◌, ◌≤◌, ◌^◌, [], true, length, IsSome, OnOk};
ghost use Rattle.std.specs.Option.{IsSomeAnd};
ghost use Rattle.kn_tables.specs.Lists.{first_where};
ghost use Rattle.kn_edge_core.specs.AgentTables.{is_connection, connection_at};
ghost use Rattle.kn_edge_core.specs.Agent as spec;
ghost use Rattle.kn_edge_core.specs.Sound.{IsAgentSound};

use crate::agent_changes::{add_unwritten, end_connection, linger, take_unwritten};
use crate::agent_event::AgentOut;
use crate::agent_outs::{close_telling, send_bytes, tell_closed, write_bytes};
use crate::agent_state::AgentState;
use crate::connection::{Connection, DestState};
use kn_io::{Blob, NoMemory};
use std::alloc::Global;

// A connection ends: it leaves with its unwritten bytes, its destination is closed, and the server is told.
fn connection_ended(
    alloc: Global,
    state: &mut AgentState,
    connect_id: &i64,
    connection: Connection,
    text: &str,
    outs: &mut Vec<AgentOut>,
) -> Result<(), NoMemory>
    requires { IsAgentSound state.old }
    ensures sound { IsAgentSound state.new }
    ensures state { OnOk result (state.new ≡ (spec.connection_ended state.old connect_id.now connection text.now).state) }
    ensures outs { OnOk result (outs.new.items ≡ outs.old.items ++ (spec.connection_ended state.old connect_id.now connection text.now).outs) }
{
    end_connection(state, connection.connect_id);
    close_telling(alloc, text, connect_id, outs)
}

// Bytes come for an open destination.
fn bytes_came(
    state: &mut AgentState,
    connect_id: &i64,
    bytes: Blob,
    connection: Connection,
    outs: &mut Vec<AgentOut>,
) -> Result<(), NoMemory>
    requires sound { IsAgentSound state.old }
    requires room { IsSomeAnd (first_where (is_connection connection.connect_id) state.old.connections) (λ c. c.unwritten + length bytes < 2 ^ 64) }
    ensures sound { IsAgentSound state.new }
    ensures state { OnOk result (state.new ≡ (spec.bytes_by_state state.old connect_id.now bytes connection DestState.Open).state) }
    ensures outs { OnOk result (outs.new.items ≡ outs.old.items ++ (spec.bytes_by_state state.old connect_id.now bytes connection DestState.Open).outs) }
{
    add_unwritten(state, connection.connect_id, bytes.len());
    write_bytes(connect_id, bytes, outs)
}

/// The server sends bytes for a destination.
pub(crate) fn data_came(
    state: &mut AgentState,
    connect_id: &i64,
    bytes: Blob,
    outs: &mut Vec<AgentOut>,
) -> Result<(), NoMemory>
    requires sound { IsAgentSound state.old }
    requires room { spec.HasRoom (length bytes) (connection_at connect_id.now state.old.connections) }
    ensures sound { IsAgentSound state.new }
    ensures state { OnOk result (state.new ≡ (spec.data_came state.old connect_id.now bytes (connection_at connect_id.now state.old.connections)).state) }
    ensures outs { OnOk result (outs.new.items ≡ outs.old.items ++ (spec.data_came state.old connect_id.now bytes (connection_at connect_id.now state.old.connections)).outs) }
{
    match state.connections.find(connect_id) {
        Some(connection) => match connection.state {
            DestState::Open => bytes_came(state, connect_id, bytes, connection, outs),
            DestState::Lingering => Ok(()),
        },
        None => Ok(()),
    }
}

// The server asks to close an open connection: at once, or once all is written.
fn close_open(
    alloc: Global,
    state: &mut AgentState,
    connect_id: &i64,
    connection: Connection,
    outs: &mut Vec<AgentOut>,
) -> Result<(), NoMemory>
    requires sound { IsAgentSound state.old }
    requires there { IsSome (first_where (is_connection connection.connect_id) state.old.connections) }
    ensures sound { IsAgentSound state.new }
    ensures state { OnOk result (state.new ≡ (spec.close_open state.old connect_id.now connection).state) }
    ensures outs { OnOk result (outs.new.items ≡ outs.old.items ++ (spec.close_open state.old connect_id.now connection).outs) }
{
    if connection.unwritten == 0 {
        connection_ended(alloc, state, connect_id, connection, "", outs)
    } else {
        linger(state, connection.connect_id);
        Ok(())
    }
}

/// The server asks to close a connection.
pub(crate) fn close_requested(
    alloc: Global,
    state: &mut AgentState,
    connect_id: &i64,
    outs: &mut Vec<AgentOut>,
) -> Result<(), NoMemory>
    requires { IsAgentSound state.old }
    ensures sound { IsAgentSound state.new }
    ensures state { OnOk result (state.new ≡ (spec.close_requested state.old connect_id.now (connection_at connect_id.now state.old.connections)).state) }
    ensures outs { OnOk result (outs.new.items ≡ outs.old.items ++ (spec.close_requested state.old connect_id.now (connection_at connect_id.now state.old.connections)).outs) }
{
    match state.connections.find(connect_id) {
        Some(connection) => match connection.state {
            DestState::Open => close_open(alloc, state, connect_id, connection, outs),
            DestState::Lingering => Ok(()),
        },
        None => tell_closed(alloc, "unknown connection", connect_id, outs),
    }
}

/// A destination sent bytes.
pub(crate) fn dest_bytes(
    alloc: Global,
    state: &AgentState,
    connect_id: &i64,
    bytes: Blob,
    outs: &mut Vec<AgentOut>,
) -> Result<(), NoMemory>
    ensures { OnOk result (outs.new.items ≡ outs.old.items ++ (spec.dest_bytes state.now connect_id.now bytes (connection_at connect_id.now state.now.connections)).outs) }
{
    match state.connections.find(connect_id) {
        Some(connection) => match connection.state {
            DestState::Open => send_bytes(alloc, connect_id, bytes, outs),
            DestState::Lingering => Ok(()),
        },
        None => Ok(()),
    }
}

/// A destination sends no more.
pub(crate) fn dest_ended(
    alloc: Global,
    state: &mut AgentState,
    connect_id: &i64,
    outs: &mut Vec<AgentOut>,
) -> Result<(), NoMemory>
    requires { IsAgentSound state.old }
    ensures sound { IsAgentSound state.new }
    ensures state { OnOk result (state.new ≡ (spec.dest_ended state.old connect_id.now (connection_at connect_id.now state.old.connections)).state) }
    ensures outs { OnOk result (outs.new.items ≡ outs.old.items ++ (spec.dest_ended state.old connect_id.now (connection_at connect_id.now state.old.connections)).outs) }
{
    match state.connections.find(connect_id) {
        Some(connection) => match connection.state {
            DestState::Open => connection_ended(alloc, state, connect_id, connection, "", outs),
            DestState::Lingering => Ok(()),
        },
        None => Ok(()),
    }
}

// A destination that lingers took bytes: it ends with the last of them.
fn linger_wrote(
    alloc: Global,
    state: &mut AgentState,
    connect_id: &i64,
    count: usize,
    connection: Connection,
    outs: &mut Vec<AgentOut>,
) -> Result<(), NoMemory>
    requires sound { IsAgentSound state.old }
    requires there { IsSomeAnd (first_where (is_connection connection.connect_id) state.old.connections) (λ c. count ≤ c.unwritten) }
    ensures sound { IsAgentSound state.new }
    ensures state { OnOk result (state.new ≡ (spec.linger_wrote state.old connect_id.now count connection).state) }
    ensures outs { OnOk result (outs.new.items ≡ outs.old.items ++ (spec.linger_wrote state.old connect_id.now count connection).outs) }
{
    if connection.unwritten == count {
        connection_ended(alloc, state, connect_id, connection, "", outs)
    } else {
        take_unwritten(state, connection.connect_id, count);
        Ok(())
    }
}

/// A destination took bytes.
pub(crate) fn dest_wrote(
    alloc: Global,
    state: &mut AgentState,
    connect_id: &i64,
    count: usize,
    outs: &mut Vec<AgentOut>,
) -> Result<(), NoMemory>
    requires sound { IsAgentSound state.old }
    requires there { spec.WereUnwritten count (connection_at connect_id.now state.old.connections) }
    ensures sound { IsAgentSound state.new }
    ensures state { OnOk result (state.new ≡ (spec.dest_wrote state.old connect_id.now count (connection_at connect_id.now state.old.connections)).state) }
    ensures outs { OnOk result (outs.new.items ≡ outs.old.items ++ (spec.dest_wrote state.old connect_id.now count (connection_at connect_id.now state.old.connections)).outs) }
{
    match state.connections.find(connect_id) {
        Some(connection) => match connection.state {
            DestState::Open => {
                take_unwritten(state, connection.connect_id, count);
                Ok(())
            }
            DestState::Lingering => linger_wrote(alloc, state, connect_id, count, connection, outs),
        },
        None => Ok(()),
    }
}

/// The connection to a destination failed.
pub(crate) fn dest_failed(
    alloc: Global,
    state: &mut AgentState,
    connect_id: &i64,
    outs: &mut Vec<AgentOut>,
) -> Result<(), NoMemory>
    requires { IsAgentSound state.old }
    ensures sound { IsAgentSound state.new }
    ensures state { OnOk result (state.new ≡ (spec.dest_failed state.old connect_id.now (connection_at connect_id.now state.old.connections)).state) }
    ensures outs { OnOk result (outs.new.items ≡ outs.old.items ++ (spec.dest_failed state.old connect_id.now (connection_at connect_id.now state.old.connections)).outs) }
{
    match state.connections.find(connect_id) {
        Some(connection) => {
            connection_ended(
                alloc,
                state,
                connect_id,
                connection,
                "destination failed",
                outs,
            )
        }
        None => Ok(()),
    }
}
