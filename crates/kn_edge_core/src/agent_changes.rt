ghost use Rattle.std.specs.Prelude.{◌≡◌, ◌+◌, ◌<◌, ◌≤◌, ◌^◌, [], true, IsSome, OnOk, OnErr};
ghost use Rattle.std.specs.Option.{IsSomeAnd};
ghost use Rattle.kn_tables.specs.Lists.{first_where};
ghost use Rattle.kn_edge_core.specs.AgentTables.{is_connection, with_dial, without_dial, with_connection, without_connection, connection_changed, turned, with_more, with_fewer};
ghost use Rattle.kn_edge_core.specs.Agent.{dial_ended};
ghost use Rattle.kn_edge_core.specs.Sound.{IsAgentSound};

use crate::agent_state::AgentState;
use crate::connection::{Connection, DestState};
use crate::dial::Dial;
use kn_io::NoMemory;

/// A dial draws its ticket. An `Err` changes nothing.
pub(crate) fn add_dial(state: &mut AgentState, random: &i64) -> Result<(), NoMemory>
    requires sound { IsAgentSound state.old }
    requires left { state.old.next_ticket < 9223372036854775807 }
    ensures sound { IsAgentSound state.new }
    ensures ok { OnOk result (state.new ≡ record state.old { dials = with_dial (record { ticket = state.old.next_ticket; random = random.now }) state.old.dials; next_ticket = state.old.next_ticket + 1 }) }
    ensures err { OnErr result (state.new ≡ state.old) }
{
    let ticket = state.next_ticket;
    state.dials.insert(Dial {
        ticket,
        random: *random,
    })?;
    state.next_ticket = ticket + 1;
    Ok(())
}

/// A dial leaves.
pub(crate) fn end_dial(state: &mut AgentState, ticket: u64)
    requires { IsAgentSound state.old }
    ensures sound { IsAgentSound state.new }
    ensures state { state.new ≡ dial_ended state.old ticket }
{
    state.dials.remove(ticket);
}

/// A connection draws its number. An `Err` changes nothing.
pub(crate) fn add_connection(state: &mut AgentState) -> Result<(), NoMemory>
    requires sound { IsAgentSound state.old }
    requires left { state.old.next_connect_id < 9223372036854775807 }
    ensures sound { IsAgentSound state.new }
    ensures ok { OnOk result (state.new ≡ record state.old { connections = with_connection (record { connect_id = state.old.next_connect_id; state = DestState.Open; unwritten = 0 }) state.old.connections; next_connect_id = state.old.next_connect_id + 1 }) }
    ensures err { OnErr result (state.new ≡ state.old) }
{
    let connect_id = state.next_connect_id;
    state.connections.insert(Connection {
        connect_id,
        state: DestState::Open,
        unwritten: 0,
    })?;
    state.next_connect_id = connect_id + 1;
    Ok(())
}

/// A connection leaves.
pub(crate) fn end_connection(state: &mut AgentState, number: u64)
    requires { IsAgentSound state.old }
    ensures sound { IsAgentSound state.new }
    ensures state { state.new ≡ record state.old { connections = without_connection number state.old.connections } }
{
    state.connections.remove(number);
}

/// A connection is to be closed once all is written.
pub(crate) fn linger(state: &mut AgentState, number: u64)
    requires sound { IsAgentSound state.old }
    requires there { IsSome (first_where (is_connection number) state.old.connections) }
    ensures sound { IsAgentSound state.new }
    ensures state { state.new ≡ record state.old { connections = connection_changed number (turned DestState.Lingering) state.old.connections } }
{
    state.connections.linger(number);
}

/// So many bytes more are to be written to a destination.
pub(crate) fn add_unwritten(state: &mut AgentState, number: u64, count: usize)
    requires sound { IsAgentSound state.old }
    requires room { IsSomeAnd (first_where (is_connection number) state.old.connections) (λ c. c.unwritten + count < 2 ^ 64) }
    ensures sound { IsAgentSound state.new }
    ensures state { state.new ≡ record state.old { connections = connection_changed number (with_more count) state.old.connections } }
{
    state.connections.add_unwritten(number, count);
}

/// So many bytes were written to a destination.
pub(crate) fn take_unwritten(state: &mut AgentState, number: u64, count: usize)
    requires sound { IsAgentSound state.old }
    requires there { IsSomeAnd (first_where (is_connection number) state.old.connections) (λ c. count ≤ c.unwritten) }
    ensures sound { IsAgentSound state.new }
    ensures state { state.new ≡ record state.old { connections = connection_changed number (with_fewer count) state.old.connections } }
{
    state.connections.take_unwritten(number, count);
}
