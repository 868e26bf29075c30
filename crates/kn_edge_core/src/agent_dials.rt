ghost use Rattle.std.specs.Prelude.{◌≡◌, ◌+◌, ◌++◌, ◌<◌, not, nat_lt, length, OnOk};
ghost use Rattle.kn_tables.specs.Lists.{first_where};
ghost use Rattle.kn_edge_core.specs.AgentTables.{is_dial};
ghost use Rattle.kn_edge_core.specs.Agent as spec;
ghost use Rattle.kn_edge_core.specs.Sound.{IsAgentSound};

use crate::agent_changes::{add_connection, add_dial, end_dial};
use crate::agent_event::AgentOut;
use crate::agent_outs::{refuse, refuse_dropping, start_dial, tell_opened};
use crate::agent_state::AgentState;
use crate::dial::Dial;
use kn_io::{NoMemory, Text};
use std::alloc::Global;

/// The most dials and connections of an agent together.
const CONNECTION_LIMIT: usize = 600;

/// The number that no dial and no connection draws: their numbers are below 2^63 − 1.
const LAST_NUMBER: u64 = 9_223_372_036_854_775_807;

// Whether the agent has as many dials and connections as it may have.
fn is_full(state: &AgentState) -> bool
    ensures { result ≡ not (nat_lt (length state.now.dials + length state.now.connections) CONNECTION_LIMIT) }
{
    let dials = state.dials.len();
    dials >= CONNECTION_LIMIT || state.connections.len() >= CONNECTION_LIMIT - dials
}

// Whether the agent may begin one more dial.
fn may_dial(state: &AgentState) -> bool
    ensures { result ≡ spec.may_dial state.now }
{
    if is_full(state) {
        false
    } else {
        state.next_ticket < LAST_NUMBER
    }
}

// A dial draws its ticket and begins.
fn dial_begun(
    state: &mut AgentState,
    address: Text,
    random: &i64,
    outs: &mut Vec<AgentOut>,
) -> Result<(), NoMemory>
    requires sound { IsAgentSound state.old }
    requires left { state.old.next_ticket < 9223372036854775807 }
    ensures sound { IsAgentSound state.new }
    ensures state { OnOk result (state.new ≡ (spec.dial_begun state.old address random.now).state) }
    ensures outs { OnOk result (outs.new.items ≡ outs.old.items ++ (spec.dial_begun state.old address random.now).outs) }
{
    let ticket = state.next_ticket;
    add_dial(state, random)?;
    start_dial(ticket, address, outs)
}

// The server asks for a dial by tcp.
fn tcp_asked(
    alloc: Global,
    state: &mut AgentState,
    address: Text,
    random: &i64,
    outs: &mut Vec<AgentOut>,
) -> Result<(), NoMemory>
    requires { IsAgentSound state.old }
    ensures sound { IsAgentSound state.new }
    ensures state { OnOk result (state.new ≡ (spec.tcp_asked state.old address random.now).state) }
    ensures outs { OnOk result (outs.new.items ≡ outs.old.items ++ (spec.tcp_asked state.old address random.now).outs) }
{
    if may_dial(state) {
        dial_begun(state, address, random, outs)
    } else {
        refuse(alloc, "too many connections", random, outs)
    }
}

/// The server asks for a dial.
pub(crate) fn dial_requested(
    alloc: Global,
    state: &mut AgentState,
    protocol: Text,
    address: Text,
    random: &i64,
    outs: &mut Vec<AgentOut>,
) -> Result<(), NoMemory>
    requires { IsAgentSound state.old }
    ensures sound { IsAgentSound state.new }
    ensures state { OnOk result (state.new ≡ (spec.dial_requested state.old protocol address random.now).state) }
    ensures outs { OnOk result (outs.new.items ≡ outs.old.items ++ (spec.dial_requested state.old protocol address random.now).outs) }
{
    if protocol.as_str() == "tcp" {
        tcp_asked(alloc, state, address, random, outs)
    } else {
        refuse(alloc, "unsupported protocol", random, outs)
    }
}

// The connection that a dial won draws its number.
fn connection_opened(
    alloc: Global,
    state: &mut AgentState,
    dial: Dial,
    outs: &mut Vec<AgentOut>,
) -> Result<(), NoMemory>
    requires sound { IsAgentSound state.old }
    requires left { state.old.next_connect_id < 9223372036854775807 }
    ensures sound { IsAgentSound state.new }
    ensures state { OnOk result (state.new ≡ (spec.connection_opened state.old dial).state) }
    ensures outs { OnOk result (outs.new.items ≡ outs.old.items ++ (spec.connection_opened state.old dial).outs) }
{
    let number = state.next_connect_id;
    add_connection(state)?;
    end_dial(state, dial.ticket);
    tell_opened(alloc, number, &dial.random, outs)
}

// A dial won a connection that no number is left for.
fn ids_used_up(
    alloc: Global,
    state: &mut AgentState,
    dial: Dial,
    outs: &mut Vec<AgentOut>,
) -> Result<(), NoMemory>
    requires { IsAgentSound state.old }
    ensures sound { IsAgentSound state.new }
    ensures state { OnOk result (state.new ≡ (spec.ids_used_up state.old dial).state) }
    ensures outs { OnOk result (outs.new.items ≡ outs.old.items ++ (spec.ids_used_up state.old dial).outs) }
{
    end_dial(state, dial.ticket);
    refuse_dropping(
        alloc,
        "connection ids used up",
        dial.ticket,
        &dial.random,
        outs,
    )
}

/// A dial won its connection.
pub(crate) fn dial_up(
    alloc: Global,
    state: &mut AgentState,
    ticket: u64,
    outs: &mut Vec<AgentOut>,
) -> Result<(), NoMemory>
    requires { IsAgentSound state.old }
    ensures sound { IsAgentSound state.new }
    ensures state { OnOk result (state.new ≡ (spec.dial_up state.old (first_where (is_dial ticket) state.old.dials)).state) }
    ensures outs { OnOk result (outs.new.items ≡ outs.old.items ++ (spec.dial_up state.old (first_where (is_dial ticket) state.old.dials)).outs) }
{
    match state.dials.find(ticket) {
        Some(dial) => {
            if state.next_connect_id < LAST_NUMBER {
                connection_opened(alloc, state, dial, outs)
            } else {
                ids_used_up(alloc, state, dial, outs)
            }
        }
        None => Ok(()),
    }
}

/// A dial failed.
pub(crate) fn dial_refused(
    alloc: Global,
    state: &mut AgentState,
    ticket: u64,
    outs: &mut Vec<AgentOut>,
) -> Result<(), NoMemory>
    requires { IsAgentSound state.old }
    ensures sound { IsAgentSound state.new }
    ensures state { OnOk result (state.new ≡ (spec.dial_refused state.old (first_where (is_dial ticket) state.old.dials)).state) }
    ensures outs { OnOk result (outs.new.items ≡ outs.old.items ++ (spec.dial_refused state.old (first_where (is_dial ticket) state.old.dials)).outs) }
{
    match state.dials.find(ticket) {
        Some(dial) => {
            end_dial(state, dial.ticket);
            refuse(alloc, "dial failed", &dial.random, outs)
        }
        None => Ok(()),
    }
}
