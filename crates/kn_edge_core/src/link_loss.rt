ghost use Rattle.std.specs.Prelude.{◌≡◌, ◌++◌, [], true, OnOk};
ghost use Rattle.kn_edge_core.specs.Agent as spec;
ghost use Rattle.kn_edge_core.specs.Sound.{IsAgentSound};

use crate::agent_event::AgentOut;
use crate::agent_outs::{ask_drain, close_number, drop_dial};
use crate::agent_state::AgentState;
use kn_io::NoMemory;

// Each dial is given up, by rising ticket.
fn dials_dropped(state: &mut AgentState, outs: &mut Vec<AgentOut>) -> Result<(), NoMemory>
    requires { IsAgentSound state.old }
    ensures sound { IsAgentSound state.new }
    ensures state { OnOk result (state.new ≡ record state.old { dials = [] }) }
    ensures outs { OnOk result (outs.new.items ≡ outs.old.items ++ spec.all_dropped state.old.dials) }
{
    while let Some(dial) = state.dials.take_first() {
        drop_dial(dial.ticket, outs)?;
    }
    Ok(())
}

// Each connection is closed, by rising connectID.
fn connections_closed(state: &mut AgentState, outs: &mut Vec<AgentOut>) -> Result<(), NoMemory>
    requires { IsAgentSound state.old }
    ensures sound { IsAgentSound state.new }
    ensures state { OnOk result (state.new ≡ record state.old { connections = [] }) }
    ensures outs { OnOk result (outs.new.items ≡ outs.old.items ++ spec.all_closed state.old.connections) }
{
    while let Some(connection) = state.connections.take_first() {
        close_number(connection.connect_id, outs)?;
    }
    Ok(())
}

/// The link to the server is lost: all is given up, and nothing happens from then on.
pub(crate) fn link_lost(state: &mut AgentState, outs: &mut Vec<AgentOut>) -> Result<(), NoMemory>
    requires { IsAgentSound state.old }
    ensures sound { IsAgentSound state.new }
    ensures state { OnOk result (state.new ≡ (spec.link_lost state.old).state) }
    ensures outs { OnOk result (outs.new.items ≡ outs.old.items ++ (spec.link_lost state.old).outs) }
{
    dials_dropped(state, outs)?;
    connections_closed(state, outs)?;
    state.lost = true;
    Ok(())
}

/// The agent asks for no further dials, once.
pub(crate) fn drain_now(state: &mut AgentState, outs: &mut Vec<AgentOut>) -> Result<(), NoMemory>
    requires { IsAgentSound state.old }
    ensures sound { IsAgentSound state.new }
    ensures state { OnOk result (state.new ≡ (spec.drain_now state.old).state) }
    ensures outs { OnOk result (outs.new.items ≡ outs.old.items ++ (spec.drain_now state.old).outs) }
{
    if state.drained {
        Ok(())
    } else {
        ask_drain(outs)?;
        state.drained = true;
        Ok(())
    }
}
