//! How far apps and dials have come.
ghost use Rattle.std.specs.Prelude.{◌≡◌};
ghost use Rattle.std.specs.List.{list_all, list_any};
ghost use Rattle.kn_world.specs.Views as spec;

use crate::event::{AppPhase, DialPhase};
use crate::numbered::Numbered;
use crate::parts::{Agent, App, Client, Dial, Stage};
use crate::state::State;
use crate::{clients, dials};
use kn_edge_core::{AppState, DestState};
use kn_server_core::ServerCore;
use kn_tables::{Held, HeldEntry, HeldState};

// An app of which a client knows, or does not.
fn phase_at_client(state: Option<AppState>) -> AppPhase
    ensures { result ≡ spec.phase_at_client state }
{
    match state {
        Some(AppState::Closing) => AppPhase::Closing,
        Some(AppState::Lingering) => AppPhase::Lingering,
        Some(AppState::Dialling) => AppPhase::Dialling,
        Some(AppState::Open) => AppPhase::Open,
        None => AppPhase::Open,
    }
}

/// How far an app has come.
pub fn app_phase(clients: &Numbered<Client>, app: &App) -> AppPhase
    ensures { result ≡ spec.app_phase app.now clients.now }
{
    match app.stage {
        Stage::Dialling => AppPhase::Dialling,
        Stage::Open => phase_at_client(clients::state_of(clients, app.home)),
        Stage::Refused => AppPhase::Refused,
        Stage::Ended => AppPhase::Ended,
    }
}

fn phase_at_agent(state: Option<DestState>) -> DialPhase
    ensures { result ≡ spec.phase_at_agent state }
{
    match state {
        Some(DestState::Open) => DialPhase::Open,
        Some(DestState::Lingering) => DialPhase::Lingering,
        None => DialPhase::Ended,
    }
}

fn phase_handled(agents: &Numbered<Agent>, dial: &Dial) -> DialPhase
    ensures { result ≡ spec.phase_handled dial.now agents.now }
{
    if dials::is_dialling(agents, dial) {
        DialPhase::Dialling
    } else {
        phase_at_agent(dials::state_of(agents, dial))
    }
}

/// How far a dial has come, by the agent of its link.
pub fn dial_phase(agents: &Numbered<Agent>, dial: &Dial) -> DialPhase
    ensures { result ≡ spec.dial_phase dial.now agents.now }
{
    if dial.handled {
        phase_handled(agents, dial)
    } else {
        DialPhase::Asked
    }
}

fn is_lingering(agents: &Numbered<Agent>, dial: &Dial) -> bool
    ensures { result ≡ spec.is_lingering agents.now dial.now }
{
    match dials::state_of(agents, dial) {
        Some(DestState::Lingering) => true,
        Some(DestState::Open) => false,
        None => false,
    }
}

fn is_same(a: bool, b: bool) -> bool
    ensures { result ≡ spec.is_same a b }
{
    if a { b } else { !b }
}

fn is_still_agent(agent: &Agent) -> bool
    ensures { result ≡ spec.is_still_agent agent.now }
{
    is_same(agent.at_server, agent.at_agent) && agent.core.dials() == 0
}

fn is_still_client(client: &Client) -> bool
    ensures { result ≡ spec.is_still_client client.now }
{
    is_same(client.at_server, client.at_client)
}

fn is_still_app(app: &App) -> bool
    ensures { result ≡ spec.is_still_app app.now }
{
    app.door.early.is_empty()
}

fn are_still_agents(agents: &[Agent]) -> bool
    ensures { result ≡ list_all spec.is_still_agent agents.now }
{
    agents.iter().all(|agent| is_still_agent(agent))
}

fn are_still_clients(clients: &[Client]) -> bool
    ensures { result ≡ list_all spec.is_still_client clients.now }
{
    clients.iter().all(|client| is_still_client(client))
}

fn are_still_apps(apps: &[App]) -> bool
    ensures { result ≡ list_all spec.is_still_app apps.now }
{
    apps.iter().all(|app| is_still_app(app))
}

fn none_lingers(agents: &Numbered<Agent>, dials: &[Dial]) -> bool
    ensures { result ≡ spec.none_lingers agents.now dials.now }
{
    for dial in dials {
        if is_lingering(agents, dial) {
            return false;
        }
    }
    true
}

/// Whether no agent dials or has a connection that lingers, no app's early bytes are kept, and each connection
/// that one end lost was lost by the other.
#[tactic(auto, unfolding(crate::specs::Views::is_still))]
pub fn is_still(state: &State) -> bool
    ensures { result ≡ spec.is_still state.now }
{
    are_still_agents(state.agents.as_slice())
        && are_still_clients(state.clients.as_slice())
        && are_still_apps(state.apps.as_slice())
        && none_lingers(&state.agents, state.dials.as_slice())
}

fn is_open_entry(entry: Option<HeldEntry>) -> bool
    ensures { result ≡ spec.is_open_entry entry }
{
    match entry {
        Some(entry) => match entry.state {
            HeldState::Open => true,
            HeldState::Closing => false,
        },
        None => false,
    }
}

// Whether a tunnel of a dial below a number is open.
fn has_open_below(held: &Held, number: u64) -> bool
    ensures { result ≡ spec.has_open_below number held.now }
{
    let mut left = number;
    'dials: while left > 0 {
        left -= 1;
        if is_open_entry(held.find_dial(left)) {
            return true;
        }
    }
    false
}

/// Whether the server holds an open tunnel.
pub fn has_open(server: &ServerCore) -> bool
    ensures { result ≡ list_any spec.is_open_held server.now.held }
{
    let held = server.held();
    let _first = held.first_of_front(0);
    let next = server.next_dial();
    has_open_below(held, next)
}

/// How many dials the agents make.
pub fn dial_sum(agents: &[Agent]) -> usize
    ensures { result ≡ spec.dials_from 0 agents.now }
{
    let mut sum: usize = 0;
    for agent in agents {
        sum = sum.saturating_add(agent.core.dials());
    }
    sum
}

/// How many connections the agents have.
pub fn connection_sum(agents: &[Agent]) -> usize
    ensures { result ≡ spec.connections_from 0 agents.now }
{
    let mut sum: usize = 0;
    for agent in agents {
        sum = sum.saturating_add(agent.core.connections());
    }
    sum
}
