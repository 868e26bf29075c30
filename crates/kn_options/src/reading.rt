ghost use Rattle.std.specs.Prelude.{◌≡◌, List, ℕ, map, IfOk, IfSome, IfNone};
ghost use Rattle.clap.specs.Words.{found_of, rows_of};
ghost use Rattle.kn_options.specs.Asked.{Asks, Takes};
ghost use Rattle.kn_options.specs.Commands.{server_app, agent_app, client_app};
ghost use Rattle.kn_options.specs.Values.{IsServer, IsAgent, IsClient};
ghost use Rattle.kn_options.specs.declared.options.Options.{Options};
ghost use Rattle.kn_options.specs.declared.options.ServerOptions.{ServerOptions};
ghost use Rattle.kn_options.specs.declared.options.AgentOptions.{AgentOptions};
ghost use Rattle.kn_options.specs.declared.options.ClientOptions.{ClientOptions};

use crate::command::{agent_command, client_command, server_command};
use crate::parse::{parse, value_of};
use crate::program::{Program, program_named};
use crate::values::{
    copy_of, has_host, has_identifiers, is_id, number_or_zero, strategies_of, text_or,
};
use crate::{AgentOptions, ClientOptions, Options, ServerOptions};
use clap::ArgMatches;
use kn_io::{NoMemory, Text};
use std::alloc::Global;

/// The options of `server`, or none where a value is out of form.
fn server_options(
    alloc: Global,
    matches: &ArgMatches<'_>,
) -> Result<Option<ServerOptions>, NoMemory>
    ensures found { IfOk result (λ found. IfSome found (IsServer (rows_of (found_of matches.now)))) }
    ensures none { IfOk result (λ found. IfNone found ((o : ServerOptions) → ¬ IsServer (rows_of (found_of matches.now)) o)) }
{
    let Some(tunnels) = number_or_zero(value_of(matches, "tunnels")) else {
        return Ok(None);
    };
    let Some(turns) = number_or_zero(value_of(matches, "turns")) else {
        return Ok(None);
    };
    let Some(agents) = value_of(matches, "agents") else {
        return Ok(None);
    };
    let Some(clients) = value_of(matches, "clients") else {
        return Ok(None);
    };
    let id = text_or(value_of(matches, "id"), "server");
    if !is_id(id) {
        return Ok(None);
    }
    let list = text_or(value_of(matches, "strategies"), "default");
    match strategies_of(alloc, list) {
        Err(_) => Err(NoMemory),
        Ok(None) => Ok(None),
        Ok(Some(strategies)) => Ok(Some(ServerOptions {
            agents: Text::of(alloc, agents)?,
            clients: Text::of(alloc, clients)?,
            connect: copy_of(alloc, value_of(matches, "connect"))?,
            strategies,
            id: Text::of(alloc, id)?,
            tunnels,
            turns,
        })),
    }
}

/// The options of `agent`, or none where a value is out of form.
fn agent_options(alloc: Global, matches: &ArgMatches<'_>) -> Result<Option<AgentOptions>, NoMemory>
    ensures found { IfOk result (λ found. IfSome found (IsAgent (rows_of (found_of matches.now)))) }
    ensures none { IfOk result (λ found. IfNone found ((o : AgentOptions) → ¬ IsAgent (rows_of (found_of matches.now)) o)) }
{
    let Some(drain) = number_or_zero(value_of(matches, "drain")) else {
        return Ok(None);
    };
    let Some(tunnels) = number_or_zero(value_of(matches, "tunnels")) else {
        return Ok(None);
    };
    let Some(turns) = number_or_zero(value_of(matches, "turns")) else {
        return Ok(None);
    };
    let Some(server) = value_of(matches, "server") else {
        return Ok(None);
    };
    let id = text_or(value_of(matches, "id"), "agent");
    if !is_id(id) {
        return Ok(None);
    }
    let identifiers = text_or(value_of(matches, "identifiers"), "");
    match has_identifiers(alloc, identifiers) {
        Err(_) => Err(NoMemory),
        Ok(false) => Ok(None),
        Ok(true) => Ok(Some(AgentOptions {
            server: Text::of(alloc, server)?,
            id: Text::of(alloc, id)?,
            identifiers: Text::of(alloc, identifiers)?,
            drain,
            tunnels,
            turns,
        })),
    }
}

/// The options of `client`, or none where a value is out of form.
fn client_options(
    alloc: Global,
    matches: &ArgMatches<'_>,
) -> Result<Option<ClientOptions>, NoMemory>
    ensures found { IfOk result (λ found. IfSome found (IsClient (rows_of (found_of matches.now)))) }
    ensures none { IfOk result (λ found. IfNone found ((o : ClientOptions) → ¬ IsClient (rows_of (found_of matches.now)) o)) }
{
    let Some(tunnels) = number_or_zero(value_of(matches, "tunnels")) else {
        return Ok(None);
    };
    let Some(turns) = number_or_zero(value_of(matches, "turns")) else {
        return Ok(None);
    };
    let Some(server) = value_of(matches, "server") else {
        return Ok(None);
    };
    let Some(listen) = value_of(matches, "listen") else {
        return Ok(None);
    };
    let Some(address) = value_of(matches, "address") else {
        return Ok(None);
    };
    if !has_host(address) {
        return Ok(None);
    }
    Ok(Some(ClientOptions {
        server: Text::of(alloc, server)?,
        listen: Text::of(alloc, listen)?,
        address: Text::of(alloc, address)?,
        tunnels,
        turns,
    }))
}

fn read_server(alloc: Global, words: &[&str]) -> Result<Option<ServerOptions>, NoMemory>
    ensures found { IfOk result (λ found. IfSome found (λ o. Takes server_app (map (λ word. word.now) words.now) (λ values. IsServer values o))) }
    ensures none { IfOk result (λ found. IfNone found ((o : ServerOptions) → ¬ Takes server_app (map (λ word. word.now) words.now) (λ values. IsServer values o))) }
{
    let command = server_command(alloc)?;
    match parse(command, words) {
        Err(_) => Err(NoMemory),
        Ok(None) => Ok(None),
        Ok(Some(matches)) => server_options(alloc, &matches),
    }
}

fn read_agent(alloc: Global, words: &[&str]) -> Result<Option<AgentOptions>, NoMemory>
    ensures found { IfOk result (λ found. IfSome found (λ o. Takes agent_app (map (λ word. word.now) words.now) (λ values. IsAgent values o))) }
    ensures none { IfOk result (λ found. IfNone found ((o : AgentOptions) → ¬ Takes agent_app (map (λ word. word.now) words.now) (λ values. IsAgent values o))) }
{
    let command = agent_command(alloc)?;
    match parse(command, words) {
        Err(_) => Err(NoMemory),
        Ok(None) => Ok(None),
        Ok(Some(matches)) => agent_options(alloc, &matches),
    }
}

fn read_client(alloc: Global, words: &[&str]) -> Result<Option<ClientOptions>, NoMemory>
    ensures found { IfOk result (λ found. IfSome found (λ o. Takes client_app (map (λ word. word.now) words.now) (λ values. IsClient values o))) }
    ensures none { IfOk result (λ found. IfNone found ((o : ClientOptions) → ¬ Takes client_app (map (λ word. word.now) words.now) (λ values. IsClient values o))) }
{
    let command = client_command(alloc)?;
    match parse(command, words) {
        Err(_) => Err(NoMemory),
        Ok(None) => Ok(None),
        Ok(Some(matches)) => client_options(alloc, &matches),
    }
}

/// What the words, without the program's name, ask for, or none where they are not those of a command that uses
/// the network.
pub fn read_options(alloc: Global, words: &[&str]) -> Result<Option<Options>, NoMemory>
    ensures found { IfOk result (λ found. IfSome found (Asks (map (λ word. word.now) words.now))) }
    ensures none { IfOk result (λ found. IfNone found ((options : Options) → ¬ Asks (map (λ word. word.now) words.now) options)) }
{
    let Some((first, rest)) = words.split_first() else {
        return Ok(None);
    };
    match program_named(first) {
        None => Ok(None),
        Some(Program::Server) => match read_server(alloc, rest) {
            Err(_) => Err(NoMemory),
            Ok(None) => Ok(None),
            Ok(Some(options)) => Ok(Some(Options::Server(options))),
        },
        Some(Program::Agent) => match read_agent(alloc, rest) {
            Err(_) => Err(NoMemory),
            Ok(None) => Ok(None),
            Ok(Some(options)) => Ok(Some(Options::Agent(options))),
        },
        Some(Program::Client) => match read_client(alloc, rest) {
            Err(_) => Err(NoMemory),
            Ok(None) => Ok(None),
            Ok(Some(options)) => Ok(Some(Options::Client(options))),
        },
    }
}
