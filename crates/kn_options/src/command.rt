ghost use Rattle.std.specs.Prelude.{◌≡◌, false, IfOk};
ghost use Rattle.clap.specs.Words.{app_of, with_rule, rule_of};
ghost use Rattle.kn_options.specs.Commands as spec;

use clap::{Arg, ArgAction, Command};
use std::alloc::{AllocError, Global};

/// An option with one value.
fn option<'a>(alloc: Global, name: &'a str, required: bool) -> Arg<'a>
    ensures rule { rule_of result ≡ spec.option_rule name.now required }
    ensures local { result.global ≡ false }
{
    Arg::new(alloc, name)
        .long(name)
        .required(required)
        .action(ArgAction::Set)
}

/// A command that has no option yet, not even for help.
fn bare<'a>(alloc: Global, name: &'a str) -> Command<'a>
    ensures { app_of result ≡ spec.bare_app name.now }
{
    Command::new(alloc, name)
        .no_binary_name(true)
        .disable_help_flag(true)
        .disable_version_flag(true)
}

fn with_option<'a>(
    alloc: Global,
    command: Command<'a>,
    name: &'a str,
    required: bool,
) -> Result<Command<'a>, AllocError>
    ensures { IfOk result (λ c. app_of c ≡ with_rule (app_of command.entry) (spec.option_rule name.now required)) }
{
    command.arg(option(alloc, name, required))
}

/// The options of `server`.
pub(crate) fn server_command<'a>(alloc: Global) -> Result<Command<'a>, AllocError>
    ensures { IfOk result (λ c. app_of c ≡ spec.server_app) }
{
    let command = bare(alloc, "server");
    let command = with_option(alloc, command, "agents", true)?;
    let command = with_option(alloc, command, "clients", true)?;
    let command = with_option(alloc, command, "connect", false)?;
    let command = with_option(alloc, command, "strategies", false)?;
    let command = with_option(alloc, command, "id", false)?;
    let command = with_option(alloc, command, "tunnels", false)?;
    let command = with_option(alloc, command, "turns", false)?;
    Ok(command)
}

/// The options of `agent`.
pub(crate) fn agent_command<'a>(alloc: Global) -> Result<Command<'a>, AllocError>
    ensures { IfOk result (λ c. app_of c ≡ spec.agent_app) }
{
    let command = bare(alloc, "agent");
    let command = with_option(alloc, command, "server", true)?;
    let command = with_option(alloc, command, "id", false)?;
    let command = with_option(alloc, command, "identifiers", false)?;
    let command = with_option(alloc, command, "drain", false)?;
    let command = with_option(alloc, command, "tunnels", false)?;
    let command = with_option(alloc, command, "turns", false)?;
    Ok(command)
}

/// The options of `client`.
pub(crate) fn client_command<'a>(alloc: Global) -> Result<Command<'a>, AllocError>
    ensures { IfOk result (λ c. app_of c ≡ spec.client_app) }
{
    let command = bare(alloc, "client");
    let command = with_option(alloc, command, "server", true)?;
    let command = with_option(alloc, command, "listen", true)?;
    let command = with_option(alloc, command, "address", true)?;
    let command = with_option(alloc, command, "tunnels", false)?;
    let command = with_option(alloc, command, "turns", false)?;
    Ok(command)
}
