use crate::{
    AgentOptions, ClientOptions, Help, Options, ServerOptions, help_of, is_net, read_options,
};
use std::alloc::Global;
use std::test::Fail;

static TAKEN: [&str; 6] = [
    "server --agents a --clients b",
    "server --clients=b --agents a --connect c --strategies destHost,default --id x --tunnels 3 --turns 18446744073709551615",
    "agent --server a",
    "agent --server a --id x --identifiers host=db&default-route=true --drain 1 --tunnels 2 --turns 3",
    "client --server a --listen b --address db:80",
    "client --address [::1]:80 --server a --tunnels 0 --listen b",
];

static REFUSED: [&str; 22] = [
    "",
    "serve",
    "replay default",
    "server",
    "server --agents a",
    "server --agents a --clients b more",
    "server --agents a --clients b --agents c",
    "server --agents a --clients b --server c",
    "server --agents a --clients b --strategies",
    "server --agents a --clients b --strategies first",
    "server --agents a --clients b --strategies default,default",
    "server --agents a --clients b --turns 007",
    "server --agents a --clients b --turns +5",
    "server --agents a --clients b --turns -5",
    "server --agents a --clients b --turns 18446744073709551616",
    "server --agents a --clients b --help",
    "agent --server a --identifiers what=db",
    "agent --server a --drain x",
    "client --server a --listen b",
    "client --server a --listen b --address db",
    "client --server a --listen b --address db:0",
    "client --server a --listen b --address db:80 -h",
];

fn words_of<'a>(alloc: Global, line: &'a str) -> Result<Vec<&'a str>, Fail> {
    let mut words = Vec::new(alloc);
    for word in line.split(' ') {
        words.push(word)?;
    }
    Ok(words)
}

fn options_of(alloc: Global, line: &str) -> Result<Option<Options>, Fail> {
    let words = words_of(alloc, line)?;
    Ok(read_options(alloc, &words)?)
}

/// The first of the lines that is taken, or is not.
fn first_that<'a>(
    alloc: Global,
    lines: &[&'a str],
    is_taken: bool,
) -> Result<Option<&'a str>, Fail> {
    for line in lines {
        if options_of(alloc, line)?.is_some() == is_taken {
            return Ok(Some(*line));
        }
    }
    Ok(None)
}

#[test]
fn words_are_taken(rt: HostRuntime) -> Result<(), Fail> {
    assert_eq!(rt; first_that(rt.alloc(), &TAKEN, false)?, None);
    Ok(())
}

#[test]
fn words_are_refused(rt: HostRuntime) -> Result<(), Fail> {
    assert_eq!(rt; first_that(rt.alloc(), &REFUSED, true)?, None);
    Ok(())
}

fn server_of(alloc: Global, line: &str) -> Result<Option<ServerOptions>, Fail> {
    match options_of(alloc, line)? {
        Some(Options::Server(options)) => Ok(Some(options)),
        _ => Ok(None),
    }
}

fn agent_of(alloc: Global, line: &str) -> Result<Option<AgentOptions>, Fail> {
    match options_of(alloc, line)? {
        Some(Options::Agent(options)) => Ok(Some(options)),
        _ => Ok(None),
    }
}

fn client_of(alloc: Global, line: &str) -> Result<Option<ClientOptions>, Fail> {
    match options_of(alloc, line)? {
        Some(Options::Client(options)) => Ok(Some(options)),
        _ => Ok(None),
    }
}

fn has_texts(options: &ServerOptions, agents: &str, clients: &str, id: &str) -> bool {
    options.agents.as_str() == agents
        && options.clients.as_str() == clients
        && options.id.as_str() == id
}

fn is_bare(options: &ServerOptions) -> bool {
    options.connect.is_none()
        && options.strategies.len() == 1
        && options.tunnels == 0
        && options.turns == 0
}

#[test]
fn a_server_has_its_defaults(rt: HostRuntime) -> Result<(), Fail> {
    let found = server_of(rt.alloc(), "server --agents a --clients b")?;
    let Some(options) = found else {
        assert!(rt; false);
        return Ok(());
    };
    assert!(rt; has_texts(&options, "a", "b", "server") && is_bare(&options));
    Ok(())
}

fn has_agent_texts(options: &AgentOptions, server: &str, id: &str, identifiers: &str) -> bool {
    options.server.as_str() == server
        && options.id.as_str() == id
        && options.identifiers.as_str() == identifiers
}

#[test]
fn an_agent_has_its_defaults(rt: HostRuntime) -> Result<(), Fail> {
    let found = agent_of(rt.alloc(), "agent --server a --drain 7")?;
    let Some(options) = found else {
        assert!(rt; false);
        return Ok(());
    };
    assert!(rt; has_agent_texts(&options, "a", "agent", ""));
    assert_eq!(rt; (options.drain, options.tunnels, options.turns), (7, 0, 0));
    Ok(())
}

fn has_client_texts(options: &ClientOptions, server: &str, listen: &str, address: &str) -> bool {
    options.server.as_str() == server
        && options.listen.as_str() == listen
        && options.address.as_str() == address
}

#[test]
fn a_client_has_what_was_given(rt: HostRuntime) -> Result<(), Fail> {
    let line = "client --server a --listen b --address db:80 --tunnels 2";
    let found = client_of(rt.alloc(), line)?;
    let Some(options) = found else {
        assert!(rt; false);
        return Ok(());
    };
    assert!(rt; has_client_texts(&options, "a", "b", "db:80"));
    assert_eq!(rt; (options.tunnels, options.turns), (2, 0));
    Ok(())
}

static QUESTIONS: [(&str, Option<Help>); 8] = [
    ("--help", Some(Help::General)),
    ("--version", Some(Help::Version)),
    ("server --help", Some(Help::Server)),
    ("agent --help", Some(Help::Agent)),
    ("client --help", Some(Help::Client)),
    ("replay --help", None),
    ("--help server", None),
    ("server -h", None),
];

fn help_on(alloc: Global, line: &str) -> Result<Option<Help>, Fail> {
    let words = words_of(alloc, line)?;
    Ok(help_of(&words))
}

/// The first question that has another answer.
fn first_wrong(
    alloc: Global,
    rows: &[(&'static str, Option<Help>)],
) -> Result<Option<&'static str>, Fail> {
    for (line, want) in rows {
        if help_on(alloc, line)? != *want {
            return Ok(Some(*line));
        }
    }
    Ok(None)
}

#[test]
fn questions_about_the_program_have_five_forms(rt: HostRuntime) -> Result<(), Fail> {
    assert_eq!(rt; first_wrong(rt.alloc(), &QUESTIONS)?, None);
    Ok(())
}

#[test]
fn the_version_is_a_line(rt: HostRuntime) {
    assert_eq!(rt; Help::Version.text(), "kn 0.1.0\n");
}

#[test]
fn three_names_use_the_network(rt: HostRuntime) {
    assert!(rt; is_net(&["agent"]));
    assert!(rt; !is_net(&["agents"]));
}
