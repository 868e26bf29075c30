ghost use Rattle.std.specs.Prelude.{◌≡◌, map, option_map};
ghost use Rattle.kn_options.specs.Help as spec;

use crate::program::{Program, program_named};
use crate::texts::{ABOUT, ABOUT_AGENT, ABOUT_CLIENT, ABOUT_SERVER, VERSION};

/// What a person may ask the program about itself.
#[derive(Clone, Copy, Debug, PartialEq, Eq)]
pub enum Help {
    Version,
    General,
    Server,
    Agent,
    Client,
}

impl Help {
    /// The text that answers it.
    #[tactic(auto, unfolding(crate::specs::Help::text_of))]
    pub fn text(self) -> &'static str
        ensures { result.now ≡ spec.text_of self }
    {
        match self {
            Help::Version => VERSION,
            Help::General => ABOUT,
            Help::Server => ABOUT_SERVER,
            Help::Agent => ABOUT_AGENT,
            Help::Client => ABOUT_CLIENT,
        }
    }
}

fn help_on(program: Program) -> Help
    ensures { result ≡ spec.help_on program }
{
    match program {
        Program::Server => Help::Server,
        Program::Agent => Help::Agent,
        Program::Client => Help::Client,
    }
}

fn help_of_one(word: &str) -> Option<Help>
    ensures { result ≡ spec.help_of_one word.now }
{
    if word == "--help" {
        Some(Help::General)
    } else if word == "--version" {
        Some(Help::Version)
    } else {
        None
    }
}

fn help_of_two(command: &str, word: &str) -> Option<Help>
    ensures { result ≡ spec.help_of_two command.now word.now }
{
    if word != "--help" {
        return None;
    }
    match program_named(command) {
        Some(program) => Some(help_on(program)),
        None => None,
    }
}

/// What the words, without the program's name, ask about the program: `--help` or `--version` alone, or the name of
/// a program that uses the network and `--help`.
pub fn help_of(words: &[&str]) -> Option<Help>
    ensures { result ≡ spec.help_of (map (λ word. word.now) words.now) }
{
    let Some((first, rest)) = words.split_first() else {
        return None;
    };
    match rest.split_first() {
        None => help_of_one(first),
        Some((second, more)) => {
            if more.is_empty() {
                help_of_two(first, second)
            } else {
                None
            }
        }
    }
}
