ghost use Rattle.std.specs.Prelude.{◌≡◌, map};
ghost use Rattle.kn_options.specs.Programs.{program_named, program_of, is_net};

/// A program that uses the network.
#[derive(Clone, Copy, Debug, PartialEq, Eq)]
pub(crate) enum Program {
    Server,
    Agent,
    Client,
}

/// The program of this name.
pub(crate) fn program_named(word: &str) -> Option<Program>
    ensures { result ≡ program_named word.now }
{
    if word == "server" {
        Some(Program::Server)
    } else if word == "agent" {
        Some(Program::Agent)
    } else if word == "client" {
        Some(Program::Client)
    } else {
        None
    }
}

/// Whether the words, without the program's name, begin with the name of a program that uses the network.
pub fn is_net(words: &[&str]) -> bool
    ensures { result ≡ is_net (map (λ word. word.now) words.now) }
{
    match words {
        [] => false,
        [first, ..] => program_named(first).is_some(),
    }
}
