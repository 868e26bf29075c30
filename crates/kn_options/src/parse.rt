ghost use Rattle.std.specs.Prelude.{◌≡◌, [], map, true, option_map, IfOk, IfSome, IfNone};
ghost use Rattle.clap.specs.Words.{app_of, fault_of, found_of, first_of, is_simple, is_simple_and_free, matches_of, rows_of};

use clap::error::ErrorKind;
use clap::{ArgMatches, Command};
use kn_io::NoMemory;

/// The values that the words give to the options of a command, or none where the command does not take the words.
pub(crate) fn parse<'a>(
    command: Command<'a>,
    words: &'a [&'a str],
) -> Result<Option<ArgMatches<'a>>, NoMemory>
    requires simple { is_simple (app_of command) ≡ true }
    requires free { is_simple_and_free (app_of command) ≡ true }
    ensures taken { IfOk result (λ found. IfSome found (λ _. fault_of (app_of command.entry) (map (λ word. word.now) words.now) ≡ [])) }
    ensures values { IfOk result (λ found. IfSome found (λ matches. rows_of (found_of matches) ≡ matches_of (app_of command.entry) (map (λ word. word.now) words.now))) }
    ensures none { IfOk result (λ found. IfNone found (¬ (fault_of (app_of command.entry) (map (λ word. word.now) words.now) ≡ []))) }
{
    match command.try_get_matches_from(words) {
        Ok(matches) => Ok(Some(matches)),
        Err(error) => {
            if error.kind() == ErrorKind::OutOfMemory {
                Err(NoMemory)
            } else {
                Ok(None)
            }
        }
    }
}

/// The value of the option of this name, where it was given.
pub(crate) fn value_of<'a>(matches: &ArgMatches<'a>, name: &str) -> Option<&'a str>
    ensures { option_map (λ text. text.now) result ≡ first_of name.now (rows_of (found_of matches.now)) }
{
    matches.get_str(name)
}
