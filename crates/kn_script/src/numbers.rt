ghost use Rattle.std.specs.Prelude.{◌≡◌, ◌-◌, ◌^◌, min, fold, ◌<◌};
ghost use Rattle.std.specs.List.{list_all};
ghost use Rattle.std.specs.Option.{option_map};
ghost use Rattle.kn_script.specs.Words.{is_digit, has_leading_zero, is_number, with_digit, number_of};
ghost use Rattle.kn_script.specs.Answers.{IsWithin};
ghost use Rattle.kn_script.specs.declared.made.TheConstants.{MAX_TAKE, MAX_ROUNDS};
ghost use Rattle.kn_script.specs.Script.{any_number, named, limited, dial_number, peer_number};

use crate::fault::ScriptReason;
use crate::made::{MAX_DIAL, MAX_ROUNDS, MAX_TAKE, Made};
use crate::places::Peer;

fn has_leading_zero(word: &[u8]) -> bool
    ensures { result ≡ has_leading_zero word.now }
{
    match word {
        [] => false,
        [_] => false,
        [first, _, ..] => *first == b'0',
    }
}

fn is_digits(word: &[u8]) -> bool
    ensures { result ≡ list_all is_digit word.now }
{
    word.iter().all(|digit| digit.is_ascii_digit())
}

/// Whether a word is decimal digits without a leading zero.
fn is_number(word: &[u8]) -> bool
    ensures { result ≡ is_number word.now }
{
    !word.is_empty() && is_digits(word) && !has_leading_zero(word)
}

/// The value of decimal digits, or 2^64 - 1 where it is larger.
fn capped_value(digits: &[u8]) -> u64
    ensures { result ≡ min (fold with_digit 0 digits.now) (2 ^ 64 - 1) }
{
    let mut value: u64 = 0;
    for digit in digits {
        value = value
            .saturating_mul(10)
            .saturating_add(u64::from(digit.saturating_sub(b'0')));
    }
    value
}

/// The number that a word spells in decimal digits without a sign or a leading zero, or 2^64 - 1 where it is
/// larger. `None` where the word is no number.
pub fn read_number(word: &str) -> Option<u64>
    ensures { result ≡ option_map (λ n. min n (2 ^ 64 - 1)) (number_of word.now) }
{
    if is_number(word.as_bytes()) {
        Some(capped_value(word.as_bytes()))
    } else {
        None
    }
}

/// The number of one of so many that earlier lines made.
pub fn named(made: usize, word: &str) -> Result<usize, ScriptReason>
    requires { made < 2 ^ 64 - 1 }
    ensures { result ≡ named made word.now }
{
    match read_number(word) {
        None => Err(ScriptReason::Number),
        Some(n) => {
            if 1 <= n && n <= made as u64 {
                Ok(n as usize)
            } else {
                Err(ScriptReason::Name)
            }
        }
    }
}

/// A number within a limit.
fn limited(low: u64, high: u64, word: &str) -> Result<u64, ScriptReason>
    requires { high < 2 ^ 64 - 1 }
    ensures { result ≡ limited low high word.now }
{
    match read_number(word) {
        None => Err(ScriptReason::Number),
        Some(n) => {
            if low <= n && n <= high {
                Ok(n)
            } else {
                Err(ScriptReason::Limit)
            }
        }
    }
}

/// The number of a dial.
pub fn dial_number(word: &str) -> Result<u64, ScriptReason>
    ensures { result ≡ dial_number word.now }
{
    limited(0, MAX_DIAL, word)
}

/// How many bytes a side takes.
pub fn taken_count(word: &str) -> Result<u64, ScriptReason>
    ensures { result ≡ limited 1 MAX_TAKE word.now }
{
    limited(1, MAX_TAKE, word)
}

/// How many rounds a `pass` has.
pub fn round_count(word: &str) -> Result<u64, ScriptReason>
    ensures { result ≡ limited 1 MAX_ROUNDS word.now }
{
    limited(1, MAX_ROUNDS, word)
}

/// The number of who has a connection to the server.
pub fn peer_number(made: Made, peer: Peer, word: &str) -> Result<usize, ScriptReason>
    requires { IsWithin made }
    ensures { result ≡ peer_number made peer word.now }
{
    match peer {
        Peer::Agent => named(made.agents, word),
        Peer::Client => named(made.clients, word),
    }
}
