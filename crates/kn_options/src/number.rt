ghost use Rattle.std.specs.Prelude.{◌≡◌, ◌<◌, length, IsTrue};
ghost use Rattle.std.specs.Char.{is_ascii_digit};
ghost use Rattle.std.specs.List.{list_all};
ghost use Rattle.kn_options.specs.Numbers.{has_leading_zero, number_in, value_in};

fn has_leading_zero(word: &[u8]) -> bool
    ensures { result ≡ has_leading_zero word.now }
{
    match word {
        [] => false,
        [_] => false,
        [first, _, ..] => *first == b'0',
    }
}

fn is_digits(word: &[u8]) -> bool
    ensures { result ≡ list_all is_ascii_digit word.now }
{
    word.iter().all(|digit| digit.is_ascii_digit())
}

/// The value of decimal digits, where it has at most 64 bits.
fn value_of(digits: &str) -> Option<u64>
    requires some { 0 < length digits.now }
    requires digits { IsTrue (list_all is_ascii_digit digits.now) }
    ensures { result ≡ value_in digits.now }
{
    match digits.parse::<u64>() {
        Ok(number) => Some(number),
        Err(_) => None,
    }
}

/// The number that the word spells in decimal digits without a sign or a leading zero, where it has at most 64
/// bits.
pub(crate) fn read_number(word: &str) -> Option<u64>
    ensures { result ≡ number_in word.now }
{
    let digits = word.as_bytes();
    if digits.is_empty() {
        None
    } else if has_leading_zero(digits) {
        None
    } else if is_digits(digits) {
        value_of(word)
    } else {
        None
    }
}
