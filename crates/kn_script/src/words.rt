ghost use Rattle.std.specs.Prelude.{◌≡◌, ◌==◌, length, true, false, MatchOption, Option, List, ℕ, ◌∷◌, []};
ghost use Rattle.std.specs.Option.{option_map, option_map_or, option_copied};
ghost use Rattle.std.specs.List.{list_all};
ghost use Rattle.kn_script.specs.Lines.{pieces_of};
ghost use Rattle.kn_script.specs.Words.{is_script_byte, no_word, one_word, with_first, two_words, before_two, three_words};
ghost use Rattle.kn_script.specs.Pieces.{pieces_left};

/// The text of a line, where all of its bytes may stand in a script.
pub fn text_of(line: &[u8]) -> Option<&str>
    ensures { MatchOption result (list_all is_script_byte line.now ≡ false) (λ text. (list_all is_script_byte line.now ≡ true) × (text.now ≡ line.now)) }
{
    if !are_script_bytes(line) {
        return None;
    }
    match str::from_utf8(line) {
        Ok(text) => Some(text),
        Err(_) => unreachable!(),
    }
}

fn are_script_bytes(line: &[u8]) -> bool
    ensures { result ≡ list_all is_script_byte line.now }
{
    line.iter().all(|byte| b' ' <= *byte && *byte <= b'~')
}

/// What stands before the first space, and what stands after it where there is one.
pub fn cut(text: &str) -> (&str, Option<&str>)
    ensures { pieces_of text.now ≡ result.0.now ∷ pieces_left result.1 }
{
    match text.split_once(' ') {
        Some((first, rest)) => (first, Some(rest)),
        None => (text, None),
    }
}

/// Whether no word is left.
pub fn no_word(left: Option<&str>) -> bool
    ensures { result ≡ no_word (pieces_left left.entry) }
{
    match left {
        None => true,
        Some(_) => false,
    }
}

/// The one word that is left, where it is one and not empty.
pub fn one_word<'a>(left: Option<&'a str>) -> Option<&'a str>
    ensures { option_copied result ≡ one_word (pieces_left left.entry) }
{
    match left {
        None => None,
        Some(text) => only_word(cut(text)),
    }
}

/// The first piece, where nothing follows it and it is not empty.
fn only_word<'a>(pieces: (&'a str, Option<&'a str>)) -> Option<&'a str>
    ensures { option_copied result ≡ one_word (pieces.entry.0.now ∷ pieces_left pieces.entry.1) }
{
    match pieces.1 {
        Some(_) => None,
        None => {
            if pieces.0.is_empty() {
                None
            } else {
                Some(pieces.0)
            }
        }
    }
}

/// The two words that are left, where they are two and not empty.
pub fn two_words<'a>(left: Option<&'a str>) -> Option<(&'a str, &'a str)>
    ensures { option_map (λ words. (words.0.now, words.1.now)) result ≡ two_words (pieces_left left.entry) }
{
    match left {
        None => None,
        Some(text) => {
            let (first, after) = cut(text);
            with_first(first, one_word(after))
        }
    }
}

/// Two words of which the first may be empty and the second missing.
fn with_first<'a>(first: &'a str, second: Option<&'a str>) -> Option<(&'a str, &'a str)>
    ensures { option_map (λ words. (words.0.now, words.1.now)) result ≡ with_first first.now (option_copied second.entry) }
{
    if first.is_empty() {
        None
    } else {
        match second {
            None => None,
            Some(second) => Some((first, second)),
        }
    }
}

/// Three words.
#[derive(Clone, Copy)]
pub struct Three<'a> {
    pub first: &'a str,
    pub second: &'a str,
    pub third: &'a str,
}

/// The three words that are left, where they are three and not empty.
pub fn three_words<'a>(left: Option<&'a str>) -> Option<Three<'a>>
    ensures { option_map (λ words. (words.first.now, (words.second.now, words.third.now))) result ≡ three_words (pieces_left left.entry) }
{
    match left {
        None => None,
        Some(text) => {
            let (first, after) = cut(text);
            before_two(first, two_words(after))
        }
    }
}

/// Three words of which the first may be empty and the others missing.
fn before_two<'a>(first: &'a str, others: Option<(&'a str, &'a str)>) -> Option<Three<'a>>
    ensures { option_map (λ words. (words.first.now, (words.second.now, words.third.now))) result
        ≡ before_two first.now (option_map (λ words. (words.0.now, words.1.now)) others.entry) }
{
    if first.is_empty() {
        None
    } else {
        match others {
            None => None,
            Some((second, third)) => Some(Three {
                first,
                second,
                third,
            }),
        }
    }
}
