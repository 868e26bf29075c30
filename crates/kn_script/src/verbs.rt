// The first words of the lines of a script.
ghost use Rattle.std.specs.Prelude.{◌≡◌};
ghost use Rattle.kn_script.specs.Words.{verb_of, bare_verb_of, one_word_verb_of, two_word_verb_of, three_word_verb_of};

/// A verb that one word follows.
#[derive(Clone, Copy)]
pub enum OneWordVerb {
    Agent,
    Connect,
    Raw,
    Up,
    Refuse,
    End,
    Hang,
    Fail,
    Drain,
}

/// A verb that two words follow.
#[derive(Clone, Copy)]
pub enum TwoWordVerb {
    App,
    Send,
    Answer,
    Hold,
    Go,
    Lose,
}

/// A verb that three words follow.
#[derive(Clone, Copy)]
pub enum ThreeWordVerb {
    Take,
    Step,
}

/// A verb, by how many words follow it.
#[derive(Clone, Copy)]
pub enum Verb {
    Client,
    /// One word may follow it.
    Pass,
    OneWord(OneWordVerb),
    TwoWord(TwoWordVerb),
    ThreeWord(ThreeWordVerb),
}

fn one_word_verb_of(word: &str) -> Option<OneWordVerb>
    ensures { result ≡ one_word_verb_of word.now }
{
    if word == "agent" {
        Some(OneWordVerb::Agent)
    } else if word == "connect" {
        Some(OneWordVerb::Connect)
    } else if word == "raw" {
        Some(OneWordVerb::Raw)
    } else if word == "up" {
        Some(OneWordVerb::Up)
    } else if word == "refuse" {
        Some(OneWordVerb::Refuse)
    } else if word == "end" {
        Some(OneWordVerb::End)
    } else if word == "hang" {
        Some(OneWordVerb::Hang)
    } else if word == "fail" {
        Some(OneWordVerb::Fail)
    } else if word == "drain" {
        Some(OneWordVerb::Drain)
    } else {
        None
    }
}

fn two_word_verb_of(word: &str) -> Option<TwoWordVerb>
    ensures { result ≡ two_word_verb_of word.now }
{
    if word == "app" {
        Some(TwoWordVerb::App)
    } else if word == "send" {
        Some(TwoWordVerb::Send)
    } else if word == "answer" {
        Some(TwoWordVerb::Answer)
    } else if word == "hold" {
        Some(TwoWordVerb::Hold)
    } else if word == "go" {
        Some(TwoWordVerb::Go)
    } else if word == "lose" {
        Some(TwoWordVerb::Lose)
    } else {
        None
    }
}

fn three_word_verb_of(word: &str) -> Option<ThreeWordVerb>
    ensures { result ≡ three_word_verb_of word.now }
{
    if word == "take" {
        Some(ThreeWordVerb::Take)
    } else if word == "step" {
        Some(ThreeWordVerb::Step)
    } else {
        None
    }
}

fn bare_verb_of(word: &str) -> Option<Verb>
    ensures { result ≡ bare_verb_of word.now }
{
    if word == "client" {
        Some(Verb::Client)
    } else if word == "pass" {
        Some(Verb::Pass)
    } else {
        None
    }
}

/// The verb that a word is, if it is one.
pub fn verb_of(word: &str) -> Option<Verb>
    ensures { result ≡ verb_of word.now }
{
    if let Some(verb) = one_word_verb_of(word) {
        return Some(Verb::OneWord(verb));
    }
    if let Some(verb) = two_word_verb_of(word) {
        return Some(Verb::TwoWord(verb));
    }
    if let Some(verb) = three_word_verb_of(word) {
        return Some(Verb::ThreeWord(verb));
    }
    bare_verb_of(word)
}
