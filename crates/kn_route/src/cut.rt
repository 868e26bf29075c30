ghost use Rattle.std.specs.Prelude.{◌≡◌, ◌==◌, ◌<◌, length, position, IfNone, IfSome};
ghost use Rattle.kn_route.specs.Cuts.{IsCut, IsStripped, IsFirstPart};

/// The parts of the text before and after the first such character, or none where it has none.
pub(crate) fn cut(text: &str, at: char) -> Option<(&str, &str)>
    requires { at < 128 }
    ensures { IsCut at text.now result }
{
    text.split_once(at)
}

/// What follows this character at the front of the text, or none where the text begins otherwise.
pub(crate) fn strip(text: &str, first: char) -> Option<&str>
    requires some { 0 < first }
    requires ascii { first < 128 }
    ensures { IsStripped first text.now result }
{
    text.strip_prefix(first)
}

fn first_place(bytes: &[u8], at: u8) -> Option<usize>
    ensures { result ≡ position (λ b. b == at) bytes.now }
{
    bytes.iter().position(|b| *b == at)
}

/// The part of the bytes before the first byte of this value, and what follows it, if it is there.
pub(crate) fn first_part(bytes: &[u8], at: u8) -> (&[u8], Option<&[u8]>)
    ensures parts { IsFirstPart at bytes.now result }
    ensures last { IfNone result.1 (result.0.now ≡ bytes.now) }
    ensures shorter { IfSome result.1 (λ rest. length rest.now < length bytes.now) }
{
    match first_place(bytes, at) {
        Some(place) => (&bytes[..place], Some(&bytes[place + 1..])),
        None => (bytes, None),
    }
}
