ghost use Rattle.std.specs.Prelude.{◌≡◌, ◌<◌, ℕ, ◌∷◌, length};
ghost use Rattle.kn_script.specs.Lines.{is_line_feed, lines_of};
ghost use Rattle.std.specs.List.{position};

const LINE_FEED: u8 = b'\n';

fn first_line_feed(bytes: &[u8]) -> Option<usize>
    ensures { result ≡ position is_line_feed bytes.now }
{
    bytes.iter().position(|byte| *byte == LINE_FEED)
}

/// The first line and what follows it.
pub fn next_line(bytes: &[u8]) -> (&[u8], &[u8])
    requires { 0 < length bytes.now }
    ensures lines { lines_of bytes.now ≡ result.0.now ∷ lines_of result.1.now }
    ensures shorter { length result.1.now < length bytes.now }
{
    match first_line_feed(bytes) {
        Some(at) => (&bytes[..at], &bytes[at + 1..]),
        None => (bytes, &bytes[bytes.len()..]),
    }
}

/// How many lines there are. A line ends with a line feed, which the last may lack; nothing after a last line
/// feed is no line.
pub fn line_count(bytes: &[u8]) -> usize
    ensures { result ≡ length (lines_of bytes.now) }
{
    let mut count = 0;
    let mut rest = bytes;
    while !rest.is_empty() {
        let (_line, after) = next_line(rest);
        count += 1;
        rest = after;
    }
    count
}

#[cfg(test)]
mod tests {
    use super::*;
    use std::process::Abort;

    const COUNTS: [(&str, usize); 6] = [
        ("", 0),
        ("\n", 1),
        ("a", 1),
        ("a\n", 1),
        ("a\nb", 2),
        ("\n\nb\n", 3),
    ];

    fn counts_all(rt: &impl Abort, cases: &[(&str, usize)]) {
        for (bytes, count) in cases {
            assert!(rt; line_count(bytes.as_bytes()) == *count, "{bytes:?}");
        }
    }

    #[test]
    fn counts_lines(rt: HostRuntime) {
        counts_all(&rt, &COUNTS);
    }
}
