ghost use Rattle.std.specs.Prelude.{◌≡◌};
ghost use Rattle.kn_script.specs.Texts.{text_of_reason};

use kn_io::NoMemory;
use thiserror::Error;

/// Why a line is not a line of a script.
#[derive(Clone, Copy, Debug, PartialEq, Eq, Error)]
pub enum ScriptReason {
    /// A byte outside 32 to 126.
    #[error("bad byte")]
    Byte,
    /// The first word, or a fixed word after it, is none that is known.
    #[error("unknown word")]
    Word,
    /// There are too few words, too many, or an empty one.
    #[error("wrong count")]
    Count,
    /// Not decimal digits without leading zeros.
    #[error("bad number")]
    Number,
    /// Not an even number, above none, of lower-case hexadecimal digits.
    #[error("bad hex")]
    Hex,
    /// No earlier line made what is named.
    #[error("unknown name")]
    Name,
    /// A number, or what the line makes, is over a limit.
    #[error("over a limit")]
    Limit,
    /// Identifiers of an agent that cannot be read.
    #[error("bad identifiers")]
    Identifiers,
}

/// The first line that is not a line of a script, counted from 1, and why.
#[derive(Clone, Copy, Debug, PartialEq, Eq, Error)]
#[error("line {line}: {reason}")]
pub struct ScriptFault {
    pub line: usize,
    pub reason: ScriptReason,
}

/// Why a script was not read.
#[derive(Clone, Copy, Debug, PartialEq, Eq, Error)]
pub enum ScriptError {
    #[error("out of memory")]
    NoMemory,
    #[error("{0}")]
    Fault(ScriptFault),
}

/// Why a line was not read.
#[derive(Clone, Copy)]
pub enum LineError {
    NoMemory,
    Fault(ScriptReason),
}

/// The text of a reason, as its `Display` writes it too.
pub fn reason_text(reason: ScriptReason) -> &'static str
    ensures { result.now ≡ text_of_reason reason }
{
    match reason {
        ScriptReason::Byte => "bad byte",
        ScriptReason::Word => "unknown word",
        ScriptReason::Count => "wrong count",
        ScriptReason::Number => "bad number",
        ScriptReason::Hex => "bad hex",
        ScriptReason::Name => "unknown name",
        ScriptReason::Limit => "over a limit",
        ScriptReason::Identifiers => "bad identifiers",
    }
}

#[cfg(test)]
mod tests {
    use super::*;
    use std::alloc::Global;
    use std::process::Abort;
    use std::test::Fail;

    const REASONS: [(ScriptReason, &str); 8] = [
        (ScriptReason::Byte, "bad byte"),
        (ScriptReason::Word, "unknown word"),
        (ScriptReason::Count, "wrong count"),
        (ScriptReason::Number, "bad number"),
        (ScriptReason::Hex, "bad hex"),
        (ScriptReason::Name, "unknown name"),
        (ScriptReason::Limit, "over a limit"),
        (ScriptReason::Identifiers, "bad identifiers"),
    ];

    fn tells_all(
        rt: &impl Abort,
        alloc: Global,
        cases: &[(ScriptReason, &str)],
    ) -> Result<(), Fail> {
        for (reason, text) in cases {
            assert!(rt; reason_text(*reason) == *text, "{text:?}");
            let shown = format!(in alloc; "{reason}")?;
            assert!(rt; shown.as_str() == *text, "{text:?}");
        }
        Ok(())
    }

    #[test]
    fn tells_reasons(rt: HostRuntime) -> Result<(), Fail> {
        tells_all(&rt, rt.alloc(), &REASONS)
    }
}
