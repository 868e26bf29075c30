ghost use Rattle.std.specs.Prelude.{◌≡◌, IfOk};
ghost use Rattle.kn_server_core.specs.Texts.{error_cut};

use kn_io::{NoMemory, Text};
use std::alloc::Global;

/// The most bytes of an error text that are passed on.
const ERROR_LIMIT: usize = 256;

/// An error text as it is passed on: whole, or its longest prefix of whole characters that is not too long.
pub(crate) fn cut(alloc: Global, text: Text) -> Result<Text, NoMemory>
    ensures { IfOk result (λ t. t ≡ error_cut text) }
{
    if text.len() > ERROR_LIMIT {
        let whole = text.as_str();
        let (front, _) = whole.split_at(whole.floor_char_boundary(ERROR_LIMIT));
        Text::of(alloc, front)
    } else {
        Ok(text)
    }
}
