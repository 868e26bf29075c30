// Reads scripts, which name the events of a world line by line, and writes the report of a world as lines
// of text.
#![tactic(auto)]

mod events;
mod fault;
mod hexadecimal;
mod identifiers;
mod lines;
mod made;
mod more_words;
mod numbers;
mod one_word;
mod places;
mod reader;
mod reporting;
mod spelling;
mod verbs;
mod words;

pub use fault::{ScriptError, ScriptFault, ScriptReason, reason_text};
pub use lines::line_count;
pub use numbers::read_number;
pub use reader::read_script;
pub use reporting::report;
pub use spelling::spelled_scripts_are_read;
