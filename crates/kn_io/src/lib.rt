// What the other crates know of the outside: owned texts and bytes, want of memory, where bytes come
// from and where they go, in memory and over std's readers and writers.
#![tactic(auto)]

mod blob;
mod memory_sink;
mod memory_source;
mod no_memory;
mod numbers;
mod sink;
mod source;
mod standard;
mod text;

pub use blob::Blob;
pub use memory_sink::MemSink;
pub use memory_source::MemSource;
pub use no_memory::NoMemory;
pub use sink::{Put, Sink};
pub use source::{Got, Source};
pub use standard::{StdSink, StdSource};
pub use text::Text;
