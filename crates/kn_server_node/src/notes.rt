ghost use Rattle.std.specs.Prelude.{◌≡◌, [], true, OnOk};
ghost use Rattle.kn_server_node.specs.Noting.{Keeps, AreIn, is_in, without_number};

use crate::numbers::Numbers;
use kn_io::NoMemory;
use std::alloc::Global;

/// What is kept beside the connections of the server.
#[derive(Drop)]
pub struct Notes {
    /// Those that may have something to handle.
    pub ready: Numbers,
    /// Those that may have something to write, or are over.
    pub due: Numbers,
}

/// No notes. Takes no memory.
pub fn no_notes(alloc: Global) -> Notes
    ensures ready { result.ready ≡ [] }
    ensures due { result.due ≡ [] }
{
    Notes {
        ready: Numbers::new(alloc),
        due: Numbers::new(alloc),
    }
}

/// A connection may have something to write.
pub fn note_due(notes: &mut Notes, conn: u64) -> Result<(), NoMemory>
    ensures kept { Keeps notes.old notes.new }
    ensures due { OnOk result (is_in conn notes.new.due ≡ true) }
{
    notes.due.note(conn)
}

/// A connection may have something to handle, and something to write.
pub fn note(notes: &mut Notes, conn: u64) -> Result<(), NoMemory>
    ensures kept { Keeps notes.old notes.new }
    ensures noted { OnOk result (AreIn conn notes.new) }
{
    notes.ready.note(conn)?;
    notes.due.note(conn)
}
