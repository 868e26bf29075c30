ghost use Rattle.std.specs.Prelude.{◌≡◌, Some};
ghost use Rattle.kn_h2_state.specs.Holding.{Holds};

use kn_h2_state::{CONNECTION_WINDOW, DEFAULT_WINDOW, Outgoing, State};
use kn_windows::Window;
use std::alloc::Global;

/// The code of a connection that had no memory (RFC 9113, section 7).
const INTERNAL_ERROR: u32 = 2;

/// After want of memory the connection has failed, and holds nothing that a rule could rest on. Takes no
/// memory.
pub fn ruin(state: &mut State, alloc: Global)
    ensures holds { Holds state.new }
    ensures failed { state.new.failed ≡ Some 2 }
{
    state.failed = Some(INTERNAL_ERROR);
    state.block = None;
    state.initial = DEFAULT_WINDOW;
    state.receive = Window::new(CONNECTION_WINDOW);
    state.owed = 0;
    state.opened = 0;
    state.streams.clear();
    state.out = Outgoing::new(alloc);
}
