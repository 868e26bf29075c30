ghost use Rattle.std.specs.Prelude.{◌≡◌, ◌<◌, ◌^◌};
ghost use Rattle.kn_h2_state.specs.Effects.{new_stream};

use kn_h2_state::{ByteQueue, STREAM_WINDOW, State, Stream};
use kn_windows::Window;
use std::alloc::Global;

/// A stream at its beginning: both halves are open. Takes no memory.
pub fn new_stream(alloc: Global, number: u32, state: &State) -> Stream
    requires { state.now.initial < 2 ^ 31 }
    ensures { result ≡ new_stream number state.now }
{
    Stream {
        number,
        receive: Window::new(STREAM_WINDOW),
        send: Window::new(state.initial),
        text: ByteQueue::new(alloc),
        owed: 0,
        queue: ByteQueue::new(alloc),
        answered: false,
        peer_open: true,
        own_open: true,
        finish: None,
        resets: false,
    }
}
