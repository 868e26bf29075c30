ghost use Rattle.std.specs.Prelude.{◌≡◌, ◌++◌, false, IfOk, OnOk};
ghost use Rattle.kn_frames.specs.Frames.{spelled};
ghost use Rattle.kn_h2_state.specs.Limits.{list_limit};
ghost use Rattle.kn_h2_state.specs.Outgoing.{put};
ghost use Rattle.kn_h2_state.specs.Payloads.{setting_text};
ghost use Rattle.kn_h2_state.specs.Calls.{opening, fresh_state};

use crate::events::Events;
use crate::head_decoder::HeadDecoder;
use crate::limits::{CONNECTION_WINDOW, DEFAULT_WINDOW, LIST_LIMIT, STREAM_LIMIT};
use crate::outgoing::Outgoing;
use crate::role::Role;
use crate::state::State;
use crate::streams::Streams;
use crate::writing::{write_frame, write_grant};
use kn_frames::PREFACE;
use kn_hpack::Encoder;
use kn_io::NoMemory;
use kn_windows::Window;
use std::alloc::Global;

/// SETTINGS with one setting, and MAX_HEADER_LIST_SIZE.
fn write_settings(out: &mut Outgoing, number: u8, value: u32) -> Result<(), NoMemory>
    ensures { OnOk result (out.new ≡ put out.old false (spelled 4 0 0 (setting_text number value ++ setting_text 6 list_limit))) }
{
    let [a, b, c, d] = value.to_be_bytes();
    let [e, f, g, h] = LIST_LIMIT.to_be_bytes();
    write_frame(
        out,
        false,
        4,
        0,
        0,
        &[0, number, a, b, c, d, 0, 6, e, f, g, h],
    )
}

/// The first frames of this end, and at a client the preface before them (RFC 9113, section 3.4).
#[tactic(auto, unfolding(crate::specs::Calls::opening))]
fn write_opening(out: &mut Outgoing, role: Role) -> Result<(), NoMemory>
    ensures { OnOk result (out.new ≡ put out.old false (opening role)) }
{
    match role {
        Role::Server => {
            write_settings(out, 3, STREAM_LIMIT as u32)?;
            write_grant(out, 0, CONNECTION_WINDOW - DEFAULT_WINDOW)?;
            Ok(())
        }
        Role::Client => {
            out.put(false, &PREFACE)?;
            write_settings(out, 2, 0)?;
            write_grant(out, 0, CONNECTION_WINDOW - DEFAULT_WINDOW)?;
            Ok(())
        }
    }
}

impl State {
    /// A connection before the first byte of its peer. The frames with which this end begins wait for the
    /// socket.
    #[tactic(auto, unfolding(crate::specs::Calls::fresh_state))]
    pub fn new(alloc: Global, role: Role) -> Result<State, NoMemory>
        ensures { IfOk result (λ state. state ≡ fresh_state role) }
    {
        let mut out = Outgoing::new(alloc);
        write_opening(&mut out, role)?;
        Ok(State {
            role,
            failed: None,
            began: false,
            away: false,
            block: None,
            decoder: HeadDecoder::new(alloc),
            encoder: Encoder::new(),
            initial: DEFAULT_WINDOW,
            most: None,
            receive: Window::new(CONNECTION_WINDOW),
            send: Window::new(DEFAULT_WINDOW),
            owed: 0,
            opened: 0,
            streams: Streams::new(alloc),
            out,
            events: Events::new(alloc),
        })
    }
}
