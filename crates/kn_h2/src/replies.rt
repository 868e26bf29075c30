ghost use Rattle.std.specs.Prelude.{◌≡◌, ◌≤◌, length, OnOk};
ghost use Rattle.kn_h2_state.specs.Effects.{ping, goaway};

use kn_frames::Frame;
use kn_h2_state::{H2Event, State, flags, has, kinds, number_at, reply_frame};
use kn_io::NoMemory;

/// PING (RFC 9113, section 6.7): its eight bytes go back.
#[tactic(auto, unfolding(kn_h2_state::specs::Effects::ping))]
pub fn ping(state: &mut State, frame: &Frame) -> Result<(), NoMemory>
    requires { length frame.now.payload ≡ 8 }
    ensures { OnOk result (state.new ≡ ping frame.now state.old) }
{
    if has(frame, flags::ACK) {
        Ok(())
    } else {
        reply_frame(state, kinds::PING, flags::ACK, 0, frame.payload.as_slice())
    }
}

/// GOAWAY (RFC 9113, section 6.8): its code is told.
#[tactic(auto, unfolding(kn_h2_state::specs::Effects::goaway))]
pub fn goaway(state: &mut State, frame: &Frame) -> Result<(), NoMemory>
    requires { 8 ≤ length frame.now.payload }
    ensures { OnOk result (state.new ≡ goaway frame.now state.old) }
{
    state.away = true;
    let code = number_at(frame.payload.as_slice(), 4);
    state.events.push(H2Event::Away { code })
}
