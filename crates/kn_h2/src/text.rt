ghost use Rattle.std.specs.Prelude.{◌≡◌, ◌+◌, ◌<◌, ◌≤◌, ◌^◌, length, true, false, OnOk, IfSome};
ghost use Rattle.kn_windows.specs.Windows.{can_spend};
ghost use Rattle.kn_h2_state.specs.Streams.{stream_at, change, on_open};
ghost use Rattle.kn_h2_state.specs.Payloads.{content};
ghost use Rattle.kn_h2_state.specs.Effects.{with_text, data_taken, text_told, data_in, data_dropped, data_of};
ghost use Rattle.kn_h2_state.specs.Holding.{Holds};
ghost use Rattle.kn_h2.specs.Passing.{Passes};

use crate::ends::ended_if;
use crate::windows::spend;
use kn_frames::Frame;
use kn_h2_state::{H2Event, State, Stream, Streams, content, flags, has};
use kn_io::NoMemory;

/// A stream takes text that came in so many bytes of DATA. What is no text counts as taken.
fn take_in(stream: &mut Stream, count: u32, text: &[u8]) -> Result<(), NoMemory>
    requires room { can_spend stream.old.receive count ≡ true }
    requires part { length text.now ≤ count }
    requires owed { stream.old.owed + count < 2 ^ 32 }
    ensures { OnOk result (stream.new ≡ with_text count text.now stream.old) }
{
    stream.text.append(text)?;
    spend(&mut stream.receive, count);
    stream.owed += count - text.len() as u32;
    Ok(())
}

#[tactic(auto, using(crate::proofs::StreamLemmas::change_none))]
fn take_in_at(streams: &mut Streams, number: u32, count: u32, text: &[u8]) -> Result<(), NoMemory>
    requires room { IfSome (stream_at streams.old number) (λ st. can_spend st.receive count ≡ true) }
    requires part { length text.now ≤ count }
    requires owed { IfSome (stream_at streams.old number) (λ st. st.owed + count < 2 ^ 32) }
    ensures { OnOk result (streams.new ≡ change streams.old number (with_text count text.now)) }
{
    match streams.get_mut(number) {
        Some(stream) => take_in(stream, count, text),
        None => Ok(()),
    }
}

/// The windows shrink by the whole payload, and the text waits.
#[tactic(auto, unfolding(kn_h2_state::specs::Effects::data_taken))]
fn data_taken(state: &mut State, frame: &Frame, text: &[u8]) -> Result<(), NoMemory>
    requires limit { length frame.now.payload ≤ 16384 }
    requires text { text.now ≡ content frame.now }
    requires part { length text.now ≤ length frame.now.payload }
    requires room { can_spend state.old.receive (length frame.now.payload) ≡ true }
    requires owed { state.old.owed + length frame.now.payload < 2 ^ 32 }
    requires stream_room { IfSome (stream_at state.old.streams frame.now.stream) (λ st. can_spend st.receive (length frame.now.payload) ≡ true) }
    requires stream_owed { IfSome (stream_at state.old.streams frame.now.stream) (λ st. st.owed + length frame.now.payload < 2 ^ 32) }
    ensures { OnOk result (state.new ≡ data_taken frame.now state.old) }
{
    let count = frame.payload.len() as u32;
    take_in_at(&mut state.streams, frame.stream, count, text)?;
    spend(&mut state.receive, count);
    state.owed += count - text.len() as u32;
    Ok(())
}

/// Text is told where there is some.
fn text_told(state: &mut State, number: u32, text: &[u8]) -> Result<(), NoMemory>
    ensures { OnOk result (state.new ≡ text_told number text.now state.old) }
{
    if text.is_empty() {
        Ok(())
    } else {
        state.events.push(H2Event::Text { stream: number })
    }
}

/// DATA on an open stream.
#[tactic(auto, unfolding(kn_h2_state::specs::Effects::data_in))]
fn data_in(state: &mut State, frame: &Frame) -> Result<(), NoMemory>
    requires kind { frame.now.kind ≡ 0 }
    requires limit { length frame.now.payload ≤ 16384 }
    requires holds { Holds state.old }
    requires passes { Passes state.old frame.now }
    requires open { on_open state.old.streams frame.now.stream (λ st. true) ≡ true }
    ensures { OnOk result (state.new ≡ data_in frame.now state.old) }
{
    let text = content(frame);
    data_taken(state, frame, text)?;
    text_told(state, frame.stream, text)?;
    ended_if(state, has(frame, flags::END_STREAM), frame.stream)
}

/// DATA on a closed stream is dropped, and counts as taken on the connection.
#[tactic(auto, unfolding(kn_h2_state::specs::Effects::data_dropped))]
fn data_dropped(state: &mut State, frame: &Frame)
    requires limit { length frame.now.payload ≤ 16384 }
    requires room { can_spend state.old.receive (length frame.now.payload) ≡ true }
    requires owed { state.old.owed + length frame.now.payload < 2 ^ 32 }
    ensures { state.new ≡ data_dropped frame.now state.old }
{
    let count = frame.payload.len() as u32;
    spend(&mut state.receive, count);
    state.owed += count;
}

/// The stream of this number is open.
pub fn is_open_at(streams: &Streams, number: u32) -> bool
    ensures { result ≡ on_open streams.now number (λ st. true) }
{
    match streams.get(number) {
        Some(stream) => stream.peer_open || stream.own_open,
        None => false,
    }
}

/// DATA (RFC 9113, section 6.1).
pub fn take_data(state: &mut State, frame: &Frame) -> Result<(), NoMemory>
    requires kind { frame.now.kind ≡ 0 }
    requires limit { length frame.now.payload ≤ 16384 }
    requires holds { Holds state.old }
    requires passes { Passes state.old frame.now }
    ensures { OnOk result (state.new ≡ data_of frame.now state.old (stream_at state.old.streams frame.now.stream)) }
{
    if is_open_at(&state.streams, frame.stream) {
        data_in(state, frame)
    } else {
        data_dropped(state, frame);
        Ok(())
    }
}
