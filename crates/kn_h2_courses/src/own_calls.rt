//! What each call does to its own stream.

ghost use Rattle.kn_h2_courses.specs.OwnCalls.{CallsChangeTheirStream, CallsLeaveText};

/// What waits on the stream of a call, and whether it takes more, after it: `queue` appends, `reset` drops all, and
/// `finish` asks for the end. The text that nobody took is left by every call but `take`.
pub fn calls_change_their_stream()
    ensures waiting { CallsChangeTheirStream }
    ensures text { CallsLeaveText }
{}
