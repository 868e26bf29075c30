//! How far it is to the end of the frame under way.

ghost use Rattle.std.specs.Prelude.{◌≡◌, ◌≤◌};
ghost use Rattle.kn_h2.specs.Missing.{missing, FewerChangeNothing, AsManyBringOne};

use crate::conn::Conn;

impl Conn {
    /// How many bytes of the peer are missing to the end of the preface, of the head of a frame, or of its payload.
    /// Once the connection has failed each byte stands by itself: it is 1. Takes no memory.
    #[tactic(auto, unfolding(crate::specs::Missing::missing))]
    pub fn missing(&self) -> usize
        ensures value { result ≡ missing self.now }
        ensures some { 1 ≤ result }
    {
        if self.state.failed.is_some() {
            1
        } else {
            self.cutter.missing()
        }
    }
}

/// Fewer bytes than are missing change nothing but what cuts them, and as many bring at most one frame; unless a
/// fault is among them.
pub fn frames_end_with_the_missing()
    ensures fewer { FewerChangeNothing }
    ensures as_many { AsManyBringOne }
{}
