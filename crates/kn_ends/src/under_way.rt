//! How far it is to the end of the frame under way.

ghost use Rattle.std.specs.Prelude.{◌≡◌, ◌≤◌};
ghost use Rattle.kn_ends.specs.Missing as bytes;

use crate::carrier::Carrier;

/// How many bytes of the peer are missing to the end of the preface, of the head of a frame, or of its payload. Once
/// the connection was lost or has failed each byte stands by itself: it is 1. Takes no memory.
#[tactic(auto, unfolding(crate::specs::Missing::missing))]
pub fn missing(carrier: &Carrier) -> usize
    ensures value { result ≡ bytes.missing carrier.now }
    ensures some { 1 ≤ result }
{
    if carrier.lost {
        1
    } else {
        carrier.conn.missing()
    }
}
