ghost use Rattle.std.specs.Prelude.{ℕ, ◌≤◌, ◌<◌, ◌≡◌, ◌^◌, IfOk, suc, ◌⊎◌};
ghost use Rattle.kn_hpack.specs.Faults.{Gives};
ghost use Rattle.kn_hpack.specs.Integers.{tail_at, integer_at};

use crate::fault::{HpackReason, TextError};

/// The continuation bytes, at most `left` of them.
#[tactic(auto, unfolding(crate::specs::Integers::tail_at))]
fn tail_of(bytes: &[u8], left: u8) -> Result<(u64, &[u8]), TextError>
    requires { left ≤ 5 }
    ensures value { Gives (λ x. (x.0, x.1.now)) result (tail_at left bytes.now) }
    ensures bound { IfOk result (λ x. x.0 < 128 ^ left) }
{
    match bytes {
        [] => Err(TextError::Fault(HpackReason::Cut)),
        [byte, rest @ ..] => {
            if left == 0 {
                return Err(TextError::Fault(HpackReason::Integer));
            }
            if *byte < 128 {
                return Ok((u64::from(*byte), rest));
            }
            let (high, rest) = tail_of(rest, left - 1)?;
            Ok((u64::from(*byte - 128) + 128 * high, rest))
        }
    }
}

/// The number at the front behind a prefix whose largest value is `top`, and the bytes after it
/// (RFC 7541, section 5.1).
#[tactic(auto, unfolding(crate::specs::Integers::integer_at))]
pub fn integer_at(bytes: &[u8], top: u8) -> Result<(u32, &[u8]), TextError>
    requires { top ≤ 127 }
    ensures value { Gives (λ x. (x.0, x.1.now)) result (integer_at top bytes.now) }
    ensures bound { IfOk result (λ x. x.0 ≤ 2147483647) }
{
    match bytes {
        [] => Err(TextError::Fault(HpackReason::Cut)),
        [byte, rest @ ..] => {
            let prefix = *byte % (top + 1);
            if prefix < top {
                return Ok((u32::from(prefix), rest));
            }
            let (more, rest) = tail_of(rest, 5)?;
            let number = u64::from(top) + more;
            if number > 2147483647 {
                return Err(TextError::Fault(HpackReason::Integer));
            }
            Ok((number as u32, rest))
        }
    }
}
