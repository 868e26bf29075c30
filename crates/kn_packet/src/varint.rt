ghost use Rattle.std.specs.Prelude.{◌≡◌, ◌<◌, ◌≤◌, ◌*◌, ◌^◌, MatchResult, IfOk};
ghost use Rattle.kn_packet.specs.Scanning.{scanned, whole, scan_of_fault};

/// Why no varint stands at the front of some bytes.
#[derive(Clone, Copy, Debug, PartialEq, Eq)]
pub enum VarintFault {
    Unfinished,
    TooLong,
}

/// The varint at the front of the bytes, and the bytes after it.
pub fn read_varint(bytes: &[u8]) -> Result<(u64, &[u8]), VarintFault>
    ensures { MatchResult result
        (λ x. scanned 9 bytes.now ≡ whole x.0 x.1.now)
        (λ e. scanned 9 bytes.now ≡ scan_of_fault e) }
{
    varint_within(9, bytes)
}

/// A varint that may have so many bytes after its first.
#[tactic(auto, unfolding(crate::specs::Scanning::scanned))]
fn varint_within(more: u8, bytes: &[u8]) -> Result<(u64, &[u8]), VarintFault>
    requires { more ≤ 9 }
    ensures scan { MatchResult result
        (λ x. scanned more bytes.now ≡ whole x.0 x.1.now)
        (λ e. scanned more bytes.now ≡ scan_of_fault e) }
    ensures bound { IfOk result (λ x. x.0 < 2 * 128 ^ more) }
{
    match bytes {
        [] => Err(VarintFault::Unfinished),
        [byte, rest @ ..] => {
            if more == 0 {
                if *byte > 1 {
                    return Err(VarintFault::TooLong);
                }
                return Ok((*byte as u64, rest));
            }
            if *byte < 128 {
                return Ok((*byte as u64, rest));
            }
            match varint_within(more - 1, rest) {
                Err(fault) => Err(fault),
                Ok((high, after)) => Ok(((*byte - 128) as u64 + 128 * high, after)),
            }
        }
    }
}
