ghost use Rattle.std.specs.Prelude.{◌≡◌, ℤ, pos, negsuc, ◌+ℤ◌, ◌-ℤ◌, ◌≤ℤ◌, ◌≤◌, ◌<◌, ◌^◌, OnOk, IfOk, IfErr, true, false};
ghost use Rattle.kn_windows.specs.Windows.{can_spend, can_grow, IsWindow};

use std::marker::Model;

/// A window of flow control, in bytes. It is below 0 where a smaller SETTINGS_INITIAL_WINDOW_SIZE
/// took more from it than was left (RFC 9113, section 6.9.2).
#[derive(Clone, Copy, Debug, PartialEq, Eq)]
pub struct Window {
    left: i64,
}

impl Model for Window {
    ghost Value = { ℤ };

    ghost view = { λ w. w.left };

    ghost invariant = { λ w. IsWindow w.left };

    ghost inverse = { λ z. record { left = z } };
}

/// More bytes were asked for than are left.
#[derive(Clone, Copy, Debug, PartialEq, Eq)]
pub struct Below {
    /// The bytes that are left.
    pub left: i64,
    /// The bytes that were asked for.
    pub asked: u32,
}

/// The window would pass 2^31 - 1.
#[derive(Clone, Copy, Debug, PartialEq, Eq)]
pub struct Above {
    /// The bytes that are left.
    pub left: i64,
    /// By how much the window was to change.
    pub added: i64,
}

impl Window {
    /// The largest size of a window (RFC 9113, section 6.9.1).
    const LARGEST: i64 = 2_147_483_647;

    /// A window of this many bytes.
    pub fn new(size: u32) -> Window
        requires { size < 2 ^ 31 }
        ensures { result ≡ pos size }
    {
        Window {
            left: i64::from(size),
        }
    }

    /// The bytes that are left.
    pub fn left(&self) -> i64
        ensures value { result ≡ self.now }
        ensures window { IsWindow self.now }
    {
        self.left
    }

    /// Takes bytes that are sent, or that came, from the window. None can always be spent, also
    /// where the window is below 0: an empty DATA frame needs no window.
    pub fn spend(&mut self, count: u32) -> Result<(), Below>
        ensures ok { OnOk result ((can_spend self.old count ≡ true) × (self.new ≡ self.old -ℤ pos count)) }
        ensures err { IfErr result (λ e. (can_spend self.old count ≡ false) × (self.new ≡ self.old)
            × (e ≡ record { left = self.old; asked = count })) }
    {
        let count_wide = i64::from(count);
        if count > 0 && count_wide > self.left {
            return Err(Below {
                left: self.left,
                asked: count,
            });
        }
        self.left -= count_wide;
        Ok(())
    }

    /// Adds the increment of a WINDOW_UPDATE (RFC 9113, section 6.9).
    pub fn grant(&mut self, count: u32) -> Result<(), Above>
        ensures ok { OnOk result ((can_grow self.old (pos count) ≡ true) × (self.new ≡ self.old +ℤ pos count)) }
        ensures err { IfErr result (λ e. (can_grow self.old (pos count) ≡ false) × (self.new ≡ self.old)
            × (e ≡ record { left = self.old; added = pos count })) }
    {
        self.left = grown(&self.left, &i64::from(count))?;
        Ok(())
    }

    /// Changes the window by the difference of two values of SETTINGS_INITIAL_WINDOW_SIZE
    /// (RFC 9113, section 6.9.2).
    pub fn shift(&mut self, change: i64) -> Result<(), Above>
        requires low { negsuc 2147483646 ≤ℤ change }
        requires high { change ≤ℤ pos 2147483647 }
        requires sum { negsuc 2147483647 ≤ℤ (self.old +ℤ change) }
        ensures ok { OnOk result ((can_grow self.old change ≡ true) × (self.new ≡ self.old +ℤ change)) }
        ensures err { IfErr result (λ e. (can_grow self.old change ≡ false) × (self.new ≡ self.old)
            × (e ≡ record { left = self.old; added = change })) }
    {
        self.left = grown(&self.left, &change)?;
        Ok(())
    }
}

/// The window after a change, where it is not too large.
fn grown(left: &i64, change: &i64) -> Result<i64, Above>
    requires window { IsWindow left.now }
    requires change_low { negsuc 4294967295 ≤ℤ change.now }
    requires change_high { change.now ≤ℤ pos 4294967295 }
    ensures ok { IfOk result (λ sum. (can_grow left.now change.now ≡ true) × (sum ≡ left.now +ℤ change.now)) }
    ensures err { IfErr result (λ e. (can_grow left.now change.now ≡ false) × (e ≡ record { left = left.now; added = change.now })) }
{
    let sum = *left + *change;
    if sum > Window::LARGEST {
        return Err(Above {
            left: *left,
            added: *change,
        });
    }
    Ok(sum)
}

#[cfg(test)]
mod tests {
    use super::*;

    #[test]
    fn sums_and_bounds(rt: HostRuntime) {
        let mut window = Window::new(65_535);
        assert_eq!(rt; window.left(), 65_535);
        let below = Below {
            left: 65_535,
            asked: 65_536,
        };
        assert_eq!(rt; window.spend(65_536), Err(below));
        assert_eq!(rt; window.grant(2_147_418_112), Ok(()));
        let above = Above {
            left: 2_147_483_647,
            added: 1,
        };
        assert_eq!(rt; window.grant(1), Err(above));
        assert_eq!(rt; window.left(), 2_147_483_647);
        assert_eq!(rt; window.spend(2_147_483_647), Ok(()));
        assert_eq!(rt; window, Window::new(0));
    }

    #[test]
    fn a_window_below_zero(rt: HostRuntime) {
        let mut window = Window::new(65_535);
        assert_eq!(rt; window.spend(10), Ok(()));
        assert_eq!(rt; window.shift(-65_535), Ok(()));
        assert_eq!(rt; window.left(), -10);
        assert_eq!(rt; window.spend(0), Ok(()));
        let below = Below {
            left: -10,
            asked: 1,
        };
        assert_eq!(rt; window.spend(1), Err(below));
        assert_eq!(rt; window.left(), -10);
    }
}
