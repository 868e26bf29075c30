ghost use Rattle.std.specs.Prelude.{◌≡◌, pos, ◌+ℤ◌, ◌-ℤ◌, ◌≤ℤ◌, ◌<◌, ◌≤◌, ◌^◌, true};
ghost use Rattle.kn_windows.specs.Windows.{can_spend, can_grow};

use kn_windows::Window;

/// Takes bytes from a window that has them.
pub fn spend(window: &mut Window, count: u32)
    requires { can_spend window.old count ≡ true }
    ensures { window.new ≡ window.old -ℤ pos count }
{
    match window.spend(count) {
        Ok(()) => {}
        Err(_) => {}
    }
}

/// Adds bytes to a window that stays in its range.
pub fn grow(window: &mut Window, by: u32)
    requires { can_grow window.old (pos by) ≡ true }
    ensures { window.new ≡ window.old +ℤ pos by }
{
    match window.grant(by) {
        Ok(()) => {}
        Err(_) => {}
    }
}

/// Shifts a window that stays in its range by the difference of two values of
/// SETTINGS_INITIAL_WINDOW_SIZE (RFC 9113, section 6.9.2).
pub fn shift(window: &mut Window, old: u32, new: u32)
    requires old_fits { old < 2 ^ 31 }
    requires new_fits { new < 2 ^ 31 }
    requires low { pos old ≤ℤ (window.old +ℤ pos 2147483647) }
    requires high { can_grow window.old (pos new -ℤ pos old) ≡ true }
    ensures { window.new ≡ window.old +ℤ (pos new -ℤ pos old) }
{
    match window.shift(i64::from(new) - i64::from(old)) {
        Ok(()) => {}
        Err(_) => {}
    }
}
