ghost use Rattle.std.specs.Prelude.{◌≡◌, pos, ◌-ℤ◌, not, length};
ghost use Rattle.kn_windows.specs.Windows.{can_spend, can_grow};

use crate::limits::LARGEST_WINDOW;
use kn_windows::Window;

/// The window passes the largest where INITIAL_WINDOW_SIZE goes from one value to another.
pub fn shifts_over_largest(window: &Window, initial: u32, value: u32) -> bool
    ensures { result ≡ not (can_grow window.now (pos value -ℤ pos initial)) }
{
    let left = window.left();
    left + (i64::from(value) - i64::from(initial)) > i64::from(LARGEST_WINDOW)
}

/// The window passes the largest with this increment.
pub fn grows_over_largest(window: &Window, by: u32) -> bool
    ensures { result ≡ not (can_grow window.now (pos by)) }
{
    let left = window.left();
    left + i64::from(by) > i64::from(LARGEST_WINDOW)
}

/// So many bytes are more than are left.
pub fn is_over(window: &Window, bytes: &[u8]) -> bool
    ensures { result ≡ not (can_spend window.now (length bytes.now)) }
{
    let left = window.left();
    match u32::try_from(bytes.len()) {
        Ok(count) => count > 0 && i64::from(count) > left,
        Err(_too_large) => true,
    }
}
