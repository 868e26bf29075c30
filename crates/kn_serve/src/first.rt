//! What the first turns of the three programs share.

ghost use Rattle.std.specs.Prelude.{◌≡◌};
ghost use Rattle.kn_serve.specs.First.{first_course};

use kn_loop::Course;

/// The first turn has the number 1.
pub(crate) fn course(tunnels: u64, turns: u64) -> Course
    ensures { result ≡ first_course tunnels turns }
{
    Course {
        tunnels,
        turns,
        turn: 1,
    }
}
