ghost use Rattle.kn_h2.specs.Steady.{RoleStays, MovesTellNothing, EndsAreWritten};

/// An end stays the end that it is: no frame, call or move changes its role.
pub fn role_stays()
    ensures { RoleStays }
{}

/// What is written where there is room tells nothing, fails nothing, and leaves the text that nobody took.
pub fn moves_tell_nothing()
    ensures { MovesTellNothing }
{}

/// Once there is room and nothing more is due, each end that was asked for went out, unless bytes wait
/// before it.
pub fn ends_are_written()
    ensures { EndsAreWritten }
{}
