//! Laws of what `fill` writes.

ghost use Rattle.kn_h2.specs.Sending.{MoveKeeps, InOrder, Spends};

/// What always holds of a connection goes on to hold after each move.
pub fn sending_laws()
    ensures keeps { MoveKeeps }
    ensures order { InOrder }
    ensures spends { Spends }
{}
