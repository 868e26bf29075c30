/// What the connection of a destination is for.
#[derive(Clone, Copy, Debug, PartialEq, Eq)]
pub enum Purpose {
    /// Its dial is under way, for this ticket.
    Dials { ticket: u64 },
    /// It carries the bytes of this connectID.
    Carries { connect_id: i64 },
}
