use kn_h2::H2Event;

/// What a connection told.
#[derive(Drop)]
pub struct Heard {
    pub conn: u64,
    pub event: H2Event,
}
