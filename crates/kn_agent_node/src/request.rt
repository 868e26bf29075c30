use kn_io::Text;

/// A dial that is to be made.
#[derive(Drop)]
pub struct Request {
    pub ticket: u64,
    pub address: Text,
}
