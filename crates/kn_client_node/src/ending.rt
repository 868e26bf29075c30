use kn_io::Text;

/// What an app is told when it leaves the client's list, or is closed at once.
#[derive(Drop)]
pub struct Ending {
    /// The app's connection.
    pub conn: u64,
    /// It never had a tunnel: its dial was not answered, or it was closed at once.
    pub early: bool,
    /// The error, or the empty text.
    pub error: Text,
}
