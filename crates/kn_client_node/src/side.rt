use kn_h2_state::ByteQueue;

/// The connection of an app.
#[derive(Drop)]
pub struct Side {
    /// The app that it belongs to, while that one is on the client's list.
    pub app: Option<u64>,
    /// What is to be written to the app.
    pub out: ByteQueue,
    /// The app sends no more.
    pub ended: bool,
}
