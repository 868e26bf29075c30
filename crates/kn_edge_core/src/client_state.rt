use crate::apps::Apps;

/// All that a client knows. A definition of a rule takes it and gives it.
#[derive(Drop)]
pub struct ClientState {
    pub apps: Apps,
    /// The greatest number that an app ever had, or 0.
    pub top_app: u64,
}
