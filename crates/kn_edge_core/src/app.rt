use kn_io::Text;

/// Where an app's tunnel stands.
#[derive(Clone, Copy, Debug, PartialEq, Eq)]
pub enum AppState {
    /// It was asked for.
    Dialling,
    /// It carries data.
    Open,
    /// The app sends no more, and the server was asked to close it.
    Closing,
    /// The server closed it, and bytes are still to be written to the app.
    Lingering,
}

/// An app of a client.
#[derive(Drop)]
pub struct App {
    pub number: u64,
    pub state: AppState,
    /// The number that the server gave the tunnel, or 0 while it is asked for.
    pub connect_id: i64,
    /// How many bytes are still to be written to the app.
    pub unwritten: usize,
    /// What an app that lingers is told at its end, else the empty text.
    pub error: Text,
}
