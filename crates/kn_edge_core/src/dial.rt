/// A dial that an agent makes for the server.
#[derive(Clone, Copy, Debug, PartialEq, Eq)]
pub struct Dial {
    /// The number that the agent drew for it.
    pub ticket: u64,
    /// The number by which the server knows the answer.
    pub random: i64,
}
