/// A dial that a front asked for and that its link's agent has not answered yet.
#[derive(Clone, Copy, Debug, PartialEq, Eq)]
pub struct AwaitedEntry {
    /// The number that the server drew for the dial.
    pub dial: u64,
    /// The front that asked for it.
    pub front: u64,
    /// The link that it was sent to.
    pub link: u64,
    /// The number by which the front knows the answer.
    pub random: i64,
}
