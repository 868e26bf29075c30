/// Bytes that wait for the socket and are all of reply frames, or none of them is.
#[derive(Clone, Copy)]
pub struct Run {
    pub reply: bool,
    pub length: usize,
}
