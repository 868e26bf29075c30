use crate::MessageReason;

/// What stands at the front of what a reader keeps.
#[derive(Clone, Copy)]
pub enum Front<'a> {
    /// Less than a message, without a fault.
    Less,
    /// A whole message, without the five bytes before it.
    Whole { message: &'a [u8] },
    /// No message begins so.
    Bad { reason: MessageReason },
}
