use kn_h2::{BeginRefusal, QueueRefusal};
use kn_io::NoMemory;
use std::alloc::{AllocError, AllocFailed};

/// Why no bytes came.
#[derive(Clone, Copy, Debug, PartialEq, Eq)]
pub enum Fault {
    NoMemory,
    /// A call of the connection was refused.
    Refused,
}

impl From<NoMemory> for Fault {
    fn from(_error: NoMemory) -> Fault {
        Fault::NoMemory
    }
}

impl From<AllocError> for Fault {
    fn from(_error: AllocError) -> Fault {
        Fault::NoMemory
    }
}

impl<T: Drop> From<AllocFailed<T>> for Fault {
    fn from(_error: AllocFailed<T>) -> Fault {
        Fault::NoMemory
    }
}

impl From<BeginRefusal> for Fault {
    fn from(error: BeginRefusal) -> Fault {
        match error {
            BeginRefusal::NoMemory => Fault::NoMemory,
            _ => Fault::Refused,
        }
    }
}

impl From<QueueRefusal> for Fault {
    fn from(error: QueueRefusal) -> Fault {
        match error {
            QueueRefusal::NoMemory => Fault::NoMemory,
            _ => Fault::Refused,
        }
    }
}
