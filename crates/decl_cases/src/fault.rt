//! Why a line has no file.
use kt_tree::{NoMemory, Span};
use std::alloc::{AllocError, AllocFailed};

/// Why a line has no file.
#[derive(Debug, Drop)]
pub enum Fault {
    /// The span of the first token that fits no form, in bytes from 0.
    Unread(Span),
    NoMemory,
}

impl From<NoMemory> for Fault {
    fn from(_error: NoMemory) -> Fault {
        Fault::NoMemory
    }
}

impl From<AllocError> for Fault {
    fn from(_error: AllocError) -> Fault {
        Fault::NoMemory
    }
}

impl<T: Drop> From<AllocFailed<T>> for Fault {
    fn from(_error: AllocFailed<T>) -> Fault {
        Fault::NoMemory
    }
}
