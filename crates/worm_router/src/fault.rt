use std::alloc::AllocError;

/// Why a router was not made.
#[derive(Clone, Copy, Debug, PartialEq, Eq)]
pub enum RouterFault {
    /// There was no memory for its buffers and records.
    NoMemory,
}

impl From<AllocError> for RouterFault {
    fn from(_error: AllocError) -> RouterFault {
        RouterFault::NoMemory
    }
}

/// The count of credits is the depth already.
#[derive(Clone, Copy, Debug, PartialEq, Eq)]
pub struct TooMany;
