use std::alloc::AllocError;

/// There was no memory for a source.
#[derive(Clone, Copy, Debug, PartialEq, Eq)]
pub struct NoMemory;

impl From<AllocError> for NoMemory {
    fn from(_error: AllocError) -> NoMemory {
        NoMemory
    }
}

/// Why a source accepts no packet or mark: the first that applies in this order, `ManyChannels` after `NoSuchClass`.
#[derive(Clone, Copy, Debug, PartialEq, Eq)]
pub enum OfferFault {
    /// The lane begins at another node.
    WrongSource,
    /// Its destination is no node of the network.
    NoSuchNode,
    /// The network has no such class.
    NoSuchClass,
    /// The lane's mark was accepted before.
    LaneClosed,
    /// The lane has had 65,535 packets and marks.
    LaneFull,
    /// There was no memory for the flits.
    NoMemory,
    /// Of a close alone: the class owns several channels, so a mark need not be the last to arrive.
    ManyChannels,
}
