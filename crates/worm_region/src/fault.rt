//! Why no network is made, and why a step is not done.

use worm_term::OfferFault;

/// Why no network was made.
#[derive(Clone, Copy, Debug, PartialEq, Eq)]
pub enum NetFault {
    /// There was no memory for the network.
    NoMemory,
    /// A number is out of its range, or not every class has its one name. It is looked for before memory is taken.
    BadConfig,
}

/// Why a step was not done, or a turn ended early.
#[derive(Clone, Copy, Debug, PartialEq, Eq)]
pub enum StepFault {
    /// The network has not the step's node, port, channel or class, or the port has not the link that the step needs.
    NoSuchPlace,
    /// A source refused a packet or a mark, also for its lane's nodes or class; never for want of memory.
    Refused(OfferFault),
    /// There was no memory for an accepted or a delivered flit.
    NoMemory,
}
