//! The two queues of a link between neighbouring routers, whose ends lie in any two threads: flits one way, credits
//! the other (Dally and Towles, chapters 12 and 13). They are lock-free and bounded. Only making them takes memory.
//!
//! One rule ties the ends, whoever runs when: what was sent is what was taken, and then what the queue holds. What
//! was sent is also a history of the link. So the taker, who never sees what was sent, needs no check. A push and a
//! pop of what is left may wait within their queue, so it is not claimed that they return.
#![tactic(auto)]

mod apart;
mod credits;
mod flits;
mod history;

pub use credits::{CreditEnds, CreditRx, CreditTx, credit_line, reunite_credits};
pub use flits::{Ends, FlitRx, FlitTx, Opening, link, link_after, reunite};
pub use history::Known;
use std::alloc::AllocError;
use worm_mesh::Mesh;

/// The link that leaves a node by a port, and what it may carry.
#[derive(Clone, Copy, PartialEq, Eq, Debug)]
pub struct LinkCfg {
    /// The mesh whose routes may cross it.
    pub mesh: Mesh,
    /// The node that sends.
    pub node: u8,
    /// The port of that node: `2d` on the minus side of dimension `d`, `2d + 1` on its plus side.
    pub port: u8,
    /// How many virtual channels it has: 1 to 8.
    pub channels: u8,
    /// How many flits a channel's buffer at its far end holds: 1 to 17.
    pub depth: u8,
    /// The class that owns each channel; those past the last channel say nothing.
    pub owners: [u8; 8],
}

/// Why there is no link.
#[derive(Clone, Copy, PartialEq, Eq, Debug)]
pub enum LinkFault {
    /// Memory was refused.
    NoMemory,
}

impl From<AllocError> for LinkFault {
    fn from(_: AllocError) -> LinkFault {
        LinkFault::NoMemory
    }
}
