//! The lists of a network, or of a worker's part of one, and what moves them: the steps, and the turn of a node, on a
//! k-ary n-mesh with wormhole switching and credits (Dally and Towles, chapters 5, 13 and 16).
//!
//! A region's lists stand for functions of places (`network_of`). Each step writes, at one node or at the two ends of
//! one link, what the theory's step writes at one place of each function. `Fabric` has the lists and no invariant.
//! `Region` has the invariant that each move needs and keeps.
//! The crate above keeps that a whole network is sound. Nothing is said of time, nor that anything is delivered.
#![tactic(auto)]

mod config;
mod fabric;
mod fault;
mod fresh;
mod nodes;
mod owner;
mod parts;
mod region;
mod step;
mod turn;

pub use config::{Config, Name};
pub use fabric::Fabric;
pub use fault::{NetFault, StepFault};
pub use fresh::fresh_nodes;
pub use owner::Owner;
pub use parts::NetParts;
pub use region::Region;
pub use step::{Moved, Step};
pub use turn::tried;
pub use worm_node::Node;
pub use worm_script::{Act, Due, Entry, Script, ScriptFault};
pub use worm_term::{NoMemory, OfferFault};
pub use worm_wires::{Inboxes, LinkState, PortLinks, fresh_links};
