//! The links of a mesh, for one thread: what is on them, by node and port (Dally and Towles, chapters 5 and 13).
//!
//! A link is seen as two lists, its flits and the credits on their way back, wherever they stand. What comes in next
//! at a node stands in its inbox, by port, so that a turn searches for nothing. The sets of ports of all inboxes
//! stand side by side, so that a node that rests costs one look.
//! Nothing is said of routers or of threads: the queues between two threads are in `worm_links`.
#![tactic(auto)]

mod fresh;
mod inbox;
mod link;
mod links;
mod wiring;

pub use fresh::fresh_links;
pub use inbox::Inboxes;
pub use link::LinkState;
pub use links::Links;
pub use wiring::{PortLinks, Wiring};
