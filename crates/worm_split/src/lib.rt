//! A network split at its links among workers, each with nodes of its own, and joined again.
//!
//! To its owner a part is a network of which some nodes are its own, and a link between two workers is a queue whose
//! past is what was on it at the split. A join needs no more than what each part sent and took by its queues
//! (`worm_theory`). One exchange with the network taken apart, at the split and again at the join, puts all back.
//! Nothing is said of threads, of which part moves when, nor that a part ever takes what was sent to it.
#![tactic(auto)]

mod apart;
mod ends;
mod joining;
mod memory;
mod part;
mod splitting;
mod stop;
mod turning;

pub use ends::{End, EndPair};
pub use joining::join;
pub use part::Part;
pub use splitting::split;
pub use stop::StopWhy;
