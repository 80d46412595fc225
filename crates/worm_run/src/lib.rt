//! Worker threads: each takes its part of a network by move, asks its gate before each turn, takes its turns, and
//! gives its part back with what it promised. Then the parts are joined.
//!
//! Nothing is shared but the queues of the links and what the caller lends: no lock, no channel. The gate alone says
//! how far apart workers are. What is proved holds if a call returns; that workers get on is shown by tests.
#![tactic(auto)]

mod gate;
mod paced;
mod plan;
mod running;
mod working;

pub use gate::{FreeGate, Gate};
pub use paced::Paced;
pub use plan::{RunEnd, RunFault, RunPlan, Stop};
pub use running::run;
pub use worm_split::{Part, StopWhy, join, split};
