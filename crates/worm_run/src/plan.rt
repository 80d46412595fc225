//! What a run is asked for, and what it gives back.

use worm_core::Net;
use worm_split::StopWhy;

/// How many turns each worker takes, and how many workers there are.
#[derive(Clone, Copy, Debug, PartialEq, Eq)]
pub struct RunPlan {
    /// How many turns each worker takes: 0, 1, .. below it.
    pub turns: u64,
    /// 1 to 16, and at most the nodes.
    pub workers: usize,
}

/// A worker that took fewer turns than planned.
#[derive(Clone, Copy, Debug, PartialEq, Eq)]
pub struct Stop {
    /// The worker, counted from 0.
    pub worker: usize,
    /// The turn in which it was stopped, counted from 0; as many turns it ended.
    pub turn: u64,
    /// Why.
    pub why: StopWhy,
}

/// What a run gives back.
#[derive(Drop)]
pub struct RunEnd {
    /// The network.
    pub net: Net,
    /// The stops by rising worker, at most one of each.
    pub stops: Vec<Stop>,
    /// How many turns each worker ended: all of the plan exactly where it has no stop.
    pub ended: Vec<u64>,
}

/// Why nothing was run, or no network came back.
#[derive(Drop)]
pub enum RunFault {
    /// No worker, more than 16, or more than nodes; the network as handed in.
    Workers(Net),
    /// There was no memory for the parts; the network as handed in.
    NoMemory(Net),
    /// The thread of this worker, counted from 0, did not start. Those after it did, and ended; their parts are gone.
    NotStarted { worker: usize },
}
