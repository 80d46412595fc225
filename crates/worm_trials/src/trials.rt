//! The trials by name.

use crate::cases::{SIXTEEN_NODES, network};
use crate::parts::split_among;
use crate::reports::{all_arrived, half_way};
use crate::seen::Seen;
use crate::steps::{closed_lane, round_the_corner};
use crate::turns::two_arrive;
use crate::workers::run_by_four;
use std::alloc::Global;
use std::sync::Wait;
use std::thread::Threads;
use worm_core::Net;

/// What is tried.
#[derive(Clone, Copy)]
pub enum Trial {
    /// A network of sixteen nodes is made.
    Network,
    /// A flit goes round a corner, step by step.
    Corner,
    /// A lane is closed.
    Close,
    /// Two words arrive in turns, and are looked for in views.
    Turns,
    /// The report of two words of which one arrived.
    ShortReport,
    /// The report of sixteen nodes of which each has the words of the node opposite.
    LongReport,
    /// Sixteen nodes are split for one worker, for four, and for sixteen.
    SplitOne,
    SplitFour,
    SplitSixteen,
    /// Sixteen nodes are run by four workers.
    RunFour,
}

impl Trial {
    /// The trial of this name.
    pub fn named(name: &str) -> Option<Trial> {
        match name {
            "network" => Some(Trial::Network),
            "corner" => Some(Trial::Corner),
            "close" => Some(Trial::Close),
            "turns" => Some(Trial::Turns),
            "short_report" => Some(Trial::ShortReport),
            "long_report" => Some(Trial::LongReport),
            "split_one" => Some(Trial::SplitOne),
            "split_four" => Some(Trial::SplitFour),
            "split_sixteen" => Some(Trial::SplitSixteen),
            "run_four" => Some(Trial::RunFour),
            _ => None,
        }
    }
}

/// The network of sixteen nodes has nothing in it.
fn is_empty(net: &Net) -> bool {
    let totals = net.totals();
    net.nodes() == 16 && totals.injected == 0 && totals.accepted == 0 && net.is_drained()
}

/// A network that is made has nothing in it.
fn empty_network(alloc: Global) -> Seen {
    match network(alloc, SIXTEEN_NODES) {
        Ok(net) => Seen::Whole.only_if(is_empty(&net)),
        Err(seen) => seen,
    }
}

/// Makes the trial.
pub fn take<R: Threads + Wait + Sync + AllocGlobal>(rt: &R, trial: Trial) -> Seen {
    let alloc: Global = rt.alloc();
    match trial {
        Trial::Network => empty_network(alloc),
        Trial::Corner => round_the_corner(alloc),
        Trial::Close => closed_lane(alloc),
        Trial::Turns => two_arrive(alloc),
        Trial::ShortReport => half_way(alloc),
        Trial::LongReport => all_arrived(alloc),
        Trial::SplitOne => split_among(rt, alloc, 1),
        Trial::SplitFour => split_among(rt, alloc, 4),
        Trial::SplitSixteen => split_among(rt, alloc, 16),
        Trial::RunFour => run_by_four(rt, alloc),
    }
}
