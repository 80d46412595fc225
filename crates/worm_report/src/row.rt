//! The lines of a report, by what they say.

use worm_core::Held;
use worm_flit::{Flit, Lane};

/// What a line says.
#[derive(Clone, Copy, Debug, PartialEq, Eq)]
pub enum Row {
    /// That this is a report, and in which format.
    Header,
    /// The options of the run.
    Options {
        turns: u64,
        workers: u64,
        drain: u64,
    },
    /// A worker that was stopped, and in which turn.
    Stopped {
        worker: u64,
        turn: u64,
    },
    /// A flit that arrived at a node.
    Delivered {
        node: u8,
        flit: Flit,
    },
    /// A flit of a lane that is under way, and its place.
    Underway {
        lane: Lane,
        held: Held,
    },
    /// How many entries no source accepted.
    NotOffered {
        entries: u64,
    },
    /// How many flits were injected and delivered, and so how many are under way.
    Total {
        injected: u128,
        delivered: u128,
    },
}
