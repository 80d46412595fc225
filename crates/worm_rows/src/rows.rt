//! The lines of a report, by what they say.

use worm_core::Place;
use worm_flit::Lane;

/// A packet: its lane, and its number there.
#[derive(Clone, Copy, Debug, PartialEq, Eq, PartialOrd, Ord)]
pub struct PacketId {
    /// Where it comes from and goes to, and its class.
    pub lane: Lane,
    /// Its number in the lane, counted from 0.
    pub number: u16,
}

/// What a delivered flit carried.
#[derive(Clone, Copy, Debug, PartialEq, Eq)]
pub enum Load {
    /// It was the mark that closes its lane.
    Close,
    /// A word of its packet: its place there, 0 to 31, and its 32 bits.
    Word { index: u8, word: u32 },
}

/// What a line says.
#[derive(Clone, Copy, Debug, PartialEq, Eq)]
pub enum Row {
    /// That this is a report, and in which format.
    Header,
    /// The options of the run: its turns, the workers that took them, and the turns that it might take to drain.
    Options {
        turns: u32,
        workers: u32,
        drain: u32,
    },
    /// A worker that was stopped, and in which turn.
    Stopped {
        worker: u32,
        turn: u32,
    },
    /// A flit that arrived at its destination.
    Delivered {
        packet: PacketId,
        load: Load,
    },
    /// A flit that is under way: its place in its packet, 0 to 31, and where it is.
    Underway {
        packet: PacketId,
        index: u8,
        place: Place,
    },
    /// How many entries of the traffic no source accepted.
    NotOffered {
        entries: u32,
    },
    /// How many flits were delivered, and how many are under way.
    Total {
        delivered: u32,
        underway: u32,
    },
}
