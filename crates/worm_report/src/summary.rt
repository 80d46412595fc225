//! What a report says of a run.

/// The options of a run, and what came of it.
#[derive(Clone, Copy, Debug, PartialEq, Eq)]
pub struct Summary {
    /// How many turns were asked for.
    pub turns: u64,
    /// How many workers took them.
    pub workers: usize,
    /// How many more turns, without new traffic, were allowed.
    pub drain: u64,
    /// At place w the turn in which worker w was stopped, if it was.
    pub stops: [Option<u64>; 16],
    /// The entries of the traffic that no source accepted.
    pub not_offered: u64,
}

/// Why a report was not written whole; a first part of it has gone out.
#[derive(Clone, Copy, Debug, PartialEq, Eq)]
pub enum ReportFault {
    /// The writer failed, or took nothing.
    Write = 1,
    /// There was no memory for a page, for a line, for the set of busy lanes or for the view of a lane.
    NoMemory,
}
