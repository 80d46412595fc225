//! What the tests of several crates share: lanes, flits and texts of small networks, and, to run a whole program, a
//! runtime in memory (`Desk`) and a writer that fails (`Taking`). What ends a test stands with the tests: no library
//! may end the process.
//!
//! What the tests of one crate alone need stands with them. The few contracts here are those that the tests' own calls
//! ask for; the other functions promise nothing, so that a test is proved without what they know.
#![tactic(auto)]

mod desk;
mod parts;
mod taking;
mod texts;

pub use desk::Desk;
pub use parts::{lane, single};
pub use taking::Taking;
pub use texts::{
    SIXTEEN_NODES, THREE_BY_TWO, TWO_CHANNELS, TWO_NODES, TWO_NODES_AND_WORDS, TWO_WORDS,
    WORD_AND_MARK,
};
