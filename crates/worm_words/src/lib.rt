//! The words of the command line: what those of `wormrun` say, as the parser reads them, and the name that a program
//! gives for itself as the first.
//!
//! This crate alone of those below `wormrun` reads what the parser's library states, and it stands on no other, so it
//! is proved beside them.
#![tactic(auto)]

mod named;
mod words;

pub use named::Named;
pub use words::{Options, Words, WordsFault, all_words, read_words};
