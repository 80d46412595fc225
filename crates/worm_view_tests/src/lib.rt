//! Worked cases of what `wormview` does, over readers and writers, some of which fail.
//!
//! They stand apart from the libraries that they test because a crate with tests is proved twice, with them and
//! without.
#![tactic(auto)]

#[cfg(test)]
mod view;
