//! Worked cases of the public functions of `worm_report` and `worm_rows`.
//!
//! They stand apart from what they test because a crate with tests is proved twice, with them and without.
#![tactic(auto)]

#[cfg(test)]
mod cases;
#[cfg(test)]
mod reports;
#[cfg(test)]
mod rows;
