//! Worked cases of the public functions of `worm_split` and `worm_run`.
//!
//! They stand apart from what they test because a crate with tests is proved twice, with them and without.
#![tactic(auto)]

#[cfg(test)]
mod cases;
#[cfg(test)]
mod channels;
#[cfg(test)]
mod gates;
#[cfg(test)]
mod paced;
#[cfg(test)]
mod parts;
#[cfg(test)]
mod runs;
#[cfg(test)]
mod stops;
#[cfg(test)]
mod trial;
#[cfg(test)]
mod turns;
