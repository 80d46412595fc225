//! Worked cases of the public functions of what lies round a node's router: flits, the node's source and sink, and
//! links within a thread and between two.
//!
//! They stand apart from what they test because a crate with tests is proved twice, with them and without, and all
//! others stand on these.
#![tactic(auto)]

#[cfg(test)]
mod cases;
#[cfg(test)]
mod flit;
#[cfg(test)]
mod links;
#[cfg(test)]
mod term;
#[cfg(test)]
mod wires;
