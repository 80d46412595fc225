//! The script of a run: which packets and marks are offered to the sources, and in which turn.
//!
//! One idea carries it: a script is the list of its entries, in the order of the text, whose turns never fall. So two
//! searches find the entries of a turn. Beside each stands how many places on the next one is that asks the same
//! source, so that after its first one no node looks through those of others. It asks no source and knows no network.
#![tactic(auto)]

mod due;
mod entry;
mod script;

pub use due::Due;
pub use entry::{Act, Entry};
pub use script::{Script, ScriptFault};
