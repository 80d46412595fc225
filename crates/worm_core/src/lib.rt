//! The network as one value: nodes and links by number, on a k-ary n-mesh with wormhole switching and credits (Dally
//! and Towles, chapters 5, 13 and 16), its steps and runs of them.
//!
//! One idea carries the crate: `Net` is a region of all nodes whose invariant is soundness. The theory's laws give it
//! back after each step and turn, so no call makes or keeps an unsound network. Nothing is said of time or delivery.
#![tactic(auto)]

mod acceptable;
mod busy;
mod net;
mod one_thread;
mod parts;
mod totals;
mod view;

pub use acceptable::acceptable_scripts_are_taken;
pub use busy::LaneSet;
pub use net::{Net, RunSoFar};
pub use one_thread::turns_are_determined;
pub use totals::Totals;
pub use view::{Held, LaneView, Place};
pub use worm_region::{
    Act, Config, Due, Entry, Inboxes, LinkState, Moved, Name, NetFault, NetParts, NoMemory, Node,
    OfferFault, Owner, PortLinks, Region, Script, ScriptFault, Step, StepFault, fresh_links,
    fresh_nodes, tried,
};
