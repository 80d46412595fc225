//! Who waits for whom: the packets at the fronts of a network's buffers that cannot go on, from its report alone.
//!
//! One idea carries it. A packet holds a channel from its opening to its tail, and no other packet enters between. So
//! the last flit that went into a channel tells who holds it: the flit's packet, unless the flit is its tail.
//!
//! As in the router, an opening needs a channel of its class that no other packet holds, and each flit a credit. A
//! report tells neither credits on their way back, nor channels granted to a packet of which no flit has come, nor
//! the sink's channel that took a flit, where the class has several. There a packet counts as one that can go on.
//! Proved is the whole text: its lines are the packets that cannot go on, each once, and its chains follow them.
#![tactic(auto)]

mod chains;
mod scene;
mod text;
mod waits;

pub use text::who_waits;
