//! A node by itself: its router and the two ends of its lanes, and what passes between them; and the nodes of a new
//! network (Dally and Towles, chapters 5, 13 and 16). Of links it knows nothing.
#![tactic(auto)]

mod fresh;
mod node;

pub use fresh::make_nodes;
pub use node::Node;
