//! The picture of a report: a network's flits and counts at the end of a run, as SVG or as a map for a terminal.
//!
//! Proved is which flits are shown at which node, in its buffers and on the links to it, in three groups (`views`);
//! what hovering over a flit says (`titles`); that the picture's text has just these flits (`picture`); and the whole
//! text of the map (`map`). Not proved is how flits look and where they stand in a picture, and what else is drawn.
#![tactic(auto)]

mod counts;
mod drawing;
mod flits;
mod layout;
mod legend;
mod map;
mod packets;
mod picture;
mod scene;
mod signs;
mod svg;
mod titles;
mod views;
mod ways;

pub use drawing::{draw_map, draw_picture};
pub use packets::{Packet, Packets};
pub use scene::{Flit, Spot, exit_port};
pub use views::{NodeView, Station, node_views};
