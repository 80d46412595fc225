//! What a report and its network tell.

use worm_flit::ClassChannels;
use worm_picture::{NodeView, Packets};
use worm_rows::{Row, Shape};

/// A report, its network, and the nodes with what the report shows of them.
#[derive(Drop)]
pub struct Scene<'a> {
    /// The shape of the network.
    pub shape: &'a Shape,
    /// Which class owns which channels.
    pub channels: &'a ClassChannels,
    /// How many flits a buffer holds.
    pub depth: u8,
    /// The rows of the report.
    pub rows: &'a [Row],
    /// Its packets.
    pub packets: &'a Packets,
    /// The nodes.
    pub views: &'a [NodeView],
}
