//! A network taken apart into its nodes and links, as its workers hold them.

use crate::{Config, Inboxes, LinkState, Node};

/// The parts of a network.
#[derive(Drop)]
pub struct NetParts {
    /// What it was made from.
    pub config: Config,
    /// The nodes by number.
    pub nodes: Vec<Node>,
    /// The links by number, each with room for as many flits and as many credits as all its channels' buffers hold.
    pub links: Vec<LinkState>,
    /// Memory for the inboxes of its nodes.
    pub inboxes: Inboxes,
}
