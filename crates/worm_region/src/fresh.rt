//! The nodes of a new network by its configuration.

ghost use Rattle.std.specs.Prelude.{◌≡◌, ◌≤◌, IfOk, length};
ghost use Rattle.worm_flit.specs.Channels.{AreChannels};
ghost use Rattle.worm_mesh.specs.Address.{AreRadices, node_count};
ghost use Rattle.worm_node.specs.NewNodes.{AreFresh};

use crate::Config;
use std::alloc::{AllocError, Global};
use worm_mesh::Mesh;
use worm_node::{Node, make_nodes};

/// The nodes of a new network by number. A part has such nodes in the places of those that it does not own.
pub fn fresh_nodes(alloc: Global, config: &Config) -> Result<Vec<Node>, AllocError>
    requires mesh { AreRadices config.now.radices.items }
    requires channels { AreChannels config.now.channels.items }
    requires depth { (1 ≤ config.now.depth) × (config.now.depth ≤ 16) }
    ensures all { IfOk result (λ v. length v.items ≡ node_count config.now.radices.items) }
    ensures fresh { IfOk result (λ v. AreFresh config.now.radices.items config.now.channels.items config.now.depth
        v.items) }
{
    let Ok(mesh) = Mesh::new(config.radices.as_slice()) else {
        unreachable!()
    };
    make_nodes(alloc, &mesh, config.channels.as_slice(), config.depth)
}
