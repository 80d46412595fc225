//! The link from node 0 to node 1 of two, whose channels are all of class 0.

mod credits;
mod flits;

ghost use Rattle.std.specs.Prelude.{◌≡◌};
ghost use Rattle.worm_links.specs.Trial.{pair_link};

use crate::cases::mesh_of;
use std::process::Abort;
use worm_links::LinkCfg;

/// The link with so many channels, and room for so many flits on each.
fn pair(rt: &impl Abort, channels: u8, depth: u8) -> LinkCfg
    ensures { result ≡ pair_link channels depth }
{
    LinkCfg {
        mesh: mesh_of(rt, &[2]),
        node: 0,
        port: 1,
        channels,
        depth,
        owners: [0; 8],
    }
}
