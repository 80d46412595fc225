//! A region made of its lists, read, and taken apart again.

ghost use Rattle.std.specs.Prelude.{◌≡◌};
ghost use Rattle.worm_region.specs.Parts.{part_state};
ghost use Rattle.worm_region.specs.Workable.{IsWorkable};

use super::Region;
use crate::fabric::Fabric;
use crate::fabric::configuration::{counts_of, radices_of};
use crate::nodes::Nodes;
use crate::{Config, NetParts, Owner};
use worm_flit::ClassChannels;
use worm_mesh::Mesh;
use worm_wires::Links;

impl Region {
    /// The region of these lists, of which the worker owns its nodes. It takes no memory.
    pub fn from_parts(parts: NetParts, own: Owner) -> Region
        requires { IsWorkable (part_state parts own) }
        ensures { result ≡ part_state parts own }
    {
        let NetParts {
            config,
            nodes,
            links,
            inboxes,
        } = parts;
        let Config {
            radices,
            depth,
            classes: names,
            channels,
        } = config;
        let Ok(mesh) = Mesh::new(radices.as_slice()) else {
            unreachable!()
        };
        let classes = ClassChannels::new(channels.as_slice());
        let nodes = Nodes::new(nodes);
        Region {
            fabric: Fabric {
                links: Links::new(mesh, links, inboxes),
                classes,
                depth,
                names,
                nodes,
                own,
            },
        }
    }

    /// The region's lists. It takes no memory.
    pub fn into_parts(self) -> NetParts
        ensures parts { part_state result self.own ≡ self }
        ensures works { IsWorkable (part_state result self.own) }
    {
        let Region { fabric } = self;
        let Fabric {
            links,
            classes,
            depth,
            names,
            nodes,
            own: _,
        } = fabric;
        let config = Config {
            radices: radices_of(links.wiring().mesh()),
            depth,
            classes: names,
            channels: counts_of(&classes),
        };
        let (links, inboxes) = links.into_states();
        NetParts {
            config,
            nodes: nodes.into_list(),
            links,
            inboxes,
        }
    }

    /// Which nodes are owned.
    pub fn own(&self) -> Owner
        ensures { result ≡ self.now.own }
    {
        self.fabric.own
    }

    /// The mesh.
    pub fn mesh(&self) -> &Mesh
        ensures { result.now ≡ self.now.mesh }
    {
        self.fabric.wires().wiring().mesh()
    }
}
