//! What is read of a fabric along a route: its next link, the channels of a class, and what a link holds.

ghost use Rattle.std.specs.Prelude.{◌≡◌, ◌+◌, ◌<◌, ◌↔◌, IsSome, IsTrue, MatchOption, Some, length};
ghost use Rattle.std.specs.Prelude.{slice_get, slice_index};
ghost use Rattle.worm_flit.specs.Channels.{first_channel};
ghost use Rattle.worm_mesh.specs.Address.{node_count, neighbour_of};
ghost use Rattle.worm_region.specs.NextLink.{IsNextLink};
ghost use Rattle.worm_region.specs.State.{link_at};
ghost use Rattle.worm_region.specs.Moves.{link_out};

use super::Fabric;
use std::ops::Range;
use worm_flit::Flit;
use worm_mesh::LinkEnds;
use worm_route::next_port;

impl Fabric {
    /// The link by which the route to `dst` leaves the node; None at `dst` itself.
    pub fn next_link(&self, node: u8, dst: u8) -> Option<LinkEnds>
        requires node { node < node_count self.now.mesh }
        requires dst { dst < node_count self.now.mesh }
        ensures { MatchOption result (node ≡ dst) (IsNextLink self.now.mesh node dst) }
    {
        if node == dst {
            return None;
        }
        let out_port = next_port(self.links.wiring().mesh(), node, dst);
        let to = self.links.wiring().mesh().neighbour(node, out_port)?;
        Some(LinkEnds {
            from: node,
            out_port,
            to,
            in_port: self.links.wiring().mesh().opposite(out_port),
        })
    }

    /// The channels that the class owns.
    pub fn channels_of(&self, class: u8) -> Range<u8>
        requires { class < length self.now.channels }
        ensures first { result.start ≡ first_channel self.now.channels class }
        ensures end { result.end ≡ first_channel self.now.channels class + slice_index self.now.channels class }
    {
        let first = self.classes.first(class);
        first..first + self.classes.count(class)
    }

    /// Whether a link leaves the node by this port.
    pub fn has_link(&self, node: u8, port: u8) -> bool
        ensures { IsTrue result ↔ IsSome (neighbour_of self.now.mesh node port) }
    {
        self.links.wiring().link_out(node, port).is_some()
    }

    /// How many flits are on the link out of the node by this port.
    pub fn flit_count(&self, node: u8, port: u8) -> usize
        requires { IsSome (neighbour_of self.now.mesh node port) }
        ensures { result ≡ length (link_at self.now (link_out self.now node port)).flits }
    {
        self.links.count(node, port)
    }

    /// The flit at place `i` of the link out of the node by this port, counted from the front.
    pub fn flit(&self, node: u8, port: u8, i: usize) -> Flit
        requires linked { IsSome (neighbour_of self.now.mesh node port) }
        requires place { i < length (link_at self.now (link_out self.now node port)).flits }
        ensures { slice_get (link_at self.now (link_out self.now node port)).flits i ≡ Some result }
    {
        self.links.flit(node, port, i)
    }
}
