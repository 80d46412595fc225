//! A mesh with its links' numbers by node and port. `_dims` and `_nodes` tell the proof that radices are in range.

ghost use Rattle.std.specs.Prelude.{◌≡◌, ◌<◌, ◌≤◌, ◌*◌, ◌↔◌, ℕ, IfSome, IsSome, Some, length};
ghost use Rattle.worm_mesh.specs.Address.{AreRadices, neighbour_of, node_count, opposite_of, stride_of};
ghost use Rattle.worm_mesh.specs.Links.{link_count, links_before};
ghost use Rattle.worm_wires.specs.Wiring.{AreLinksOf, AreSteps, in_link, into_from, kept_number, out_link, port_links};

use std::marker::Model;
use worm_mesh::Mesh;

/// The links of a mesh port that has a neighbour: the node beyond, and the numbers of the two links between.
#[derive(Clone, Copy)]
pub struct PortLinks {
    /// The node beyond the port.
    pub beyond: u8,
    /// The port by which the link out of this one enters the node beyond.
    pub entered: u8,
    /// The number of the link out of the port.
    pub out: u16,
    /// The number of the link into the port.
    pub into: u16,
}

/// What is kept of a port without a neighbour: no link has this number, since there are at most 1,536.
const NO_LINK: u16 = 65_535;

/// The numbers of the links out of a node by mesh port, `NO_LINK` where there is no neighbour.
#[derive(Clone, Copy)]
pub struct NodeLinks {
    /// By port.
    pub outs: [u16; 6],
}

/// A mesh and the links of each node, so that no step searches: 3 KB, since networks are moved by value.
#[derive(Drop)]
pub struct Wiring {
    mesh: Mesh,
    count: u16,
    terminal: u8,
    /// What a step by each mesh port adds to a node's number, modulo 256.
    steps: [u8; 6],
    /// By node number; of a node that is not there no links.
    nodes: [NodeLinks; 256],
}

impl Model for Wiring {
    ghost use Rattle.std.specs.Prelude.{ℕ, List};

    ghost Value = { List ℕ };

    ghost use Rattle.worm_wires.specs.Wiring.{IsWired};

    ghost view = { λ w. w.mesh };

    ghost invariant = { λ w. IsWired w.mesh w.count w.terminal w.steps w.nodes };
}

fn number_out(mesh: &Mesh, node: u8, port: u8) -> u16
    requires { AreRadices mesh.now }
    ensures { result ≡ kept_number (out_link mesh.now node port) }
{
    match mesh.link_number(node, port) {
        Some(number) => number,
        None => NO_LINK,
    }
}

fn links_of(mesh: &Mesh, node: u8) -> NodeLinks
    requires { AreRadices mesh.now }
    ensures { AreLinksOf mesh.now node result }
{
    let mut outs = [NO_LINK; 6];
    for port in 0..6u8 {
        outs[usize::from(port)] = number_out(mesh, node, port);
    }
    NodeLinks { outs }
}

fn stride(mesh: &Mesh, dim: u8) -> u8
    requires { dim < length mesh.now }
    ensures { result ≡ stride_of mesh.now dim }
{
    let _dims = mesh.dims();
    match mesh.neighbour(0, 2 * dim + 1) {
        Some(node) => node,
        None => unreachable!(),
    }
}

fn steps(mesh: &Mesh) -> [u8; 6]
    ensures { AreSteps mesh.now result }
{
    let mut steps = [0; 6];
    for dim in 0..mesh.dims() {
        let stride = stride(mesh, dim);
        steps[usize::from(2 * dim)] = 0u8.wrapping_sub(stride);
        steps[usize::from(2 * dim + 1)] = stride;
    }
    steps
}

impl Wiring {
    /// The mesh with its links' numbers.
    pub fn new(mesh: Mesh) -> Wiring
        requires { AreRadices mesh }
        ensures { result ≡ mesh }
    {
        let mut nodes = [NodeLinks { outs: [NO_LINK; 6] }; 256];
        for node in 0..256u16 {
            nodes[usize::from(node)] = links_of(&mesh, node as u8);
        }
        let count = mesh.nodes();
        let terminal = 2 * mesh.dims();
        let steps = steps(&mesh);
        Wiring {
            mesh,
            count,
            terminal,
            steps,
            nodes,
        }
    }

    /// The mesh.
    pub fn mesh(&self) -> &Mesh
        ensures { result.now ≡ self.now }
    {
        &self.mesh
    }

    /// How many nodes there are, 2 to 256.
    pub fn nodes(&self) -> u16
        ensures value { result ≡ node_count self.now }
        ensures bound { result ≤ 256 }
    {
        self.count
    }

    /// The terminal port of each node: 2, 4 or 6.
    pub fn terminal(&self) -> u8
        ensures value { result ≡ 2 * length self.now }
        ensures bound { result ≤ 6 }
    {
        self.terminal
    }

    fn kept(&self, node: u8, port: u8) -> u16
        requires { port < 6 }
        ensures value { result ≡ kept_number (out_link self.now node port) }
        ensures mesh { AreRadices self.now }
    {
        let _nodes = self.mesh.nodes();
        self.nodes[usize::from(node)].outs[usize::from(port)]
    }

    pub(crate) fn beyond(&self, node: u8, port: u8) -> u8
        requires { IsSome (neighbour_of self.now node port) }
        ensures { Some result ≡ neighbour_of self.now node port }
    {
        let _nodes = self.mesh.nodes();
        node.wrapping_add(self.steps[usize::from(port)])
    }

    pub(crate) fn entered(&self, node: u8, port: u8) -> u8
        requires { IsSome (neighbour_of self.now node port) }
        ensures value { result ≡ opposite_of port }
        ensures mesh_port { result < 6 }
    {
        let _nodes = self.mesh.nodes();
        let _there = self.beyond(node, port);
        self.mesh.opposite(port)
    }

    fn links_by(&self, node: u8, port: u8, out: u16) -> PortLinks
        requires neighbour { IsSome (neighbour_of self.now node port) }
        requires out { out ≡ kept_number (out_link self.now node port) }
        ensures { Some result ≡ port_links self.now node port }
    {
        let _nodes = self.mesh.nodes();
        let beyond = self.beyond(node, port);
        let entered = self.entered(node, port);
        let into = self.kept(beyond, entered);
        PortLinks {
            beyond,
            entered,
            out,
            into,
        }
    }

    /// The links of this port of the node, if there is a neighbour.
    pub fn links_at(&self, node: u8, port: u8) -> Option<PortLinks>
        ensures there { IsSome result ↔ IsSome (neighbour_of self.now node port) }
        ensures value { result ≡ port_links self.now node port }
        ensures mesh { AreRadices self.now }

        // The numbers again, by themselves.
        ensures out { IfSome result (λ links. links.out ≡ links_before self.now node port) }
        ensures into { IfSome result (λ links. links.into ≡ into_from self.now port (neighbour_of self.now node port)) }
        ensures bound { IfSome result (λ links. (links.out < link_count self.now)
            × (links.into < link_count self.now)) }
        ensures mesh_ports { IfSome result (λ links. (port < 6) × (links.entered < 6)) }
    {
        let _nodes = self.mesh.nodes();
        if port >= 6 {
            return None;
        }
        let out = self.kept(node, port);
        if out == NO_LINK {
            return None;
        }
        Some(self.links_by(node, port, out))
    }

    /// The links of this port of the node, which has a neighbour there.
    pub fn links_beyond(&self, node: u8, port: u8) -> PortLinks
        requires { IsSome (neighbour_of self.now node port) }
        ensures value { Some result ≡ port_links self.now node port }
        ensures mesh { AreRadices self.now }
        ensures bound { result.out < link_count self.now }
        ensures entered { result.entered < 6 }

        // The numbers again, by themselves.
        ensures out { result.out ≡ links_before self.now node port }
        ensures into { result.into ≡ into_from self.now port (neighbour_of self.now node port) }
        ensures back { result.into < link_count self.now }
        ensures mesh_port { port < 6 }
    {
        let _nodes = self.mesh.nodes();
        let out = self.kept(node, port);
        self.links_by(node, port, out)
    }

    /// The number of the link that leaves the node by this port, if there is one.
    pub fn link_out(&self, node: u8, port: u8) -> Option<u16>
        ensures value { result ≡ out_link self.now node port }
        ensures bound { IfSome result (λ number. number < link_count self.now) }
        ensures mesh_port { IsSome result → port < 6 }
    {
        let links = self.links_at(node, port)?;
        Some(links.out)
    }

    /// The number of the link that comes into this port of the node, if there is one.
    pub fn link_into(&self, node: u8, port: u8) -> Option<u16>
        ensures value { result ≡ in_link self.now node port }
        ensures bound { IfSome result (λ number. number < link_count self.now) }
        ensures mesh_port { IsSome result → port < 6 }
    {
        let links = self.links_at(node, port)?;
        Some(links.into)
    }
}
