//! The output port of the route from a node to each node of its mesh, and the ports that face a link: looked up at
//! each packet and each flit, not worked out.

ghost use Rattle.std.specs.Prelude.{◌≡◌, ℕ, ◌+◌, ◌*◌, ◌%◌, ◌≤◌, ◌<◌, length, is_some, IfOk};
ghost use Rattle.worm_mesh.specs.Address.{digit_of, neighbour_of, node_count};
ghost use Rattle.worm_route.specs.Route.{port_of};
ghost use Rattle.worm_router.specs.Routes.{AreLinked, AreRoutes};

use std::alloc::{AllocError, Global};
use std::marker::Model;
use worm_flit::SmallSet;
use worm_mesh::Mesh;
use worm_route::next_port;

/// The routes from one node of a mesh.
#[derive(Drop)]
pub struct Routes {
    mesh: Mesh,
    node: u8,
    /// The ports by which the node has a neighbour.
    linked: SmallSet,
    table: Vec<u8>,
}

impl Model for Routes {
    ghost use Rattle.worm_router.specs.Routes.{RoutesView, AreLinked, AreRoutes};

    ghost Value = { RoutesView };

    ghost view = { λ r. record { mesh = r.mesh; node = r.node } };

    ghost invariant = { λ r. AreRoutes r.mesh r.node r.table.items × AreLinked r.mesh r.node r.linked };
}

impl Routes {
    /// Those from this node of the mesh.
    pub fn from_node(alloc: Global, mesh: &Mesh, node: u8) -> Result<Routes, AllocError>
        requires { node < node_count mesh.now }
        ensures { IfOk result (λ r. r ≡ record { mesh = mesh.now; node = node }) }
    {
        let table = make_table(alloc, mesh, node)?;
        let linked = linked_ports(mesh, node);
        let mesh = *mesh;
        Ok(Routes {
            mesh,
            node,
            linked,
            table,
        })
    }

    /// The port of the route to a node.
    #[inline(always)]
    pub fn port(&self, dst: u8) -> u8
        requires { dst < node_count self.now.mesh }
        ensures value { result ≡ port_of self.now.mesh self.now.node dst }
        ensures bound { result ≤ 2 * length self.now.mesh }
    {
        self.table[usize::from(dst)]
    }

    /// Whether the node has a neighbour by the port.
    #[inline(always)]
    pub fn is_linked(&self, port: u8) -> bool
        requires { port < 8 }
        ensures { result ≡ is_some (neighbour_of self.now.mesh self.now.node port) }
    {
        self.linked.contains(port)
    }

    /// The port of a route that has arrived.
    #[inline(always)]
    pub fn terminal(&self) -> u8
        ensures value { result ≡ 2 * length self.now.mesh }
        ensures bound { result ≤ 6 }
    {
        2 * self.mesh.dims()
    }
}

fn linked_ports(mesh: &Mesh, node: u8) -> SmallSet
    ensures { AreLinked mesh.now node result }
{
    let mut linked = SmallSet::new();
    for port in 0..8u8 {
        linked.put(port, mesh.neighbour(node, port).is_some());
    }
    linked
}

/// The lowest digit of each node is counted: where it is not this node's own, it tells the port.
fn make_table(alloc: Global, mesh: &Mesh, node: u8) -> Result<Vec<u8>, AllocError>
    requires { node < node_count mesh.now }
    ensures { IfOk result (λ v. AreRoutes mesh.now node v.items) }
{
    let count = mesh.nodes();
    let radix = mesh.radix(0);
    let own = mesh.digit(node, 0);
    let mut table = Vec::with_capacity(alloc, usize::from(count))?;
    let mut lowest = 0;
    for dst in 0..count {
        table.push(port_by_lowest(mesh, node, own, dst as u8, lowest))?;
        lowest = next_digit(lowest, radix);
    }
    Ok(table)
}

fn port_by_lowest(mesh: &Mesh, node: u8, own: u8, dst: u8, lowest: u8) -> u8
    requires node { node < node_count mesh.now }
    requires dst { dst < node_count mesh.now }
    requires some_dims { 0 < length mesh.now }
    requires own { own ≡ digit_of mesh.now node 0 }
    requires lowest { lowest ≡ digit_of mesh.now dst 0 }
    ensures value { result ≡ port_of mesh.now node dst }
    ensures port { result ≤ 2 * length mesh.now }
{
    if lowest == own {
        return next_port(mesh, node, dst);
    }
    if own < lowest { 1 } else { 0 }
}

fn next_digit(digit: u8, radix: u8) -> u8
    requires { digit < radix }
    ensures { (n : ℕ) → digit ≡ n % radix → result ≡ (n + 1) % radix }
{
    let next = digit + 1;
    if next < radix { next } else { 0 }
}
