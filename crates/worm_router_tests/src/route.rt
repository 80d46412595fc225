//! Routes: the nodes and links that they pass, and the ports by which they turn.

ghost use Rattle.std.specs.Prelude.{◌<◌};

use crate::cases::{are_equal, mesh_of};
use crate::mesh::is_opposite;
use std::process::Abort;
use worm_mesh::Mesh;
use worm_route::{crosses, hops, next_port};

/// The port by which the route leaves the node.
fn port_from(rt: &impl Abort, mesh: &Mesh, here: u8, dst: u8) -> u8 {
    assert!(rt; u16::from(here) < mesh.nodes() && u16::from(dst) < mesh.nodes());
    next_port(mesh, here, dst)
}

/// The nodes that leaving each node by its next port passes, up to the terminal.
fn walked(rt: &impl Abort, mesh: &Mesh, src: u8, dst: u8) -> [u8; 8] {
    let mut nodes = [255; 8];
    let mut here = src;
    for place in 0..8 {
        nodes[place] = here;
        match mesh.neighbour(here, port_from(rt, mesh, here, dst)) {
            Some(to) => here = to,
            None => return nodes,
        }
    }
    nodes
}

/// The route passes these nodes.
fn passes<R: Abort + AllocGlobal>(rt: &R, mesh: &Mesh, nodes: [u8; 8], src: u8, dst: u8) {
    are_equal(rt, walked(rt, mesh, src, dst), nodes);
}

/// The route takes so many links.
fn takes(rt: &impl Abort, mesh: &Mesh, count: u8, src: u8, dst: u8) {
    assert!(rt; u16::from(src) < mesh.nodes() && u16::from(dst) < mesh.nodes());
    are_equal(rt, hops(mesh, src, dst), count);
}

/// The route to the node leaves these by these ports.
fn leaves<R: Abort + AllocGlobal>(rt: &R, mesh: &Mesh, dst: u8, ports: &[(u8, u8)]) {
    for (here, port) in ports {
        are_equal(rt, (here, port_from(rt, mesh, *here, dst)), (here, *port));
    }
}

#[test]
fn routes_in_a_square_of_four(rt: HostRuntime) {
    let mesh = mesh_of(&rt, &[4, 4]);
    passes(&rt, &mesh, [1, 2, 6, 10, 14, 255, 255, 255], 1, 14);
    takes(&rt, &mesh, 4, 1, 14);
    leaves(&rt, &mesh, 14, &[(1, 1), (2, 3), (14, 4)]);
}

/// Whether the route from node 0 to node 5 crosses the links that leave these nodes by these ports.
fn are_crossed(rt: &impl Abort, mesh: &Mesh, links: &[(u8, u8)], within: bool) {
    assert!(rt; mesh.nodes() > 5);
    for (node, port) in links {
        are_equal(
            rt,
            (node, port, crosses(mesh, *node, *port, 0, 5)),
            (node, port, within),
        );
    }
}

#[test]
fn routes_in_three_by_two(rt: HostRuntime) {
    let mesh = mesh_of(&rt, &[3, 2]);
    passes(&rt, &mesh, [0, 1, 2, 5, 255, 255, 255, 255], 0, 5);
    passes(&rt, &mesh, [5, 4, 3, 0, 255, 255, 255, 255], 5, 0);
    takes(&rt, &mesh, 3, 0, 5);
    leaves(&rt, &mesh, 5, &[(2, 3)]);
    leaves(&rt, &mesh, 0, &[(3, 2)]);
    are_crossed(&rt, &mesh, &[(0, 1), (1, 1), (2, 3)], true);
    let others = [(0, 3), (1, 0), (3, 1), (5, 1), (6, 1), (0, 5)];
    are_crossed(&rt, &mesh, &others, false);
}

/// A flit from 0 to 8 in a square of three: it leaves 0 and 1 by port 1, enters 2 by port 0, leaves it by port 3 and
/// enters 5 by port 2.
#[test]
fn turns_in_a_square_of_three(rt: HostRuntime) {
    let mesh = mesh_of(&rt, &[3, 3]);
    leaves(&rt, &mesh, 8, &[(0, 1), (1, 1), (2, 3)]);
    are_equal(&rt, mesh.dims(), 2);
    is_opposite(&rt, &mesh, 1, 0);
    is_opposite(&rt, &mesh, 3, 2);
    are_equal(&rt, mesh.neighbour(2, 3), Some(5));
}

/// The largest mesh, and a line: to the far corner and back.
#[test]
fn routes_to_the_far_corner(rt: HostRuntime) {
    let largest = mesh_of(&rt, &[4, 8, 8]);
    leaves(&rt, &largest, 255, &[(0, 1), (3, 3), (31, 5), (255, 6)]);
    leaves(&rt, &largest, 0, &[(255, 0), (252, 2), (224, 4), (0, 6)]);
    let line = mesh_of(&rt, &[16]);
    leaves(&rt, &line, 15, &[(0, 1), (15, 2)]);
    leaves(&rt, &line, 0, &[(15, 0), (0, 2)]);
}
