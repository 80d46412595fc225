//! Meshes: their faults, neighbours and links.

ghost use Rattle.std.specs.Prelude.{◌<◌};

use crate::cases::{are_equal, mesh_of, reads};
use std::process::Abort;
use worm_mesh::{LinkEnds, Mesh, MeshFault};

/// Radices make no mesh, for this fault.
fn are_refused(rt: &impl Abort, radices: &[u8], fault: MeshFault) {
    are_equal(rt, (radices, Mesh::new(radices)), (radices, Err(fault)));
}

/// The mesh with these radices has so many nodes.
fn have_nodes(rt: &impl Abort, radices: &[u8], nodes: u16) {
    are_equal(
        rt,
        (radices, mesh_of(rt, radices).nodes()),
        (radices, nodes),
    );
}

#[test]
fn refuses_radices_in_order(rt: HostRuntime) {
    are_refused(&rt, &[1], MeshFault::Radix);
    are_refused(&rt, &[17], MeshFault::Radix);
    are_refused(&rt, &[2, 2, 2, 1], MeshFault::Radix);
    are_refused(&rt, &[16, 16, 17], MeshFault::Radix);
    are_refused(&rt, &[2, 2, 2, 2], MeshFault::Dims);
    are_refused(&rt, &[16, 16, 16, 16], MeshFault::Dims);
    are_refused(&rt, &[], MeshFault::Dims);
    are_refused(&rt, &[7, 7, 7], MeshFault::TooManyNodes);
    are_refused(&rt, &[16, 16, 2], MeshFault::TooManyNodes);
    // 260 nodes, in both ways, are the least past 256.
    are_refused(&rt, &[2, 10, 13], MeshFault::TooManyNodes);
    are_refused(&rt, &[4, 5, 13], MeshFault::TooManyNodes);
    have_nodes(&rt, &[16, 8, 2], 256);
    have_nodes(&rt, &[16, 16], 256);
    have_nodes(&rt, &[2], 2);
    have_nodes(&rt, &[3, 2], 6);
}

#[test]
fn prints_a_fault_by_its_name(rt: HostRuntime) {
    let alloc = rt.alloc();
    reads(&rt, format!(in alloc; "{}", MeshFault::Radix), "Radix");
    reads(&rt, format!(in alloc; "{}", MeshFault::Dims), "Dims");
    reads(
        &rt,
        format!(in alloc; "{}", MeshFault::TooManyNodes),
        "TooManyNodes",
    );
}

/// The node beyond the port; none where there is no link.
fn leads_to(rt: &impl Abort, mesh: &Mesh, node: u8, port: u8, beyond: Option<u8>) {
    are_equal(
        rt,
        (node, port, mesh.neighbour(node, port)),
        (node, port, beyond),
    );
}

/// The link that leaves the node by the port has this number; none where there is no link.
fn is_numbered(rt: &impl Abort, mesh: &Mesh, node: u8, port: u8, number: Option<u16>) {
    are_equal(
        rt,
        (node, port, mesh.link_number(node, port)),
        (node, port, number),
    );
}

/// There is no link at the port.
fn is_edge(rt: &impl Abort, mesh: &Mesh, node: u8, port: u8) {
    leads_to(rt, mesh, node, port, None);
    is_numbered(rt, mesh, node, port, None);
}

#[test]
fn a_square_of_four(rt: HostRuntime) {
    let mesh = mesh_of(&rt, &[4, 4]);
    are_equal(&rt, mesh.links(), 48);
    leads_to(&rt, &mesh, 1, 1, Some(2));
    leads_to(&rt, &mesh, 2, 3, Some(6));
    leads_to(&rt, &mesh, 14, 2, Some(10));
    is_edge(&rt, &mesh, 14, 3);
    is_edge(&rt, &mesh, 15, 1);
    is_edge(&rt, &mesh, 16, 0);
    is_edge(&rt, &mesh, 1, 4);
    is_edge(&rt, &mesh, 255, 255);
}

/// The link of this number leads from a node's port to another's.
fn has_ends(rt: &impl Abort, mesh: &Mesh, number: u16, start: (u8, u8), end: (u8, u8)) {
    let (from, out_port) = start;
    let (to, in_port) = end;
    let ends = LinkEnds {
        from,
        out_port,
        to,
        in_port,
    };
    are_equal(rt, mesh.link_ends(number), Some(ends));
}

#[test]
fn a_line_of_two(rt: HostRuntime) {
    let mesh = mesh_of(&rt, &[2]);
    are_equal(&rt, mesh.links(), 2);
    are_equal(&rt, mesh.dims(), 1);
    is_numbered(&rt, &mesh, 0, 1, Some(0));
    is_numbered(&rt, &mesh, 1, 0, Some(1));
    has_ends(&rt, &mesh, 0, (0, 1), (1, 0));
    has_ends(&rt, &mesh, 1, (1, 0), (0, 1));
    are_equal(&rt, mesh.link_ends(2), None);
}

/// The dimension has this radix, and the node this digit in it.
fn has_digit(rt: &impl Abort, mesh: &Mesh, dim: u8, radix: u8, node: u8, digit: u8) {
    assert!(rt; dim < mesh.dims() && u16::from(node) < mesh.nodes());
    are_equal(rt, (mesh.radix(dim), mesh.digit(node, dim)), (radix, digit));
}

/// What leaves by the port enters by the other.
pub fn is_opposite(rt: &impl Abort, mesh: &Mesh, port: u8, other: u8) {
    assert!(rt; port < 2 * mesh.dims());
    are_equal(rt, mesh.opposite(port), other);
}

/// The mesh is the one with these radices, and not the other.
fn is_mesh(rt: &impl Abort, mesh: &Mesh, radices: &[u8], others: &[u8]) {
    assert!(rt; *mesh == mesh_of(rt, radices) && *mesh != mesh_of(rt, others));
}

#[test]
fn three_by_two(rt: HostRuntime) {
    let mesh = mesh_of(&rt, &[3, 2]);
    are_equal(&rt, (mesh.links(), mesh.nodes(), mesh.dims()), (14, 6, 2));
    is_numbered(&rt, &mesh, 0, 3, Some(1));
    is_numbered(&rt, &mesh, 1, 3, Some(4));
    has_digit(&rt, &mesh, 0, 3, 5, 2);
    has_digit(&rt, &mesh, 1, 2, 5, 1);
    is_opposite(&rt, &mesh, 1, 0);
    is_opposite(&rt, &mesh, 2, 3);
    is_mesh(&rt, &mesh, &[3, 2], &[2, 3]);
    let text = "Mesh { radices: [3, 2, 1], dims: 2 }";
    reads(&rt, format!(in rt.alloc(); "{mesh:?}"), text);
}
