//! The k-ary n-mesh (Dally and Towles, chapter 5): numbers and addresses of its nodes, ports, neighbours and links.
//!
//! One idea carries it: a mesh is the list of its radices, an address the list of its digits, the lowest dimension
//! first. The code computes with node numbers, contracts speak of digits, and one bijection joins the two. Each call
//! but `link_ends` takes a few steps, whatever the mesh, and nothing allocates. There is no torus, and no route.
#![tactic(auto)]

pub mod mesh;

pub use mesh::{LinkEnds, Mesh, MeshFault};
