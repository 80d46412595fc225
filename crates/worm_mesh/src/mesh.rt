ghost use Rattle.std.specs.Prelude.{◌≡◌, ℕ, ◌+◌, ◌-◌, ◌*◌, ◌^◌, ◌<◌, ◌≤◌, ◌↔◌, List, length, MatchResult};
ghost use Rattle.std.specs.Prelude.{MatchOption, SomeIff, IfSome, IsTrue, All, take, drop, replicate, slice_index};
ghost use Rattle.worm_mesh.specs.Address.{IsRadix};
ghost use Rattle.worm_mesh.specs.Links.{degree_by_digits, links_in_rows, sides_of, sum_below};

use std::marker::Model;
use thiserror::Error;

/// Why a list of radices makes no mesh: the first of these limits that the radices break. Its text is its name.
#[derive(Clone, Copy, Debug, PartialEq, Eq, Error)]
pub enum MeshFault {
    /// A radix is below 2 or above 16.
    #[error("Radix")]
    Radix,
    /// There is no dimension, or there are more than three.
    #[error("Dims")]
    Dims,
    /// The radices' product is above 256.
    #[error("TooManyNodes")]
    TooManyNodes,
}

/// A k-ary n-mesh of 1 to 3 dimensions, each with its own radix from 2 to 16, and of at most 256 nodes (Dally and
/// Towles, chapter 5). In contracts it is the list of its radices, the lowest dimension first. A node's number sums
/// its digits, each times the radices below it. Port `2d` is the minus side of dimension `d`, `2d + 1` its plus side.
///
/// ```
/// let mesh = Mesh::new(&[3, 2])?;
/// assert_eq!(rt; mesh.neighbour(0, 3), Some(3));
/// assert_eq!(rt; mesh.links(), 14);
/// ```
#[derive(Clone, Copy, Debug, PartialEq, Eq)]
pub struct Mesh {
    // The lowest dimension first. Past the last one they are 1, so the product of all three is the number of nodes.
    radices: [u8; 3],
    dims: u8,
}

/// The two ends of a link: it leaves node `from` by its port `out_port` and enters node `to` by its port `in_port`.
#[derive(Clone, Copy, Debug, PartialEq, Eq)]
pub struct LinkEnds {
    /// The node that sends on the link.
    pub from: u8,
    /// The port of `from` by which flits leave.
    pub out_port: u8,
    /// The node that takes from the link.
    pub to: u8,
    /// The port of `to` by which flits arrive: the opposite of `out_port`.
    pub in_port: u8,
}

impl Model for Mesh {
    ghost use Rattle.std.specs.Prelude.{ℕ, ◌≡◌, List, take, length};
    ghost use Rattle.std.proofs.Common.{arith, length-take, refl, take-append-drop};
    ghost use Rattle.worm_mesh.specs.Stored.{IsStored, filled_up};

    ghost Value = { List ℕ };

    ghost view = { λ m. take m.dims m.radices };

    ghost invariant = { λ m. IsStored m.radices m.dims };

    ghost inverse = { λ ks. record { radices = filled_up ks; dims = length ks } };

    ghost inverse_ok = { λ m h.
        let three = h.three in
        let dims_fit = h.dims_fit in
        let counted : length (take m.dims m.radices) ≡ m.dims = Prim.simp length-take (Prim.omega arith) in
        let filled : filled_up (take m.dims m.radices) ≡ m.radices
        = Prim.rw (counted, ← h.filled) (take-append-drop m.dims m.radices) in
        Prim.rw (filled, counted) refl };
}

fn are_radices(radices: &[u8]) -> bool
    ensures { IsTrue result ↔ All IsRadix radices.now }
{
    radices.iter().all(|k| *k >= 2 && *k <= 16)
}

#[derive(Clone, Copy)]
struct LinkCounts {
    below: u16,
    here: u16,
}

// It looks at no node below: it goes by the lowest digit, and by the counts at the row in the higher dimensions.
fn link_counts(radices: &[u8], node: u16) -> LinkCounts
    requires few_dims { length radices.now ≤ 3 }
    requires radices { All IsRadix radices.now }
    requires few_nodes { node ≤ 256 }
    ensures below { result.below ≡ sum_below (degree_by_digits radices.now) node }
    ensures here { result.here ≡ degree_by_digits radices.now node }
{
    match radices {
        [] => LinkCounts { below: 0, here: 0 },
        [radix, higher @ ..] => {
            let radix = u16::from(*radix);
            let row = node / radix;
            let digit = node % radix;
            let rest = link_counts(higher, row);
            LinkCounts {
                below: links_in_rows(radix, row, digit, rest),
                here: sides_of(radix, digit) + rest.here,
            }
        }
    }
}

fn sides_of(radix: u16, digit: u16) -> u16
    requires { digit < radix }
    ensures value { result ≡ sides_of radix digit }
    ensures few { result ≤ 2 }
{
    u16::from(digit > 0) + u16::from(digit + 1 < radix)
}

fn links_in_rows(radix: u16, row: u16, digit: u16, rest: LinkCounts) -> u16
    requires radix { IsRadix radix }
    requires fits { links_in_rows radix row digit rest.below rest.here < 2 ^ 16 }
    ensures { result ≡ links_in_rows radix row digit rest.below rest.here }
{
    let whole_rows = row * (2 * (radix - 1)) + radix * rest.below;
    let last_row = digit.saturating_sub(1) + digit + digit * rest.here;
    whole_rows + last_row
}

impl Mesh {
    ghost use Rattle.worm_mesh.specs.Address.{AreRadices, IsAddress, Joins, AreNeighbours, node_count, stride_of};
    ghost use Rattle.worm_mesh.specs.Address.{address_of, digit_of, has_neighbour, neighbour_of, opposite_of};
    ghost use Rattle.worm_mesh.specs.Links.{links_below_port, degree_of, links_before, link_count, channels_in, IsLink};
    ghost use Rattle.worm_mesh.specs.Links.{IsNumbering};
    ghost use Rattle.worm_mesh.specs.Ends.{AreEndsOf};
    ghost use Rattle.worm_mesh.specs.Faults.{IsFault};

    /// The mesh with these radices, the lowest dimension first. Refused, in this order: `Radix` where any radix is
    /// outside 2 to 16, `Dims` where there is none or more than three, `TooManyNodes` where the product is above 256.
    pub fn new(radices: &[u8]) -> Result<Mesh, MeshFault>
        ensures { MatchResult result (λ m. (m ≡ radices.now) × AreRadices radices.now) (IsFault radices.now) }
    {
        if !are_radices(radices) {
            return Err(MeshFault::Radix);
        }
        match radices {
            [a] => Mesh::bounded([*a, 1, 1], 1),
            [a, b] => Mesh::bounded([*a, *b, 1], 2),
            [a, b, c] => Mesh::bounded([*a, *b, *c], 3),
            _ => Err(MeshFault::Dims),
        }
    }

    fn bounded(radices: [u8; 3], dims: u8) -> Result<Mesh, MeshFault>
        requires some_dims { 0 < dims }
        requires few_dims { dims ≤ 3 }
        requires three { length radices ≡ 3 }
        requires radices { All IsRadix (take dims radices) }
        requires filled { drop dims radices ≡ replicate (3 - dims) 1 }
        ensures { MatchResult result (λ m. (m ≡ take dims radices) × AreRadices m)
            (λ e. (e ≡ MeshFault.TooManyNodes) × (256 < node_count (take dims radices))) }
    {
        let [a, b, c] = radices;
        if u16::from(a) * u16::from(b) * u16::from(c) > 256 {
            return Err(MeshFault::TooManyNodes);
        }
        Ok(Mesh { radices, dims })
    }

    /// How many nodes there are, 2 to 256: the product of the radices.
    pub fn nodes(&self) -> u16
        ensures value { result ≡ node_count self.now }
        ensures mesh { AreRadices self.now }
    {
        let [a, b, c] = self.radices;
        u16::from(a) * u16::from(b) * u16::from(c)
    }

    /// How many dimensions there are, 1 to 3.
    pub fn dims(&self) -> u8
        ensures value { result ≡ length self.now }
        ensures mesh { AreRadices self.now }
        ensures low { 1 ≤ result }
        ensures high { result ≤ 3 }
    {
        self.dims
    }

    /// The radix of dimension `d`, 2 to 16.
    pub fn radix(&self, d: u8) -> u8
        requires { d < length self.now }
        ensures value { result ≡ slice_index self.now d }
        ensures limits { IsRadix result }
        ensures mesh { AreRadices self.now }
    {
        self.radices[usize::from(d)]
    }

    fn stride(&self, d: u8) -> u16
        requires { d < length self.now }
        ensures value { result ≡ stride_of self.now d }
        ensures mesh { AreRadices self.now }
    {
        let [a, b, _] = self.radices;
        match d {
            0 => 1,
            1 => u16::from(a),
            _ => u16::from(a) * u16::from(b),
        }
    }

    /// Digit `d` of a node's address, below the radix of dimension `d`.
    pub fn digit(&self, node: u8, d: u8) -> u8
        requires in_mesh { node < node_count self.now }
        requires in_dims { d < length self.now }
        ensures value { result ≡ digit_of self.now node d }
        ensures below { result < slice_index self.now d }
        ensures address { IsAddress self.now node (address_of self.now node) }
        ensures one_address { (ds : List ℕ) → IsAddress self.now node ds → ds ≡ address_of self.now node }
    {
        (u16::from(node) / self.stride(d) % u16::from(self.radix(d))) as u8
    }

    fn has_neighbour(&self, node: u8, port: u8) -> bool
        ensures value { result ≡ has_neighbour self.now node port }
        ensures mesh { AreRadices self.now }
    {
        let d = port / 2;
        if u16::from(node) >= self.nodes() || d >= self.dims() {
            return false;
        }
        let digit = self.digit(node, d);
        if port % 2 == 0 {
            digit > 0
        } else {
            digit + 1 < self.radix(d)
        }
    }

    /// The node that `port` of `node` leads to. None at the edge, at the terminal, and for a node or port not there.
    pub fn neighbour(&self, node: u8, port: u8) -> Option<u8>
        ensures value { result ≡ neighbour_of self.now node port }
        ensures joins { MatchOption result ((to : ℕ) → ¬ Joins self.now node port to) (Joins self.now node port) }
        ensures neighbours { IfSome result (AreNeighbours self.now node) }
        ensures each { (to : ℕ) → AreNeighbours self.now node to → (p : ℕ) × Joins self.now node p to }
    {
        if !self.has_neighbour(node, port) {
            return None;
        }
        let stride = self.stride(port / 2);
        let to = if port % 2 == 0 {
            u16::from(node) - stride
        } else {
            u16::from(node) + stride
        };
        Some(to as u8)
    }

    /// The port by which what leaves a node by `port` enters its neighbour: the other side of the same dimension.
    pub fn opposite(&self, port: u8) -> u8
        requires { port < 2 * length self.now }
        ensures value { result ≡ opposite_of port }
        ensures mesh_port { result < 2 * length self.now }
        ensures twice { opposite_of result ≡ port }
        ensures back { (from : ℕ) (to : ℕ) → Joins self.now from port to → Joins self.now to result from }
    {
        port ^ 1
    }

    fn links_below_port(&self, node: u8, port: u8) -> u16
        requires { port ≤ 2 * length self.now }
        ensures value { result ≡ links_below_port self.now node port }
        ensures few { result ≤ port }
    {
        let mut count = 0;
        for lower in 0..port {
            if self.has_neighbour(node, lower) {
                count += 1;
            }
        }
        count
    }

    fn links_below_node(&self, node: u16) -> u16
        requires { node ≤ node_count self.now }
        ensures value { result ≡ sum_below (degree_of self.now) node }
        ensures few { result ≤ 6 * node }
    {
        let radices = &self.radices[..usize::from(self.dims)];
        link_counts(radices, node).below
    }

    /// How many links there are, each direction counted on its own (Dally and Towles, chapter 5, call them channels).
    pub fn links(&self) -> u16
        ensures value { result ≡ link_count self.now }
        ensures book { result ≡ channels_in (node_count self.now) self.now }
    {
        self.links_below_node(self.nodes())
    }

    /// The number, by rising node, then port, of the link that leaves `node` by `port`; None where there is none.
    pub fn link_number(&self, node: u8, port: u8) -> Option<u16>
        ensures value { SomeIff result (IsLink self.now node port) (links_before self.now node port) }
        ensures in_range { IfSome result (λ n. n < link_count self.now) }
        ensures one_link { IsNumbering self.now }
    {
        if !self.has_neighbour(node, port) {
            return None;
        }
        Some(self.links_below_node(u16::from(node)) + self.links_below_port(node, port))
    }

    /// The ends of the link with this number; None at `links()` and above. It goes through the nodes: not for a turn.
    pub fn link_ends(&self, number: u16) -> Option<LinkEnds>
        ensures { MatchOption result (link_count self.now ≤ number) (AreEndsOf self.now number) }
    {
        for node in 0..self.nodes() {
            let ends = self.link_ends_at(node as u8, number);
            if ends.is_some() {
                return ends;
            }
        }
        None
    }

    fn link_ends_at(&self, from: u8, number: u16) -> Option<LinkEnds>
        requires in_mesh { from < node_count self.now }
        requires reached { sum_below (degree_of self.now) from ≤ number }
        ensures { MatchOption result (sum_below (degree_of self.now) (from + 1) ≤ number) (AreEndsOf self.now number) }
    {
        let mut before = self.links_below_node(u16::from(from));
        for out_port in 0..2 * self.dims() {
            if let Some(to) = self.neighbour(from, out_port) {
                if before == number {
                    let in_port = self.opposite(out_port);
                    return Some(LinkEnds {
                        from,
                        out_port,
                        to,
                        in_port,
                    });
                }
                before += 1;
            }
        }
        None
    }
}
