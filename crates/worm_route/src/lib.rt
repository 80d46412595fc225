//! Dimension-order routing on a k-ary n-mesh (Dally and Towles, chapter 8): the lowest dimension in which a node
//! differs from the destination is corrected first. So a route depends on its two ends alone, and is as short as any.
//!
//! One idea carries it: a route is one list of addresses, which the code's single hop walks with one look at each
//! dimension. The lane machine is the list of a lane's flits with a cut between each two of its places (source,
//! buffers, links), from the sink back; a hop raises one cut. No adaptive or randomized routing is here.
#![tactic(auto)]

ghost use Rattle.std.specs.Prelude.{◌≡◌, ◌≢◌, ◌+◌, ◌*◌, ◌/◌, ◌%◌, ◌<◌, ◌≤◌, ◌==◌, ◌↔◌, if◌then◌else◌, length, IsTrue};
ghost use Rattle.worm_mesh.specs.Address.{node_count};
ghost use Rattle.worm_route.specs.Crossing.{Follows, crosses, steps_down, steps_up};
ghost use Rattle.worm_route.specs.Places.{ArePlaces, places_of};
ghost use Rattle.worm_route.specs.Route.{LeadsOn, hops_of, port_of, route_of, walk};

use worm_mesh::Mesh;

/// The port by which the route to `dst` leaves `here`; at `dst` itself the terminal, twice the number of dimensions.
pub fn next_port(mesh: &Mesh, here: u8, dst: u8) -> u8
    requires here_in { here < node_count mesh.now }
    requires dst_in { dst < node_count mesh.now }
    ensures value { result ≡ port_of mesh.now here dst }
    ensures port { result ≤ 2 * length mesh.now }
    ensures arrived { here ≡ dst → result ≡ 2 * length mesh.now }
    ensures onward { here ≢ dst → LeadsOn mesh.now here result dst }
{
    let (mut at, mut goal) = (here, dst);
    for d in 0..mesh.dims() {
        let radix = mesh.radix(d);
        let (digit, at_above) = split(at, radix);
        let (aim, goal_above) = split(goal, radix);
        if digit < aim {
            return 2 * d + 1;
        }
        if digit > aim {
            return 2 * d;
        }
        at = at_above;
        goal = goal_above;
    }
    2 * mesh.dims()
}

/// How many links the route from `src` to `dst` takes: the sum of the distances of their digits.
pub fn hops(mesh: &Mesh, src: u8, dst: u8) -> u8
    requires src_in { src < node_count mesh.now }
    requires dst_in { dst < node_count mesh.now }
    ensures value { result ≡ hops_of mesh.now src dst }
    ensures walked { walk mesh.now dst result src ≡ route_of mesh.now src dst }
    ensures nodes { length (route_of mesh.now src dst) ≡ result + 1 }
    ensures places { ArePlaces mesh.now src dst (places_of mesh.now src dst) }
{
    let mut hops = 0;
    for d in 0..mesh.dims() {
        hops += mesh.digit(src, d).abs_diff(mesh.digit(dst, d));
    }
    hops
}

/// Whether the route from `src` to `dst` crosses the link from `node` by `port`. False where there is no such link.
pub fn crosses(mesh: &Mesh, node: u8, port: u8, src: u8, dst: u8) -> bool
    requires src_in { src < node_count mesh.now }
    requires dst_in { dst < node_count mesh.now }
    ensures value { result ≡ crosses mesh.now node port src dst }
    ensures exact { IsTrue result ↔ Follows mesh.now node port src dst }
{
    let (mut at, mut first, mut last) = (node, src, dst);
    for d in 0..mesh.dims() {
        let radix = mesh.radix(d);
        let (digit, at_above) = split(at, radix);
        let (start, first_above) = split(first, radix);
        let (aim, last_above) = split(last, radix);
        if d == port / 2 {
            return steps_by(port, digit, start, aim) && at_above == first_above;
        }
        if digit != aim {
            return false;
        }
        at = at_above;
        first = first_above;
        last = last_above;
    }
    false
}

// A division takes longest of all in a route, and most radices are powers of two: for these a mask and a shift do.
fn split(address: u8, radix: u8) -> (u8, u8)
    requires { 0 < radix }
    ensures digit { result.0 ≡ address % radix }
    ensures above { result.1 ≡ address / radix }
{
    let bits = radix.trailing_zeros();
    if 1 << bits == radix {
        return (address & (radix - 1), address >> bits);
    }
    (address % radix, address / radix)
}

fn steps_by(port: u8, at: u8, first: u8, last: u8) -> bool
    ensures { result ≡ (if port % 2 == 0 then steps_down at first last else steps_up at first last) }
{
    if port % 2 == 0 {
        at <= first && last < at
    } else {
        first <= at && at < last
    }
}
