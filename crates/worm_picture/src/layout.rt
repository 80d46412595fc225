//! Where things stand in the picture, in units of its user space.

ghost use Rattle.std.specs.Prelude.{◌≡◌};
ghost use Rattle.worm_picture.specs.Map.{digit_at, radix_at};

use worm_mesh::Mesh;

/// The length and the width of a flit's slot.
pub const SLOT: u32 = 12;

const MARGIN: u32 = 20;

const GAP: u32 = 30;

/// What is added to the gap in three dimensions, for the stubs of the third and their numbers.
const MORE: u32 = 30;

/// The room between the core and the strips of the third dimension, for the ways out by it.
pub const WAYS: u32 = 20;

/// How far a stub of the third dimension stands out from its node.
pub const STUB: u32 = 24;

/// From the border of a node to the middle of the first flit on a link.
pub const FIRST: u32 = 9;

/// The width that the legend takes: no picture is narrower.
pub const NARROWEST: u32 = 780;

/// The room above a slice of three dimensions, for its name.
pub const NAME: u32 = 30;

/// The room for the heading, in a small picture.
pub const HEADING: u32 = 64;

/// The room for the legend below the heading, in a small picture.
pub const LEGEND: u32 = 100;

/// The room for one more line of the legend.
pub const LINE: u32 = 20;

/// The sizes of a node, a square about its middle. Flits pass from port to port in its core; at each side of the core
/// is a strip with the buffers of a port.
#[derive(Clone, Copy, Debug, PartialEq, Eq)]
pub struct Layout {
    /// The length of a strip: the depth of a buffer.
    pub long: u32,
    /// The width of a strip: the channels.
    pub wide: u32,
    /// From the middle to the border of the core.
    pub core: u32,
    /// From the middle to the border of the node.
    pub half: u32,
    /// From the middle of a node to that of the next.
    pub pitch: u32,
    ghost few_long: { long ≤ 4000 },
    ghost few_wide: { wide ≤ 4000 },
    ghost few_core: { core ≤ 5000 },
    ghost few_half: { half ≤ 10000 },
    ghost few_pitch: { pitch ≤ 30000 },
    ghost nested: { core + long ≤ half },
    ghost apart: { 2 * half ≤ pitch },
}

ghost use Rattle.std.specs.Prelude.{◌≤◌, ◌+◌, ◌*◌};

impl Layout {
    /// The sizes for buffers of `depth` flits and `vcs` channels, in `dims` dimensions.
    pub fn new(depth: u8, vcs: u8, dims: u8) -> Layout {
        let third = u32::from(dims / 3);
        let long = SLOT * u32::from(depth);
        let wide = SLOT * u32::from(vcs);
        let core = wide + 4;
        let half = core + long.max(wide + WAYS * third) + MARGIN;
        Layout {
            long,
            wide,
            core,
            half,
            pitch: 2 * half + GAP + MORE * third,
        }
    }

    /// The middle of a node's row or column.
    pub fn middle(&self, digit: u8) -> u32 {
        u32::from(digit)
            .saturating_mul(self.pitch)
            .saturating_add(self.pitch / 2)
    }

    /// How far apart `flits` flits on the link to a port stand, so that all are between the nodes.
    pub fn on_link(&self, port: u8, flits: usize) -> u32 {
        let room = if port < 4 {
            self.pitch - 2 * self.half
        } else {
            STUB
        };
        let others = flits.saturating_sub(1).min(255);
        step(others as u32, room.saturating_sub(2 * FIRST), SLOT)
    }

    /// From the middle of a node to its counts.
    pub fn low(&self) -> u32 {
        self.half.saturating_sub(4)
    }
}

/// How far apart `others` things stand that follow a first one in this room: no further than `most`.
pub fn step(others: u32, room: u32, most: u32) -> u32 {
    most.min(room / others.max(1))
}

/// A digit of a node's address, 0 in a dimension that the mesh does not have.
pub fn digit(mesh: &Mesh, node: u8, dim: u8) -> u8
    ensures { result ≡ digit_at mesh.now node dim }
{
    if dim < mesh.dims() && u16::from(node) < mesh.nodes() {
        mesh.digit(node, dim)
    } else {
        0
    }
}

/// The radix of a dimension, 1 where the mesh does not have it.
pub fn radix(mesh: &Mesh, dim: u8) -> u8
    ensures { result ≡ radix_at mesh.now dim }
{
    if dim < mesh.dims() {
        mesh.radix(dim)
    } else {
        1
    }
}

/// How many slices stand side by side, so that the picture of them all is about square.
pub fn slices_across(mesh: &Mesh) -> u32
    ensures { 1 ≤ result }
{
    let columns = u32::from(radix(mesh, 0));
    let rows = u32::from(radix(mesh, 1));
    let slices = u32::from(radix(mesh, 2));
    let wanted = slices.saturating_mul(rows);
    let found = (1..17u32).find(|across| {
        across.saturating_mul(*across).saturating_mul(columns) >= wanted
    });
    found.unwrap_or(1).max(1)
}
