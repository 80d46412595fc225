//! The ways of packets through a node: lines in the packet's colour, with a dark edge.

ghost use Rattle.std.specs.Prelude.{[], OnOk, Some};
ghost use Rattle.worm_picture.specs.Picture.{Adds};
ghost use Rattle.worm_picture.specs.Ways.{way_path};

use crate::layout::{Layout, STUB, WAYS, step};
use crate::packets::Packet;
use crate::scene::{Spot, exit_port};
use crate::signs::{colour_of, way_of};
use crate::svg::Svg;
use crate::views::Station;
use std::alloc::AllocError;
use std::fmt;
use std::fmt::Write;
use worm_mesh::Mesh;

const APART: u32 = 8;

const TO_SINK: u32 = 12;

/// Where a way stands among those that lead out of a node by one port.
#[derive(Clone, Copy, Debug, PartialEq, Eq)]
pub struct Lane {
    rank: u32,
    ways: u32,
}

impl Lane {
    /// Where it is in this room, if all stand side by side in the room's middle.
    fn beside(self, room: u32) -> u32 {
        let others = self.ways.saturating_sub(1);
        let apart = step(others, room, APART);
        let left = room.saturating_sub(apart.saturating_mul(others));
        (left / 2).saturating_add(apart.saturating_mul(self.rank))
    }
}

fn front_exit(mesh: &Mesh, station: &Station) -> Option<u8> {
    exit_port(mesh, station.held.as_slice().first()?)
}

/// Where the way of a channel's front stands among the ways of the node's fronts that leave by this port.
pub fn lane_of(mesh: &Mesh, stations: &[Station], spot: Spot, exit: u8) -> Lane {
    let mut lane = Lane { rank: 0, ways: 0 };
    for station in stations {
        if station.spot == spot {
            lane.rank = lane.ways;
        }
        if front_exit(mesh, station) == Some(exit) {
            lane.ways = lane.ways.saturating_add(1);
        }
    }
    lane
}

/// A part of a packet's way. `core` is how far the border of the core is, `to` how far the way goes.
#[derive(Clone, Copy, Debug, PartialEq, Eq)]
pub enum Way {
    /// From the front of a channel at `level` to the middle of the node.
    In {
        core: u32,
        level: u32,
    },
    /// From the middle of the node out of its core, and on along a link at `level`.
    Out {
        core: u32,
        level: u32,
        to: u32,
    },
    /// From the middle of the node out of its core near a corner, at `bend`, and from `knee` on by a stub at `level`.
    Stub {
        core: u32,
        bend: u32,
        knee: u32,
        level: u32,
        to: u32,
    },
    /// From the middle of the node to its sink, `x` to the right and `y` down.
    Sink {
        x: u32,
        y: u32,
    },
}

impl fmt::Display for Way {
    ghost output = { λ way. Some (way_path way) };

    fn fmt<W: fmt::Write>(&self, f: &mut fmt::Formatter<W>) -> fmt::Result {
        match *self {
            Way::In { core, level } => write!(f, "M-{core},{level}L0,0"),
            Way::Out { core, level, to } => write!(f, "M0,0L{core},{level}L{to},{level}"),
            Way::Stub {
                core,
                bend,
                knee,
                level,
                to,
            } => { write!(f, "M0,0L{core},{bend}L{knee},{level}L{to},{level}") }
            Way::Sink { x, y } => write!(f, "M0,0L{x},{y}"),
        }
    }
}

/// The way out by a port, beside the others there: along the link where `is_held`, else to the node's border.
pub fn way_out(layout: &Layout, dims: u8, exit: u8, lane: Lane, is_held: bool) -> Way {
    let core = layout.core;
    if exit / 2 == dims {
        let along = lane.beside(TO_SINK);
        return Way::Sink {
            x: (core + 8 + TO_SINK / 2).saturating_sub(along),
            y: (core + 8 - TO_SINK / 2).saturating_add(along),
        };
    }
    if exit >= 4 {
        let level = (core + 3).saturating_add(lane.beside(WAYS - 3));
        return Way::Stub {
            core,
            bend: level.saturating_sub(WAYS),
            knee: core + WAYS,
            level,
            to: layout.half + if is_held { STUB } else { 0 },
        };
    }
    Way::Out {
        core,
        level: lane.beside(layout.wide).saturating_add(2),
        to: if is_held {
            layout.pitch - (core + layout.long)
        } else {
            layout.half
        },
    }
}

/// The way of a packet's flit with this index, in the packet's colour.
pub fn add_way(svg: &mut Svg, index: u8, packet: Packet, way: Way) -> Result<(), AllocError>
    ensures { OnOk result (Adds svg.old svg.new []) }
{
    let class = way_of(index);
    let colour = colour_of(packet.sign.unwrap_or(0));
    write!(svg.text, "<path class=\"{class} edge\" d=\"{way}\"/>\n")?;
    write!(
        svg.text,
        "<path class=\"{class}\" stroke=\"{colour}\" d=\"{way}\"/>\n"
    )
}
