//! What a report shows of a network, place by place.

ghost use Rattle.std.specs.Prelude.{◌≡◌, IfOk, length};
ghost use Rattle.std.specs.List.{filter};
ghost use Rattle.worm_picture.specs.Nodes as nodes;
ghost use Rattle.worm_picture.specs.Packets.{tail_in};
ghost use Rattle.worm_picture.specs.Scene as spec;

use crate::packets::Packets;
use std::alloc::{AllocError, Global};
use worm_core::Place;
use worm_mesh::Mesh;
use worm_route::next_port;
use worm_rows::{PacketId, Row};

/// A channel of an input port: its buffer, and the link that leads there.
#[derive(Clone, Copy, Debug, PartialEq, Eq)]
pub struct Spot {
    /// The node that flits come to.
    pub node: u8,
    /// The port by which they come: the terminal for what is injected.
    pub port: u8,
    /// The channel.
    pub vc: u8,
    /// Whether they are still on the link.
    pub on_link: bool,
}

/// A flit in a buffer or on a link.
#[derive(Clone, Copy, Debug, PartialEq, Eq)]
pub struct Flit {
    /// Its packet.
    pub packet: PacketId,
    /// Its place in the packet, 0 to 31.
    pub index: u8,
    /// Where it is.
    pub spot: Spot,
}

/// Where a flit is seen: at the node to which its place belongs or leads. None in a source.
pub fn spot_of(mesh: &Mesh, place: Place) -> Option<Spot>
    ensures { result ≡ spec.spot_of mesh.now place }
{
    match place {
        Place::Source => None,
        Place::Buffer { node, port, vc } => Some(Spot {
            node,
            port,
            vc,
            on_link: false,
        }),
        Place::Link { node, port, vc } => {
            let to = mesh.neighbour(node, port)?;
            Some(Spot {
                node: to,
                port: mesh.opposite(port),
                vc,
                on_link: true,
            })
        }
    }
}

/// The flit of a row, if it is in a buffer or on a link.
pub fn seen(mesh: &Mesh, row: &Row) -> Option<Flit>
    ensures { result ≡ spec.seen mesh.now row.now }
{
    match row {
        Row::Underway {
            packet,
            index,
            place,
        } => {
            let spot = spot_of(mesh, *place)?;
            Some(Flit {
                packet: *packet,
                index: *index,
                spot,
            })
        }
        _ => None,
    }
}

/// The port by which a flit leaves the node at which it is seen, on its route; none where a node is not of the mesh.
pub fn exit_port(mesh: &Mesh, flit: &Flit) -> Option<u8>
    ensures { result ≡ spec.exit_port mesh.now flit.now }
{
    let node = flit.spot.node;
    let dst = flit.packet.lane.dst;
    if u16::from(node) < mesh.nodes() && u16::from(dst) < mesh.nodes() {
        Some(next_port(mesh, node, dst))
    } else {
        None
    }
}

/// The flits of these rows that are in buffers and on links, in their order.
pub fn seen_flits(alloc: Global, mesh: &Mesh, rows: &[Row]) -> Result<Vec<Flit>, AllocError>
    ensures { IfOk result (λ flits. flits.items ≡ spec.seen_flits mesh.now rows.now) }
{
    rows.iter().filter_map(|row| seen(mesh, row)).collect(alloc)
}

/// The flits at a node and on the links to it.
pub fn flits_at(alloc: Global, flits: &[Flit], node: u8) -> Result<Vec<Flit>, AllocError>
    ensures { IfOk result (λ found. found.items ≡ spec.flits_at node flits.now) }
{
    flits
        .iter()
        .copied()
        .filter(|flit| flit.spot.node == node)
        .collect(alloc)
}

fn is_on(flit: &Flit, spot: Spot) -> bool
    ensures { result ≡ spec.is_on spot flit.now }
{
    let here = flit.spot;
    here.node == spot.node
        && here.port == spot.port
        && here.vc == spot.vc
        && here.on_link == spot.on_link
}

fn flits_on(alloc: Global, flits: &[Flit], spot: Spot) -> Result<Vec<Flit>, AllocError>
    ensures { IfOk result (λ found. found.items ≡ spec.flits_on spot flits.now) }
{
    flits
        .iter()
        .copied()
        .filter(|flit| is_on(flit, spot))
        .collect(alloc)
}

/// Which part of its packet a spot holds.
#[derive(Clone, Copy, Debug, PartialEq, Eq)]
pub enum Part {
    /// The opening went on: nothing of another packet can be before it.
    Rear,
    /// All that there is of it.
    Whole,
    /// The tail is to come: nothing of another packet can be after it.
    Front,
}

/// A flit, and which part of its packet stands with it.
#[derive(Clone, Copy, Debug, PartialEq, Eq)]
pub struct Parted {
    /// The flit.
    pub flit: Flit,
    /// The part.
    pub part: Part,
}

fn holds(flits: &[Flit], packet: PacketId, index: u8) -> bool
    ensures { result ≡ spec.holds flits.now packet index }
{
    flits
        .iter()
        .any(|flit| flit.packet == packet && flit.index == index)
}

fn part_of(flits: &[Flit], packets: &Packets, flit: &Flit) -> Part
    ensures { result ≡ spec.part_of (tail_in packets.now) flits.now flit.now }
{
    if !holds(flits, flit.packet, 0) {
        Part::Rear
    } else if !holds(flits, flit.packet, packets.get(flit.packet).last) {
        Part::Front
    } else {
        Part::Whole
    }
}

fn with_parts(alloc: Global, flits: &[Flit], packets: &Packets) -> Result<Vec<Parted>, AllocError>
    ensures { IfOk result (λ parted. parted.items ≡ spec.with_parts (tail_in packets.now) flits.now) }
{
    flits
        .iter()
        .map(|flit| Parted {
            flit: *flit,
            part: part_of(flits, packets, flit),
        })
        .collect(alloc)
}

fn stands_in(parted: &Parted, part: Part) -> bool
    ensures { result ≡ spec.stands_in part parted.now }
{
    match (parted.part, part) {
        (Part::Rear, Part::Rear) | (Part::Whole, Part::Whole) | (Part::Front, Part::Front) => true,
        _ => false,
    }
}

fn of_part(alloc: Global, parted: &[Parted], part: Part) -> Result<Vec<Flit>, AllocError>
    ensures { IfOk result (λ flits. flits.items ≡ spec.of_part part parted.now) }
{
    parted
        .iter()
        .filter(|parted| stands_in(parted, part))
        .map(|parted| parted.flit)
        .collect(alloc)
}

fn in_order(alloc: Global, parted: &[Parted]) -> Result<Vec<Flit>, AllocError>
    ensures { IfOk result (λ flits. flits.items ≡ spec.in_order parted.now) }
{
    let mut sorted = of_part(alloc, parted, Part::Rear)?;
    let whole = of_part(alloc, parted, Part::Whole)?;
    let fronts = of_part(alloc, parted, Part::Front)?;
    sorted.extend_from_slice(whole.as_slice())?;
    sorted.extend_from_slice(fronts.as_slice())?;
    Ok(sorted)
}

/// The flits at a spot, the front first as far as a report tells: it lists a spot's flits by lane. Packets do not mix
/// in a channel. So one whose opening went on is at the front, and one whose tail is to come at the back; between
/// whole packets of several lanes the report's order stands.
pub fn front_first(
    alloc: Global,
    flits: &[Flit],
    packets: &Packets,
    spot: Spot,
) -> Result<Vec<Flit>, AllocError>
    ensures { IfOk result (λ sorted. sorted.items
        ≡ spec.front_first (tail_in packets.now) (spec.flits_on spot flits.now)) }
{
    let here = flits_on(alloc, flits, spot)?;
    let parted = with_parts(alloc, here.as_slice(), packets)?;
    in_order(alloc, parted.as_slice())
}

fn waits_at(row: &Row, node: u8) -> bool
    ensures { result ≡ nodes.waits_at node row.now }
{
    match row {
        Row::Underway {
            packet,
            place: Place::Source,
            ..
        } => packet.lane.src == node,
        _ => false,
    }
}

fn arrives_at(row: &Row, node: u8) -> bool
    ensures { result ≡ nodes.arrives_at node row.now }
{
    match row {
        Row::Delivered { packet, .. } => packet.lane.dst == node,
        _ => false,
    }
}

/// How many flits wait in the source of a node.
pub fn queued(rows: &[Row], node: u8) -> usize
    ensures { result ≡ length (filter (nodes.waits_at node) rows.now) }
{
    rows.iter().filter(|row| waits_at(row, node)).count()
}

/// How many flits were delivered to a node.
pub fn delivered(rows: &[Row], node: u8) -> usize
    ensures { result ≡ length (filter (nodes.arrives_at node) rows.now) }
{
    rows.iter().filter(|row| arrives_at(row, node)).count()
}
