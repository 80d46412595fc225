//! What is shown of each node: a value, from which the picture and the map are drawn.

ghost use Rattle.std.specs.Prelude.{◌≡◌, IfOk, IsPermutation, map, All};
ghost use Rattle.worm_picture.specs.Nodes as spec;
ghost use Rattle.worm_rows.specs.Rules.{IsReport};
ghost use Rattle.worm_picture.specs.Nodes.{AreViews, IsStation, IsView, held_in, most_by, shown};
ghost use Rattle.worm_picture.specs.Packets.{tail_in};
ghost use Rattle.worm_picture.specs.Scene.{seen_flits as flits_of_rows};

use crate::packets::Packets;
use crate::scene::{Flit, Spot, delivered, flits_at, front_first, queued, seen_flits};
use std::alloc::{AllocError, Global};
use worm_rows::{Row, Shape};

/// A channel of an input port, with the flits in its buffer and on the link to it, the front first.
#[derive(Drop)]
pub struct Station {
    /// Node, port and channel.
    pub spot: Spot,
    /// The flits in the buffer.
    pub held: Vec<Flit>,
    /// The flits on the link.
    pub coming: Vec<Flit>,
}

/// A node, with all that is shown of it.
#[derive(Drop)]
pub struct NodeView {
    /// Its number.
    pub node: u8,
    /// The channels of its input ports, port by port.
    pub stations: Vec<Station>,
    /// How many flits wait in its source.
    pub waiting: usize,
    /// How many flits were delivered to it.
    pub arrived: usize,
}

impl NodeView {
    /// How many flits its buffers hold.
    pub fn held(&self) -> usize
        ensures { result ≡ held_in self.now }
    {
        let stations = self.stations.as_slice();
        let mut held = 0usize;
        for station in stations {
            held = held.saturating_add(station.held.len());
        }
        held
    }
}

/// The most that a node of several has.
#[derive(Clone, Copy, Debug, PartialEq, Eq)]
pub struct Most {
    /// The most flits that the buffers of one hold.
    pub held: usize,
    /// The most flits that one was delivered.
    pub arrived: usize,
}

/// The most that one of these nodes has.
pub fn most_of(views: &[NodeView]) -> Most
    ensures held { result.held ≡ most_by held_in views.now }
    ensures arrived { result.arrived ≡ most_by (λ v. v.arrived) views.now }
{
    let mut most = Most {
        held: 0,
        arrived: 0,
    };
    for view in views {
        most.held = most.held.max(view.held());
        most.arrived = most.arrived.max(view.arrived);
    }
    most
}

fn spots_at(alloc: Global, node: u8, port: u8, vcs: u8) -> Result<Vec<Spot>, AllocError>
    ensures { IfOk result (λ spots. spots.items ≡ spec.spots_at node vcs port) }
{
    (0..vcs)
        .map(|vc| Spot {
            node,
            port,
            vc,
            on_link: false,
        })
        .collect(alloc)
}

fn spots_in(alloc: Global, node: u8, ports: u8, vcs: u8) -> Result<Vec<Spot>, AllocError>
    ensures { IfOk result (λ spots. spots.items ≡ spec.spots_in node ports vcs) }
{
    let mut spots = Vec::new(alloc);
    for port in 0..ports {
        let more = spots_at(alloc, node, port, vcs)?;
        spots.extend_from_slice(more.as_slice())?;
    }
    Ok(spots)
}

fn station_at(
    alloc: Global,
    flits: &[Flit],
    packets: &Packets,
    spot: Spot,
) -> Result<Station, AllocError>
    ensures spot { IfOk result (λ s. s.spot ≡ spot) }
    ensures flits { IfOk result (IsStation (tail_in packets.now) flits.now) }
{
    let link = Spot {
        on_link: true,
        ..spot
    };
    Ok(Station {
        spot,
        held: front_first(alloc, flits, packets, spot)?,
        coming: front_first(alloc, flits, packets, link)?,
    })
}

fn stations(
    alloc: Global,
    flits: &[Flit],
    packets: &Packets,
    spots: &[Spot],
) -> Result<Vec<Station>, AllocError>
    ensures spots { IfOk result (λ s. map (λ s. s.spot) s.items ≡ spots.now) }
    ensures each { IfOk result (λ s. All (IsStation (tail_in packets.now) flits.now) s.items) }
{
    let mut stations = Vec::new(alloc);
    for spot in spots {
        stations.push(station_at(alloc, flits, packets, *spot)?)?;
    }
    Ok(stations)
}

fn view(
    alloc: Global,
    shape: &Shape,
    rows: &[Row],
    flits: &[Flit],
    packets: &Packets,
    node: u8,
) -> Result<NodeView, AllocError>
    ensures node { IfOk result (λ v. v.node ≡ node) }
    ensures shown { IfOk result (IsView shape.now rows.now (tail_in packets.now) flits.now) }
{
    let here = flits_at(alloc, flits, node)?;
    let ports = 2 * shape.mesh.dims() + 1;
    let spots = spots_in(alloc, node, ports, shape.vcs)?;
    Ok(NodeView {
        node,
        stations: stations(alloc, here.as_slice(), packets, spots.as_slice())?,
        waiting: queued(rows, node),
        arrived: delivered(rows, node),
    })
}

/// All nodes, each with what the rows show of it.
pub fn node_views(
    alloc: Global,
    shape: &Shape,
    rows: &[Row],
    packets: &Packets,
) -> Result<Vec<NodeView>, AllocError>
    ensures views { IfOk result (λ v. AreViews shape.now rows.now (tail_in packets.now) v.items) }
    // Of a report all flits in buffers and on links are shown, each once, and no others.
    ensures once { IfOk result (λ v. IsReport shape.now rows.now
        → IsPermutation (flits_of_rows shape.now.mesh rows.now) (shown v.items)) }
{
    let flits = seen_flits(alloc, &shape.mesh, rows)?;
    let mut views = Vec::new(alloc);
    for node in 0..shape.mesh.nodes() {
        views.push(view(alloc, shape, rows, flits.as_slice(), packets, node as u8)?)?;
    }
    Ok(views)
}
