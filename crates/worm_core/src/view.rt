//! A lane's flits under way and where, by a recursion along its route that adds those nearest the sink first.

ghost use Rattle.std.specs.Prelude.{true, ◌≡◌, ◌*◌, ◌<◌, ◌≤◌, [], ◌∷◌, ◌++◌, OnOk, IfOk, IsSome, length, flat_map};
ghost use Rattle.std.specs.Prelude.{drop};
ghost use Rattle.worm_flit.specs.Stamps.{is_of_lane, of_lane, on_channel};
ghost use Rattle.worm_mesh.specs.Address.{node_count, has_neighbour, neighbour_of};
ghost use Rattle.worm_router.specs.Router.{IsPlace, input_at};
ghost use Rattle.worm_term.specs.Source.{classes, queue_at};
ghost use Rattle.worm_region.specs.Moves.{link_out};
ghost use Rattle.worm_region.specs.State.{IsFramed, link_at};
ghost use Rattle.worm_core.specs.LaneView.{IsLaneCut, ArePacketsCut, at_place, buffer_held, link_held, channels_of};
ghost use Rattle.worm_core.specs.LaneView.{places_past, held_at, delivered_view, underway_view};

use crate::{Net, NoMemory};
use std::alloc::{AllocError, Global};
use worm_flit::{Flit, Lane};
use worm_region::Fabric;
use worm_router::Router;
use worm_term::Source;

/// Where a flit that is under way stands.
#[derive(Clone, Copy, Debug, PartialEq, Eq)]
pub enum Place {
    /// In its source, accepted and not yet fed.
    Source,
    /// In an input buffer, named by its node, input port and channel; the injection buffer has the terminal port.
    Buffer { node: u8, port: u8, vc: u8 },
    /// On a link, named by the node and the output port that it leaves by, on this channel.
    Link { node: u8, port: u8, vc: u8 },
}

/// A flit under way, and where it stands.
#[derive(Clone, Copy, Debug, PartialEq, Eq)]
pub struct Held {
    /// The flit, with the channel number that it has there.
    pub flit: Flit,
    /// Its place.
    pub place: Place,
}

/// What is read of a lane.
#[derive(Debug, Drop)]
pub struct LaneView {
    /// How many of its flits were delivered.
    pub delivered: u64,
    /// Its flits under way, the nearest the sink first; in a place by rising channel, front first in each.
    pub underway: Vec<Held>,
}

fn is_of(flit: &Flit, lane: Lane) -> bool
    ensures { result ≡ is_of_lane lane flit.now }
{
    flit.lane.src == lane.src && flit.lane.dst == lane.dst && flit.lane.class == lane.class
}

fn put(held: &mut Vec<Held>, lane: Lane, flit: Flit, place: Place) -> Result<(), AllocError>
    ensures { OnOk result (held.new.items ≡ held.old.items ++ at_place place (of_lane lane (flit ∷ []))) }
{
    if is_of(&flit, lane) {
        held.push(Held { flit, place })?;
    }
    Ok(())
}

fn put_unfed(held: &mut Vec<Held>, lane: Lane, source: &Source) -> Result<(), AllocError>
    requires { lane.class < classes source.now }
    ensures { OnOk result (held.new.items ≡ held.old.items
        ++ at_place Place.Source (of_lane lane
        (drop (queue_at source.now lane.class).fed (queue_at source.now lane.class).injected))) }
{
    let fed = source.fed_count(lane.class);
    for flit in &source.injected(lane.class)[fed..] {
        put(held, lane, *flit, Place::Source)?;
    }
    Ok(())
}

fn put_channel(
    held: &mut Vec<Held>,
    lane: Lane,
    router: &Router,
    node: u8,
    port: u8,
    vc: u8,
) -> Result<(), AllocError>
    requires { IsPlace router.now port vc }
    ensures { OnOk result (held.new.items ≡ held.old.items
        ++ at_place (Place.Buffer node port vc) (of_lane lane (input_at router.now port vc).buffer)) }
{
    let mut i = 0;
    while let Some(flit) = router.buffer_at(port, vc, i) {
        put(held, lane, flit, Place::Buffer { node, port, vc })?;
        i += 1;
    }
    Ok(())
}

fn put_line(
    fabric: &Fabric,
    held: &mut Vec<Held>,
    lane: Lane,
    node: u8,
    port: u8,
    vc: u8,
) -> Result<(), AllocError>
    requires { IsSome (neighbour_of fabric.now.mesh node port) }
    ensures { OnOk result (held.new.items ≡ held.old.items ++ at_place (Place.Link node port vc)
        (of_lane lane (on_channel vc (link_at fabric.now (link_out fabric.now node port)).flits))) }
{
    for i in 0..fabric.flit_count(node, port) {
        let flit = fabric.flit(node, port, i);
        if flit.vc == vc {
            put(held, lane, flit, Place::Link { node, port, vc })?;
        }
    }
    Ok(())
}

fn put_buffers(
    fabric: &Fabric,
    held: &mut Vec<Held>,
    lane: Lane,
    node: u8,
    port: u8,
) -> Result<(), AllocError>
    requires framed { IsFramed fabric.now }
    requires node { node < node_count fabric.now.mesh }
    requires port { port ≤ 2 * length fabric.now.mesh }
    requires class { lane.class < length fabric.now.channels }
    ensures { OnOk result (held.new.items ≡ held.old.items
        ++ flat_map (buffer_held fabric.now lane node port) (channels_of fabric.now.channels lane.class)) }
{
    let router = &fabric.node(node).router;
    let range = fabric.channels_of(lane.class);
    for vc in range.start..range.end {
        put_channel(held, lane, router, node, port, vc)?;
    }
    Ok(())
}

fn put_lines(
    fabric: &Fabric,
    held: &mut Vec<Held>,
    lane: Lane,
    node: u8,
    port: u8,
) -> Result<(), AllocError>
    requires framed { IsFramed fabric.now }
    requires linked { has_neighbour fabric.now.mesh node port ≡ true }
    requires class { lane.class < length fabric.now.channels }
    ensures { OnOk result (held.new.items ≡ held.old.items
        ++ flat_map (link_held fabric.now lane node port) (channels_of fabric.now.channels lane.class)) }
{
    let range = fabric.channels_of(lane.class);
    for vc in range.start..range.end {
        put_line(fabric, held, lane, node, port, vc)?;
    }
    Ok(())
}

fn put_past(fabric: &Fabric, held: &mut Vec<Held>, lane: Lane, node: u8) -> Result<(), AllocError>
    requires framed { IsFramed fabric.now }
    requires node { node < node_count fabric.now.mesh }
    requires dst { lane.dst < node_count fabric.now.mesh }
    requires class { lane.class < length fabric.now.channels }
    ensures { OnOk result (held.new.items ≡ held.old.items
        ++ flat_map (held_at fabric.now lane) (places_past fabric.now.mesh node lane.dst)) }
{
    let Some(link) = fabric.next_link(node, lane.dst) else {
        return Ok(());
    };
    put_past(fabric, held, lane, link.to)?;
    put_buffers(fabric, held, lane, link.to, link.in_port)?;
    put_lines(fabric, held, lane, node, link.out_port)?;
    Ok(())
}

fn underway(fabric: &Fabric, alloc: Global, lane: Lane) -> Result<Vec<Held>, AllocError>
    requires framed { IsFramed fabric.now }
    requires src { lane.src < node_count fabric.now.mesh }
    requires dst { lane.dst < node_count fabric.now.mesh }
    requires class { lane.class < length fabric.now.channels }
    ensures { IfOk result (λ held. held.items ≡ underway_view fabric.now lane) }
{
    let mut held = Vec::new(alloc);
    put_past(fabric, &mut held, lane, lane.src)?;
    put_buffers(fabric, &mut held, lane, lane.src, fabric.terminal())?;
    put_unfed(&mut held, lane, &fabric.node(lane.src).source)?;
    Ok(held)
}

impl Net {
    /// The lane's flits (Dally and Towles, chapters 8 and 13), if [`Net::has_lane`]. `NoMemory`: none for the list.
    pub fn lane_view(&self, alloc: Global, lane: Lane) -> Result<LaneView, NoMemory>
        requires src { lane.src < node_count self.now.mesh }
        requires dst { lane.dst < node_count self.now.mesh }
        requires class { lane.class < length self.now.channels }
        ensures delivered { IfOk result (λ view. view.delivered ≡ delivered_view self.now lane) }
        ensures underway { IfOk result (λ view. view.underway.items ≡ underway_view self.now lane) }
        ensures lane_cut { IfOk result (λ view. IsLaneCut self.now lane view.underway.items) }
        ensures packets_cut { IfOk result (λ view. ArePacketsCut self.now lane view.underway.items) }
    {
        let fabric = self.fabric();
        let underway = underway(fabric, alloc, lane)?;
        let delivered = self.delivered(lane.dst);
        let count = delivered.iter().filter(|flit| is_of(flit, lane)).count();
        Ok(LaneView {
            delivered: count as u64,
            underway,
        })
    }
}
