//! Who waits at the front of a buffer, and for whom.

ghost use Rattle.std.specs.Prelude.{◌≡◌, ◌==◌, IfOk, slice_index};
ghost use Rattle.std.specs.List.{flat_map, find, list_any};
ghost use Rattle.std.specs.Option.{option_copied};
ghost use Rattle.worm_picture.specs.Packets.{tail_in};
ghost use Rattle.worm_waits.specs.Waits as spec;
ghost use Rattle.worm_waits.specs.Waits.{told};

use crate::scene::Scene;
use std::alloc::{AllocError, Global};
use worm_flit::ClassChannels;
use worm_picture::{Flit, NodeView, Packets, Station, exit_port};
use worm_rows::{Load, PacketId, Row};

/// Why a packet cannot go on.
#[derive(Clone, Copy, Debug, PartialEq, Eq)]
pub enum Reason {
    /// This other packet holds the channel that it wants.
    Held(PacketId),
    /// Its channel has no credit: the flits in the buffer and on the link fill it. This packet has the first of them.
    NoCredit(PacketId),
}

/// A flit at the front of a buffer that cannot go on.
#[derive(Clone, Copy, Debug, PartialEq, Eq)]
pub struct Wait {
    /// The flit: its packet, and the buffer in which it stands.
    pub flit: Flit,
    /// The port that it wants.
    pub port: u8,
    /// Why it cannot have it.
    pub reason: Reason,
}

fn last_at(station: &Station) -> Option<Flit>
    ensures { result ≡ spec.last_at station.now }
{
    match station.coming.as_slice().last() {
        Some(flit) => Some(*flit),
        None => station.held.as_slice().last().copied(),
    }
}

fn first_at(station: &Station) -> Option<Flit>
    ensures { result ≡ spec.first_at station.now }
{
    match front_of(station) {
        Some(flit) => Some(flit),
        None => station.coming.as_slice().first().copied(),
    }
}

fn front_of(station: &Station) -> Option<Flit>
    ensures { result ≡ spec.front_of station.now }
{
    station.held.as_slice().first().copied()
}

fn unfinished(packets: &Packets, flit: &Flit) -> Option<PacketId>
    ensures { result ≡ spec.unfinished (tail_in packets.now) flit.now }
{
    if flit.index < packets.get(flit.packet).last {
        Some(flit.packet)
    } else {
        None
    }
}

fn holder(packets: &Packets, station: &Station) -> Option<PacketId>
    ensures { result ≡ spec.holder (tail_in packets.now) station.now }
{
    match last_at(station) {
        Some(flit) => unfinished(packets, &flit),
        None => None,
    }
}

fn is_held_by(packets: &Packets, packet: PacketId, station: &Station) -> bool
    ensures { result ≡ spec.is_held_by (tail_in packets.now) packet station.now }
{
    match holder(packets, station) {
        Some(held) => held == packet,
        None => false,
    }
}

fn no_credit(depth: u8, station: &Station) -> Option<Reason>
    ensures { result ≡ spec.no_credit depth station.now }
{
    let room = usize::from(depth).saturating_sub(station.held.as_slice().len());
    if station.coming.as_slice().len() < room {
        return None;
    }
    match first_at(station) {
        Some(flit) => Some(Reason::NoCredit(flit.packet)),
        None => None,
    }
}

fn bar(depth: u8, packets: &Packets, packet: PacketId, station: &Station) -> Option<Reason>
    ensures { result ≡ spec.bar depth (tail_in packets.now) packet station.now }
{
    match holder(packets, station) {
        Some(other) => {
            if other == packet {
                no_credit(depth, station)
            } else {
                Some(Reason::Held(other))
            }
        }
        None => no_credit(depth, station),
    }
}

fn taken(row: &Row, node: u8, class: u8) -> Option<(PacketId, u8)>
    ensures { result ≡ spec.taken node class row.now }
{
    match row {
        Row::Delivered { packet, load } => {
            if packet.lane.dst == node && packet.lane.class == class {
                Some((
                    *packet,
                    match load {
                        Load::Close => 0,
                        Load::Word { index, .. } => *index,
                    },
                ))
            } else {
                None
            }
        }
        _ => None,
    }
}

fn last_taken(rows: &[Row], node: u8, class: u8) -> Option<(PacketId, u8)>
    ensures { result ≡ spec.last_taken node class rows.now }
{
    let mut last = None;
    for row in rows {
        last = taken(row, node, class).or(last);
    }
    last
}

fn sink_bar(packets: &Packets, packet: PacketId, last: Option<(PacketId, u8)>) -> Option<Reason>
    ensures { result ≡ spec.sink_bar (tail_in packets.now) packet last }
{
    match last {
        Some((other, index)) => {
            if index < packets.get(other).last && other != packet {
                Some(Reason::Held(other))
            } else {
                None
            }
        }
        None => None,
    }
}

fn is_single(channels: &ClassChannels, class: u8) -> bool
    ensures { result ≡ (slice_index channels.now class == 1) }
{
    class < channels.classes() && channels.count(class) == 1
}

impl Scene<'_> {
    fn is_way(&self, flit: &Flit, port: u8, station: &Station) -> bool
        ensures { result ≡ spec.is_way (told self.now) flit.now port station.now }
    {
        station.spot.port == port
            && self.channels.owns(flit.packet.lane.class, station.spot.vc)
            && (flit.index == 0 || is_held_by(self.packets, flit.packet, station))
    }

    fn is_open(&self, flit: &Flit, port: u8, station: &Station) -> bool
        ensures { result ≡ spec.is_open (told self.now) flit.now port station.now }
    {
        self.is_way(flit, port, station)
            && bar(self.depth, self.packets, flit.packet, station).is_none()
    }

    fn way<'b>(&self, flit: &Flit, port: u8, stations: &'b [Station]) -> Option<&'b Station>
        ensures { option_copied result ≡ find (spec.is_way (told self.now) flit.now port) stations.now }
    {
        stations
            .iter()
            .find(|station| self.is_way(flit, port, station))
    }

    fn has_open(&self, flit: &Flit, port: u8, stations: &[Station]) -> bool
        ensures { result ≡ list_any (spec.is_open (told self.now) flit.now port) stations.now }
    {
        stations
            .iter()
            .any(|station| self.is_open(flit, port, station))
    }

    fn first_bar(&self, flit: &Flit, port: u8, stations: &[Station]) -> Option<Reason>
        ensures { result ≡ spec.first_bar (told self.now) flit.now port stations.now }
    {
        match self.way(flit, port, stations) {
            Some(station) => bar(self.depth, self.packets, flit.packet, station),
            None => None,
        }
    }

    fn barred(&self, flit: &Flit, port: u8, stations: &[Station]) -> Option<Reason>
        ensures { result ≡ spec.barred (told self.now) flit.now port stations.now }
    {
        if self.has_open(flit, port, stations) {
            None
        } else {
            self.first_bar(flit, port, stations)
        }
    }

    fn node_at(&self, node: u8) -> Option<&NodeView>
        ensures { option_copied result ≡ find (spec.is_node node) self.now.views.now }
    {
        self.views.iter().find(|view| view.node == node)
    }

    fn ahead(&self, flit: &Flit, port: u8) -> Option<Reason>
        ensures { result ≡ spec.ahead (told self.now) flit.now port }
    {
        let to = self.shape.mesh.neighbour(flit.spot.node, port)?;
        match self.node_at(to) {
            Some(view) => {
                let entered = self.shape.mesh.opposite(port);
                self.barred(flit, entered, view.stations.as_slice())
            }
            None => None,
        }
    }

    fn at_sink(&self, flit: &Flit) -> Option<Reason>
        ensures { result ≡ spec.at_sink (told self.now) flit.now }
    {
        let class = flit.packet.lane.class;
        if flit.index == 0 && is_single(self.channels, class) {
            let last = last_taken(self.rows, flit.spot.node, class);
            sink_bar(self.packets, flit.packet, last)
        } else {
            None
        }
    }

    fn reason(&self, flit: &Flit, port: u8) -> Option<Reason>
        ensures { result ≡ spec.reason (told self.now) flit.now port }
    {
        if port == 2 * self.shape.mesh.dims() {
            self.at_sink(flit)
        } else {
            self.ahead(flit, port)
        }
    }

    fn wait_of(&self, flit: Flit) -> Option<Wait>
        ensures { result ≡ spec.wait_of (told self.now) flit }
    {
        let port = exit_port(&self.shape.mesh, &flit)?;
        let reason = self.reason(&flit, port)?;
        Some(Wait { flit, port, reason })
    }

    fn wait_at(&self, station: &Station) -> Option<Wait>
        ensures { result ≡ spec.wait_at (told self.now) station.now }
    {
        match front_of(station) {
            Some(flit) => self.wait_of(flit),
            None => None,
        }
    }

    fn waits_in(&self, alloc: Global, view: &NodeView) -> Result<Vec<Wait>, AllocError>
        ensures { IfOk result (λ waits. waits.items ≡ spec.waits_in (told self.now) view.now) }
    {
        view.stations
            .as_slice()
            .iter()
            .filter_map(|station| self.wait_at(station))
            .collect(alloc)
    }

    fn waits_of(&self, alloc: Global, views: &[NodeView]) -> Result<Vec<Wait>, AllocError>
        ensures { IfOk result (λ waits. waits.items ≡ flat_map (spec.waits_in (told self.now)) views.now) }
    {
        let mut waits = Vec::new(alloc);
        for view in views {
            let more = self.waits_in(alloc, view)?;
            waits.extend_from_slice(more.as_slice())?;
        }
        Ok(waits)
    }

    /// All fronts that cannot go on, by node, port and channel.
    pub fn waits(&self, alloc: Global) -> Result<Vec<Wait>, AllocError>
        ensures { IfOk result (λ waits. waits.items ≡ spec.waits (told self.now)) }
    {
        self.waits_of(alloc, self.views)
    }
}
