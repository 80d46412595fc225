//! The packets of a report: which flit of each is its last, and how each is coloured.

ghost use Rattle.std.specs.Prelude.{◌≡◌, ◌+◌, ◌-◌, ◌^◌, ◌&&◌, ◌||◌, if◌then◌else◌, length, min, not, IfOk, None, OnOk};
ghost use Rattle.std.specs.Prelude.{Some};
ghost use Rattle.std.specs.Option.{option_and_then, option_map};
ghost use Rattle.worm_rows.specs.declared.rows.PacketId.{PacketId};
ghost use Rattle.worm_picture.specs.Packets.{has_packet, known, last_with, moved_by, moves_in, moving_of};
ghost use Rattle.worm_picture.specs.Packets.{place_of, same_packet, tail_in, tail_of};

use std::alloc::{AllocError, Global};
use std::collections::BTreeMap;
use worm_core::Place;
use worm_rows::{Load, PacketId, Row};

/// What is known of a packet.
#[derive(Clone, Copy, Debug, PartialEq, Eq, Drop)]
pub struct Packet {
    /// The greatest index of its flits in the report. A packet is injected whole and loses no flit: this is its tail.
    pub last: u8,
    /// What colours and marks it, where a flit of it is in a buffer or on a link.
    pub sign: Option<u32>,
}

/// The packets of a report, by lane and number.
#[derive(Drop)]
pub struct Packets {
    packets: BTreeMap<PacketId, Packet>,
    moving: u32,
}

fn flit_of(row: &Row) -> Option<(PacketId, u8, bool)>
    ensures place { option_map (λ f. (f.0, f.1)) result ≡ place_of row.now }
    ensures moved { option_and_then (λ f. if f.2 then Some f.0 else None) result ≡ moved_by row.now }
{
    match row {
        Row::Delivered { packet, load } => Some((
            *packet,
            match load {
                Load::Close => 0,
                Load::Word { index, .. } => *index,
            },
            false,
        )),
        Row::Underway {
            packet,
            index,
            place,
        } => Some((*packet, *index, *place != Place::Source)),
        _ => None,
    }
}

/// It depends on the packet alone, so a packet looks the same in each picture of a run. Packets that are likely to
/// meet, of one lane or from nodes side by side, look different.
fn sign_of(packet: PacketId) -> u32 {
    let PacketId { lane, number } = packet;
    u32::from(number) + 9 * u32::from(lane.src) + 5 * u32::from(lane.class)
}

impl Packets {
    /// The packets of these rows.
    pub fn of(alloc: Global, rows: &[Row]) -> Result<Packets, AllocError>
        ensures tails { IfOk result (λ p. (packet : PacketId) → tail_in p packet ≡ tail_of rows.now packet) }
        ensures signs { IfOk result
            (λ p. (packet : PacketId) → moves_in p packet ≡ has_packet (moving_of rows.now) packet) }
        ensures moving { IfOk result (λ p. p.moving ≡ min (length (moving_of rows.now)) (2 ^ 32 - 1)) }
    {
        let mut packets = Packets {
            packets: BTreeMap::new(alloc),
            moving: 0,
        };
        for row in rows {
            match flit_of(row) {
                Some((packet, index, moves)) => packets.note(packet, index, moves)?,
                None => {}
            }
        }
        Ok(packets)
    }

    fn note(&mut self, packet: PacketId, index: u8, moves: bool) -> Result<(), AllocError>
        ensures tails { OnOk result ((other : PacketId)
            → tail_in self.new other ≡ last_with packet index other (tail_in self.old other)) }
        ensures signs { OnOk result ((other : PacketId)
            → moves_in self.new other ≡ (moves_in self.old other || (moves && same_packet other packet))) }
        ensures moving { OnOk result (self.new.moving
            ≡ (if moves && not (moves_in self.old packet) then min (self.old.moving + 1) (2 ^ 32 - 1)
            else self.old.moving)) }
    {
        let mut known = self.get(packet);
        known.last = known.last.max(index);
        if moves && known.sign.is_none() {
            known.sign = Some(sign_of(packet));
            self.moving = self.moving.saturating_add(1);
        }
        self.packets.insert(packet, known)?;
        Ok(())
    }

    /// What is known of a packet.
    pub fn get(&self, packet: PacketId) -> Packet
        ensures { result ≡ known self.now packet }
    {
        match self.packets.get(&packet) {
            Some(known) => *known,
            None => Packet {
                last: 0,
                sign: None,
            },
        }
    }

    /// How many packets have a flit in a buffer or on a link.
    pub fn moving(&self) -> u32
        ensures { result ≡ self.now.moving }
    {
        self.moving
    }
}
