ghost use Rattle.std.specs.Prelude.{◌≡◌, ◌<◌, ◌≤◌, ◌↔◌, length, slice_get, IfOk, Some};
ghost use Rattle.worm_flit.specs.Packets.{packet_flits, mark, kind_at as kind_in};

use crate::{Flit, Kind, Lane};
use arrayvec::ArrayVec;
use std::marker::Model;
use thiserror::Error;

/// Why words make no packet.
#[derive(Clone, Copy, Debug, Error, PartialEq, Eq)]
pub enum PacketFault {
    /// There are none.
    #[error("Empty")]
    Empty,
    /// There are more than 32.
    #[error("TooLong")]
    TooLong,
}

/// A lane and 1 to 32 words of 32 bits, each of which becomes one flit (Dally and Towles, chapter 12).
/// `Packet::new(lane, &[17, 18])` is cut into a head with word 17 and a tail with word 18.
#[derive(Debug, Drop)]
pub struct Packet {
    lane: Lane,
    words: ArrayVec<u32, 32>,
}

impl Model for Packet {
    ghost use Rattle.std.specs.Prelude.{◌≤◌, length};
    ghost use Rattle.worm_flit.specs.Packets.{PacketState};

    ghost Value = { PacketState };

    ghost view = { λ p. record { lane = p.lane; words = p.words.items } };

    ghost invariant = { λ p. (1 ≤ length p.words.items) × (length p.words.items ≤ 32) };
}

impl Packet {
    /// A packet of these words, on this lane. `Empty` where there is no word, `TooLong` where there are more than 32.
    pub fn new(lane: Lane, words: &[u32]) -> Result<Packet, PacketFault>
        ensures ok { IfOk result (λ p. p ≡ record { lane = lane; words = words.now }) }
        ensures empty { (result ≡ Err PacketFault.Empty) ↔ (length words.now ≡ 0) }
        ensures too_long { (result ≡ Err PacketFault.TooLong) ↔ (32 < length words.now) }
    {
        if words.is_empty() {
            return Err(PacketFault::Empty);
        }
        if words.len() > 32 {
            return Err(PacketFault::TooLong);
        }
        let mut kept = ArrayVec::new();
        for word in words {
            kept.push(*word);
        }
        Ok(Packet { lane, words: kept })
    }

    /// Where the packet comes from and goes to, and its class.
    pub fn lane(&self) -> Lane
        ensures { result ≡ self.now.lane }
    {
        self.lane
    }

    /// The words, in the order in which their flits travel.
    pub fn words(&self) -> &[u32]
        ensures value { result.now ≡ self.now.words }
        ensures some { 1 ≤ length self.now.words }
        ensures few { length self.now.words ≤ 32 }
    {
        self.words.as_slice()
    }
}

fn kind_at(count: usize, i: u8) -> Kind
    ensures { result ≡ kind_in count i }
{
    if count == 1 {
        Kind::Single
    } else if i == 0 {
        Kind::Head
    } else if usize::from(i) + 1 == count {
        Kind::Tail
    } else {
        Kind::Body
    }
}

/// Flit `i` of the packet with this number in its lane, one flit a word, counted from 0. Its channel is its class.
pub fn flit_at(packet: &Packet, number: u16, i: u8) -> Flit
    requires { i < length packet.now.words }
    ensures { slice_get (packet_flits packet.now.lane number packet.now.words) i ≡ Some result }
{
    let words = packet.words();
    Flit {
        lane: packet.lane(),
        packet: number,
        index: i,
        kind: kind_at(words.len(), i),
        vc: packet.lane().class,
        word: words[usize::from(i)],
    }
}

/// The mark that closes a lane, as the packet of this number.
pub fn close_flit(lane: Lane, number: u16) -> Flit
    ensures { result ≡ mark lane number }
{
    Flit {
        lane,
        packet: number,
        index: 0,
        kind: Kind::Close,
        vc: lane.class,
        word: 0,
    }
}
