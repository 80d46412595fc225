ghost use Rattle.std.specs.Prelude.{◌≡◌, true, if◌then◌else◌, IfSome};
ghost use Rattle.worm_flit.specs.Packing.{kind_number, kind_of, word_of, flit_of, is_word, IsFlit};
ghost use Rattle.worm_flit.specs.declared.Flit.{Flit};

use crate::{Flit, Kind, Lane};

impl Kind {
    fn number(self) -> u8
        ensures { result ≡ kind_number self }
    {
        match self {
            Kind::Head => 0,
            Kind::Body => 1,
            Kind::Tail => 2,
            Kind::Single => 3,
            Kind::Close => 4,
        }
    }

    fn from_number(number: u8) -> Kind
        ensures { result ≡ kind_of number }
    {
        match number {
            0 => Kind::Head,
            1 => Kind::Body,
            2 => Kind::Tail,
            3 => Kind::Single,
            _ => Kind::Close,
        }
    }
}

const BYTE: u128 = 1 << 8;

const TWO_BYTES: u128 = 1 << 16;

const FOUR_BYTES: u128 = 1 << 32;

/// A flit as a word for a link between two workers: from the low end word, channel, kind, index, packet, class,
/// destination and source. The upper 32 bits are zero.
pub fn pack(flit: Flit) -> u128
    ensures word { result ≡ word_of flit }
    ensures back { (is_word result ≡ true) × (flit_of result ≡ flit) }
{
    let nodes = u128::from(flit.lane.src) * BYTE + u128::from(flit.lane.dst);
    let lane = nodes * BYTE + u128::from(flit.lane.class);
    let stamp = (lane * TWO_BYTES + u128::from(flit.packet)) * BYTE + u128::from(flit.index);
    let order = (stamp * BYTE + u128::from(flit.kind.number())) * BYTE + u128::from(flit.vc);
    order * FOUR_BYTES + u128::from(flit.word)
}

/// The flit that a word stands for; `None` where its kind is above 4 or one of its upper 32 bits is set.
pub fn unpack(word: u128) -> Option<Flit>
    ensures fields { result ≡ (if is_word word then Some (flit_of word) else None) }
    ensures found { IfSome result (λ flit. word_of flit ≡ word) }
    ensures every { (flit : Flit) → IsFlit flit → word_of flit ≡ word → result ≡ Some flit }
{
    let order = word / FOUR_BYTES;
    let kinds = order / BYTE;
    let stamp = kinds / BYTE;
    let packets = stamp / BYTE;
    let lane = packets / TWO_BYTES;
    let nodes = lane / BYTE;
    let sources = nodes / BYTE;
    if kinds % BYTE > 4 {
        return None;
    }
    if sources >= BYTE {
        return None;
    }
    Some(Flit {
        lane: Lane {
            src: sources as u8,
            dst: (nodes % BYTE) as u8,
            class: (lane % BYTE) as u8,
        },
        packet: (packets % TWO_BYTES) as u16,
        index: (stamp % BYTE) as u8,
        kind: Kind::from_number((kinds % BYTE) as u8),
        vc: (order % BYTE) as u8,
        word: (word % FOUR_BYTES) as u32,
    })
}
