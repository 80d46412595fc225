//! Lanes and flits.

ghost use Rattle.std.specs.Prelude.{◌≡◌};

use worm_flit::{Flit, Kind, Lane};

/// The lane of the class from one node to another.
pub fn lane(src: u8, dst: u8, class: u8) -> Lane
    ensures { result ≡ record { src = src; dst = dst; class = class } }
{
    Lane { src, dst, class }
}

/// The only flit of the packet of this number from node 0 to node 1, on channel 0.
pub fn single(packet: u16, word: u32) -> Flit
    ensures { (result.vc ≡ 0) × (result.lane.dst ≡ 1) }
{
    Flit {
        lane: lane(0, 1, 0),
        packet,
        index: 0,
        kind: Kind::Single,
        vc: 0,
        word,
    }
}
