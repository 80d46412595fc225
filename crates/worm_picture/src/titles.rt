//! What hovering over a flit says.

ghost use Rattle.std.specs.Prelude.{Some};
ghost use Rattle.worm_picture.specs.Titles.{arrival_title, flit_title};

use std::fmt;
use worm_rows::{Load, PacketId};

/// A flit that is under way: a report does not say its word.
#[derive(Clone, Copy, Debug, PartialEq, Eq)]
pub struct FlitTitle {
    /// Its packet.
    pub packet: PacketId,
    /// Its place in the packet.
    pub index: u8,
    /// The place of the packet's tail.
    pub last: u8,
}

impl fmt::Display for FlitTitle {
    ghost output = { λ title. Some (flit_title title) };

    fn fmt<W: fmt::Write>(&self, f: &mut fmt::Formatter<W>) -> fmt::Result {
        let src = self.packet.lane.src;
        let dst = self.packet.lane.dst;
        let class = self.packet.lane.class;
        let number = self.packet.number;
        let index = self.index;
        let last = self.last;
        write!(
            f,
            "from {src} to {dst} class {class} packet {number} flit {index}, of 0 to {last}"
        )
    }
}

/// A flit that was delivered.
#[derive(Clone, Copy, Debug, PartialEq, Eq)]
pub struct ArrivalTitle {
    /// Its packet.
    pub packet: PacketId,
    /// What it carried.
    pub load: Load,
}

impl fmt::Display for ArrivalTitle {
    ghost output = { λ title. Some (arrival_title title) };

    fn fmt<W: fmt::Write>(&self, f: &mut fmt::Formatter<W>) -> fmt::Result {
        let src = self.packet.lane.src;
        let class = self.packet.lane.class;
        let number = self.packet.number;
        match self.load {
            Load::Close => write!(f, "from {src} class {class} packet {number} close"),
            Load::Word { index, word } => write!(
                f,
                "from {src} class {class} packet {number} flit {index} word {word}"
            ),
        }
    }
}
