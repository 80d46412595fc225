//! A line of traffic: what a source is asked, and when.

ghost use Rattle.std.specs.Prelude.{◌≡◌};
ghost use Rattle.worm_script.specs.Script.{HasWords, lane_of};

use worm_flit::{Lane, Packet};

/// What a source is asked to do.
#[derive(Debug, Drop)]
pub enum Act {
    /// To accept this packet.
    Offer(Packet),
    /// To close this lane, after which it accepts nothing for it.
    Close(Lane),
}

impl Act {
    /// The lane of which it speaks.
    pub fn lane(&self) -> Lane
        ensures { result ≡ lane_of self.now }
    {
        match self {
            Act::Offer(packet) => packet.lane(),
            Act::Close(lane) => *lane,
        }
    }

    pub(crate) fn recall(&self)
        ensures { HasWords self.now }
    {
        if let Act::Offer(packet) = self {
            let _words = packet.words();
        }
    }
}

/// One line of traffic.
#[derive(Debug, Drop)]
pub struct Entry {
    /// The turn, counted from 0, in which the lane's source is asked.
    pub turn: u32,
    /// What it is asked.
    pub act: Act,
}
