//! The nine steps of a network, and what a step did.

use worm_flit::{Lane, Packet};

/// One event at one place of the network (Dally and Towles, chapters 13 and 16). Numbers start at 0. A port is `2d`
/// towards lower digits of dimension `d`, `2d + 1` towards higher ones, and last the terminal.
#[derive(Debug, Drop)]
pub enum Step {
    /// The node's source accepts a packet.
    Offer {
        node: u8,
        packet: Packet,
    },
    /// The node's source accepts a lane's close mark.
    Close {
        node: u8,
        lane: Lane,
    },
    /// The source's next flit of the class goes into the injection buffer.
    Feed {
        node: u8,
        class: u8,
    },
    /// The opening flit at a buffer's front finds its output port.
    Route {
        node: u8,
        port: u8,
        vc: u8,
    },
    /// A waiting packet gets a free channel of its output port.
    Grant {
        node: u8,
        port: u8,
        vc: u8,
        out_vc: u8,
    },
    /// The flit at a buffer's front leaves by the output channel that its packet holds.
    Send {
        node: u8,
        port: u8,
        vc: u8,
    },
    /// The front flit of the link into the port goes into its buffer.
    Take {
        node: u8,
        port: u8,
    },
    /// A credit that the input channel owes goes onto its link.
    GiveCredit {
        node: u8,
        port: u8,
        vc: u8,
    },
    /// The front credit of the link out of the port goes to its channel's count.
    TakeCredit {
        node: u8,
        port: u8,
    },
}

/// What a step did.
#[derive(Clone, Copy, Debug, PartialEq, Eq)]
pub enum Moved {
    /// It was enabled, and is done.
    Done,
    /// Its place is there, but it was not enabled; nothing changed.
    Idle,
}
