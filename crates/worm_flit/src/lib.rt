//! What travels through the network: flits, packets, a flit as one word, sets of small numbers, and the channels that
//! message classes own (Dally and Towles, chapters 12 and 13).
//!
//! A packet is one `Single` flit, or a `Head`, up to 30 `Body` flits and a `Tail`. A mark that closes a lane is one
//! `Close` flit. By each flit's stamp (lane, packet, index) what came out of a network can be compared with what went
//! in. Nothing here knows of routes, nodes' places or buffers.
#![tactic(auto)]

ghost use Rattle.std.specs.Prelude.{◌≡◌};
ghost use Rattle.worm_flit.specs.Kinds.{opens, closes};

mod channels;
mod packet;
mod packing;
mod small_set;

pub use channels::{ClassChannels, are_channels};
pub use packet::{Packet, PacketFault, close_flit, flit_at};
pub use packing::{pack, unpack};
pub use small_set::SmallSet;

/// A source node, a destination node and a message class, whose packets are numbered from 0. Where the class owns one
/// channel, the lane's flits arrive in the order in which they were offered.
#[derive(Clone, Copy, Debug, PartialEq, Eq, PartialOrd, Ord)]
pub struct Lane {
    /// The node whose source offers the packets.
    pub src: u8,
    /// The node whose sink takes them.
    pub dst: u8,
    /// The class, counted from 0 in the order of the network's text.
    pub class: u8,
}

/// A flit's part in its packet (Dally and Towles, chapter 12).
#[derive(Clone, Copy, Debug, PartialEq, Eq)]
pub enum Kind {
    /// The first of several flits: it finds the route.
    Head,
    /// Neither the first nor the last flit.
    Body,
    /// The last of several flits: it frees what the head reserved.
    Tail,
    /// The only flit of a packet.
    Single,
    /// The mark that closes a lane, a packet of its own.
    Close,
}

/// One flit, the unit that links and buffers hold.
#[derive(Clone, Copy, Debug, PartialEq, Eq)]
pub struct Flit {
    /// Where it comes from and goes to, and its class.
    pub lane: Lane,
    /// The virtual channel that it is on; in a source, the class.
    pub vc: u8,
    /// Its packet's number in the lane, 0 to 65,534.
    pub packet: u16,
    /// Its place in the packet, 0 to 31.
    pub index: u8,
    /// Its part in the packet.
    pub kind: Kind,
    /// The 32 bits that it carries.
    pub word: u32,
}

/// Whether a flit of this kind is the first of its packet.
pub fn is_opening(kind: Kind) -> bool
    ensures { result ≡ opens kind }
{
    match kind {
        Kind::Head | Kind::Single | Kind::Close => true,
        Kind::Body | Kind::Tail => false,
    }
}

/// Whether a flit of this kind is the last of its packet.
pub fn is_closing(kind: Kind) -> bool
    ensures { result ≡ closes kind }
{
    match kind {
        Kind::Tail | Kind::Single | Kind::Close => true,
        Kind::Head | Kind::Body => false,
    }
}
