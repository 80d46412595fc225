//! Steps and places in short.

use crate::cases::packet;
use std::process::Abort;
use worm_core::{Place, Step};
use worm_flit::Lane;

/// A place in an input buffer.
pub fn buffer(node: u8, port: u8, vc: u8) -> Place {
    Place::Buffer { node, port, vc }
}

/// A place on a link.
pub fn link(node: u8, port: u8, vc: u8) -> Place {
    Place::Link { node, port, vc }
}

/// The lane's source is offered a packet of these words.
pub fn offer(rt: &impl Abort, lane: Lane, words: &[u32]) -> Step {
    Step::Offer {
        node: lane.src,
        packet: packet(rt, lane, words),
    }
}

/// The lane's source is asked to close it.
pub fn close(lane: Lane) -> Step {
    Step::Close {
        node: lane.src,
        lane,
    }
}

pub fn feed(node: u8, class: u8) -> Step {
    Step::Feed { node, class }
}

pub fn route(node: u8, port: u8, vc: u8) -> Step {
    Step::Route { node, port, vc }
}

pub fn grant(node: u8, port: u8, vc: u8, out_vc: u8) -> Step {
    Step::Grant {
        node,
        port,
        vc,
        out_vc,
    }
}

pub fn send(node: u8, port: u8, vc: u8) -> Step {
    Step::Send { node, port, vc }
}

pub fn take(node: u8, port: u8) -> Step {
    Step::Take { node, port }
}

pub fn give(node: u8, port: u8, vc: u8) -> Step {
    Step::GiveCredit { node, port, vc }
}

pub fn take_credit(node: u8, port: u8) -> Step {
    Step::TakeCredit { node, port }
}
