//! What the networks and scripts of the tests are made from.

use crate::trial::Trial;
use arrayvec::ArrayVec;
use std::fmt::Debug;
use std::process::Abort;
use worm_core::{Act, Config, Entry, Name};
use worm_flit::{Lane, Packet};

/// A configuration with these radices and depth, and one class of so many channels.
pub fn config(radices: &[u8], depth: u8, vcs: u8) -> Config {
    let mut config = Config {
        radices: ArrayVec::new(),
        depth,
        classes: ArrayVec::new(),
        channels: ArrayVec::new(),
    };
    for radix in radices {
        let _ = config.radices.try_push(*radix);
    }
    let _ = config.channels.try_push(vcs);
    let _ = config.classes.try_push(Name::new());
    config
}

/// The lane of the class from one node to another.
pub fn lane(src: u8, dst: u8) -> Lane {
    Lane { src, dst, class: 0 }
}

/// In this turn the lane's source is offered a packet of these words.
pub fn to_offer(rt: &impl Abort, turn: u32, lane: Lane, words: &[u32]) -> Entry {
    let packet = Packet::new(lane, words).expect(rt, "words of a packet");
    Entry {
        turn,
        act: Act::Offer(packet),
    }
}

/// A network of two nodes, and the script of one packet from node 0 to node 1.
pub fn pair<R: Abort + AllocGlobal + Copy>(rt: R, depth: u8, words: &[u32]) -> Trial<R> {
    let mut trial = Trial::new(rt, &[2], depth, 1);
    trial.offer_at(0, lane(0, 1), words);
    trial
}

/// The words of the packet that the node sends to the node opposite.
pub fn words_of(node: u8) -> [u32; 3] {
    let n = u32::from(node);
    [n, 100 + n, 200 + n]
}

/// Nodes up to the last, each with a packet of three words for the node opposite.
pub fn opposite<R: Abort + AllocGlobal + Copy>(rt: R, radices: &[u8], last: u8) -> Trial<R> {
    let mut trial = Trial::new(rt, radices, 2, 1);
    for node in 0..=last {
        trial.offer_at(0, lane(node, last - node), &words_of(node));
    }
    trial
}

/// What is found is what is wanted. An `assert_eq!` is proved with all that its function holds, so that one here costs
/// less than several there.
pub fn are_equal<T: PartialEq + Debug + Drop>(rt: &impl Abort, found: T, wanted: T) {
    assert_eq!(rt; found, wanted);
}
