//! What the networks and scripts of the tests are made from.

use arrayvec::ArrayVec;
use std::fmt::Debug;
use std::process::Abort;
use worm_core::{Act, Config, Entry, Name};
use worm_flit::{Lane, Packet};

/// What is found is what is wanted. An `assert_eq!` is proved with all that its function holds, so that one here costs
/// less than several there.
pub fn are_equal<T: PartialEq + Debug + Drop>(rt: &impl Abort, found: T, wanted: T) {
    assert_eq!(rt; found, wanted);
}

/// A configuration with these radices, depth and classes of so many channels.
pub fn config(radices: &[u8], depth: u8, channels: &[u8]) -> Config {
    let mut config = Config {
        radices: ArrayVec::new(),
        depth,
        classes: ArrayVec::new(),
        channels: ArrayVec::new(),
    };
    for radix in radices {
        let _ = config.radices.try_push(*radix);
    }
    for count in channels {
        let _ = config.channels.try_push(*count);
        let _ = config.classes.try_push(Name::new());
    }
    config
}

/// The configuration of two nodes in a line, with the class `data` of one channel.
pub fn two_nodes(depth: u8) -> Config {
    let mut config = config(&[2], depth, &[1]);
    config.classes.clear();
    if let Ok(name) = Name::from("data") {
        let _ = config.classes.try_push(name);
    }
    config
}

/// A packet of these words on the lane.
pub fn packet(rt: &impl Abort, lane: Lane, words: &[u32]) -> Packet {
    Packet::new(lane, words).expect(rt, "words of a packet")
}

/// In this turn the lane's source is offered a packet of these words.
pub fn to_offer(rt: &impl Abort, turn: u32, lane: Lane, words: &[u32]) -> Entry {
    Entry {
        turn,
        act: Act::Offer(packet(rt, lane, words)),
    }
}
