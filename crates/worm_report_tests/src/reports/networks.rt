//! Networks that are reported, and what is said of their runs.
//!
//! Each call of what is tested stands in a method that promises nothing, and a method ends the test where it fails.
//! What such a call promises is long, and a test that knew it of each call that it makes, with a way out of each, would
//! take a minute to prove.

use crate::cases::are_equal;
use arrayvec::ArrayVec;
use std::io::Write;
use std::process::Abort;
use worm_core::{Act, Config, Entry, Moved, Name, Net, Script, Step};
use worm_flit::{Lane, Packet};
use worm_report::{ReportFault, Summary, write_report};
use worm_text::read_network;

/// What the source of a lane is asked: to take a packet of these words, or to close the lane.
#[derive(Clone, Copy)]
pub enum Asked<'a> {
    Packet(Lane, &'a [u32]),
    Mark(Lane),
}

/// A network with these radices, depth and classes of so many channels, and what its sources are asked at the start.
#[derive(Clone, Copy)]
pub struct Given<'a> {
    pub radices: &'a [u8],
    pub depth: u8,
    pub channels: &'a [u8],
    pub asked: &'a [Asked<'a>],
}

/// A line of two nodes, with one channel and buffers of two flits, whose sources are asked this at the start.
pub fn two_nodes<'a>(asked: &'a [Asked<'a>]) -> Given<'a> {
    Given {
        radices: &[2],
        depth: 2,
        channels: &[1],
        asked,
    }
}

/// The configuration of the network, whose classes have no names.
fn config(given: &Given) -> Config {
    let mut config = Config {
        radices: ArrayVec::new(),
        depth: given.depth,
        classes: ArrayVec::new(),
        channels: ArrayVec::new(),
    };
    for radix in given.radices {
        let _ = config.radices.try_push(*radix);
    }
    for count in given.channels {
        let _ = config.channels.try_push(*count);
        let _ = config.classes.try_push(Name::new());
    }
    config
}

/// The configuration of a network's text.
fn config_of(rt: &impl Abort, text: &[u8]) -> Config {
    match read_network(text) {
        Ok(config) => config,
        Err(fault) => panic!(rt; "{fault:?}"),
    }
}

/// A packet of these words on the lane.
fn packet(rt: &impl Abort, lane: Lane, words: &[u32]) -> Packet {
    Packet::new(lane, words).expect(rt, "words of a packet")
}

/// What asks for this in a script.
fn act(rt: &impl Abort, asked: &Asked) -> Act {
    match asked {
        Asked::Packet(lane, words) => Act::Offer(packet(rt, *lane, words)),
        Asked::Mark(lane) => Act::Close(*lane),
    }
}

/// The step that asks for this.
fn asking(rt: &impl Abort, asked: &Asked) -> Step {
    match asked {
        Asked::Packet(lane, words) => Step::Offer {
            node: lane.src,
            packet: packet(rt, *lane, words),
        },
        Asked::Mark(lane) => Step::Close {
            node: lane.src,
            lane: *lane,
        },
    }
}

/// Adds an entry of turn 0.
fn add(rt: &impl Abort, script: &mut Script, act: Act) {
    let entry = Entry { turn: 0, act };
    script.push(entry).expect(rt, "an entry more");
}

/// The script that asks for all of this in turn 0.
fn script<R: Abort + AllocGlobal>(rt: &R, asked: &[Asked]) -> Script {
    let mut script = Script::empty(rt.alloc());
    for one in asked {
        add(rt, &mut script, act(rt, one));
    }
    script
}

/// A network under test.
pub struct Ground<R: Abort + AllocGlobal + Copy> {
    pub rt: R,
    net: Net,
}

impl<R: Abort + AllocGlobal + Copy> Drop for Ground<R> {
    /// Written out, so that a test that ends calls it: a derived one stands in each test, part by part.
    fn drop(self) {
        let Ground { rt: _, net: _ } = self;
    }
}

impl<R: Abort + AllocGlobal + Copy> Ground<R> {
    /// The network, whose sources were asked nothing yet.
    pub fn new(rt: R, given: &Given) -> Ground<R> {
        Ground::made(rt, &config(given))
    }

    /// The network of a text, whose sources were asked nothing yet.
    pub fn read(rt: R, text: &[u8]) -> Ground<R> {
        let config = config_of(&rt, text);
        Ground::made(rt, &config)
    }

    /// The network of the configuration.
    fn made(rt: R, config: &Config) -> Ground<R> {
        let made = Net::new(rt.alloc(), config);
        let net = made.expect(&rt, "a network");
        Ground { rt, net }
    }

    /// Takes one whole turn.
    fn take_turn(&mut self, turn: u64, script: &Script) {
        let answer = self.net.turn(turn, script);
        answer.expect(&self.rt, "a whole turn");
    }

    /// The network after so many turns.
    pub fn after_turns(rt: R, given: &Given, turns: u64) -> Ground<R> {
        let script = script(&rt, given.asked);
        let mut ground = Ground::new(rt, given);
        for turn in 0..turns {
            ground.take_turn(turn, &script);
        }
        ground
    }

    /// The step is done.
    fn does(&mut self, step: &Step) {
        are_equal(&self.rt, self.net.step(step), Ok(Moved::Done));
    }

    /// Does the steps, each of which can be done.
    pub fn does_all(&mut self, steps: &[Step]) {
        for step in steps {
            self.does(step);
        }
    }

    /// The source is asked for this, and does it.
    pub fn asks(&mut self, asked: &Asked) {
        let step = asking(&self.rt, asked);
        self.does(&step);
    }

    /// The network whose sources were asked, and in which nothing was moved yet.
    pub fn at_start(rt: R, given: &Given) -> Ground<R> {
        let mut ground = Ground::new(rt, given);
        for one in given.asked {
            ground.asks(one);
        }
        ground
    }

    /// Writes the report of the network, where this is said of the run.
    pub fn write<W: Write>(&self, summary: &Summary, out: &mut W) -> Result<(), ReportFault> {
        write_report(self.rt.alloc(), &self.net, summary, out)
    }

    /// This report.
    fn report(&self, summary: &Summary) -> Vec<u8> {
        let mut out = Vec::new(self.rt.alloc());
        let answer = self.write(summary, &mut out);
        answer.expect(&self.rt, "a report");
        out
    }

    /// This is its report.
    pub fn reports(&self, summary: &Summary, wanted: &str) {
        are_equal(&self.rt, self.report(summary).as_slice(), wanted.as_bytes());
    }
}

/// A run of so many turns by one worker, with no drain, in which so many entries were not offered.
pub fn summary(turns: u64, not_offered: u64) -> Summary {
    Summary {
        turns,
        workers: 1,
        drain: 0,
        stops: [None; 16],
        not_offered,
    }
}
