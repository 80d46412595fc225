//! A network under test, and what is done with it and read of it.
//!
//! Each call of what is tested stands in a method that promises nothing, and a method ends the test where it fails or
//! finds something else than what is expected. So a test is a few calls of methods: its proof grows with the square of
//! what it holds, and a test that did all this itself, with a way out of each step, would take a minute to prove.

ghost use Rattle.std.specs.Prelude.{◌<◌};

use crate::cases::{are_equal, config, lane, to_offer};
use std::process::Abort;
use std::sync::Wait;
use std::thread::Threads;
use worm_core::{LaneView, Net, Place, Script, Totals};
use worm_flit::{Flit, Lane};
use worm_run::{Gate, RunEnd, RunFault, RunPlan, Stop, run};

/// A flit of a lane by its index in its packet, and where it is.
pub type Standing = (u8, Place);

/// A network and the script of its turns.
pub struct Trial<R: Abort + AllocGlobal + Copy> {
    pub rt: R,
    pub net: Net,
    pub script: Script,
}

/// A network after a run, and how the run ended.
#[derive(Drop)]
pub struct Ran<R: Abort + AllocGlobal + Copy> {
    trial: Trial<R>,
    stops: Vec<Stop>,
    ended: Vec<u64>,
}

impl<R: Abort + AllocGlobal + Copy> Ran<R> {
    /// The network, of a run in which these workers stopped and each worker ended so many turns.
    pub fn ended(self, stops: &[Stop], turns: &[u64]) -> Trial<R> {
        let Ran {
            trial,
            stops: stopped,
            ended,
        } = self;
        are_equal(&trial.rt, stopped.as_slice(), stops);
        are_equal(&trial.rt, ended.as_slice(), turns);
        trial
    }
}

impl<R: Abort + AllocGlobal + Copy> Drop for Trial<R> {
    /// Written out, so that a test that ends calls it: a derived one stands in each test, part by part.
    fn drop(self) {
        let Trial {
            rt: _,
            net: _,
            script: _,
        } = self;
    }
}

impl<R: Abort + AllocGlobal + Copy> Trial<R> {
    /// The network, with a script of no entry.
    pub fn of(rt: R, net: Net) -> Trial<R> {
        let script = Script::empty(rt.alloc());
        Trial { rt, net, script }
    }

    /// A network with these radices and depth, and one class of so many channels, with a script of no entry.
    pub fn new(rt: R, radices: &[u8], depth: u8, vcs: u8) -> Trial<R> {
        let made = Net::new(rt.alloc(), &config(radices, depth, vcs));
        Trial::of(rt, made.expect(&rt, "a network"))
    }

    /// The same network, with a script of no entry.
    pub fn without_traffic(self) -> Trial<R> {
        let Trial { rt, net, script: _ } = self;
        Trial::of(rt, net)
    }

    /// The handle, the network and the script by themselves.
    pub fn into_inner(self) -> (R, Net, Script) {
        let Trial { rt, net, script } = self;
        (rt, net, script)
    }

    /// Adds to the script that in this turn the lane's source is offered a packet of these words.
    pub fn offer_at(&mut self, turn: u32, lane: Lane, words: &[u32]) {
        let entry = to_offer(&self.rt, turn, lane, words);
        self.script.push(entry).expect(&self.rt, "an entry more");
    }

    /// One turn, on one thread.
    pub fn turn(&mut self, turn: u64) {
        self.net
            .turn(turn, &self.script)
            .expect(&self.rt, "a whole turn");
    }

    /// The turns from the first to before the end, on one thread.
    pub fn turns(&mut self, first: u64, end: u64) {
        for turn in first..end {
            self.turn(turn);
        }
    }

    /// Turns without traffic on one thread, at most 10,000, till nothing is under way.
    pub fn settled(self) -> Trial<R> {
        let mut trial = self.without_traffic();
        for turn in 0u64..10_000 {
            let totals = trial.totals();
            if totals.injected == totals.delivered {
                break;
            }
            trial.turn(turn);
        }
        trial
    }

    /// The sums over all nodes.
    pub fn totals(&self) -> Totals {
        self.net.totals()
    }

    /// So many flits were accepted.
    pub fn has_injected(&self, count: u128) {
        are_equal(&self.rt, self.totals().injected, count);
    }

    /// So many flits were delivered.
    pub fn has_delivered(&self, count: u128) {
        are_equal(&self.rt, self.totals().delivered, count);
    }

    /// The number of nodes.
    pub fn nodes(&self) -> u16 {
        self.net.nodes()
    }

    /// The flits that were delivered to the node, in order.
    pub fn flits_at(&self, node: u8) -> &[Flit] {
        assert!(self.rt; u16::from(node) < self.net.nodes());
        self.net.delivered(node)
    }

    /// The words that were delivered to the node, in order.
    pub fn words_at(&self, node: u8) -> Vec<u32> {
        let mut words = Vec::new(self.rt.alloc());
        for flit in self.flits_at(node) {
            words.push(flit.word).expect(&self.rt, "memory");
        }
        words
    }

    /// The flits that were delivered to the node have these words.
    pub fn has_words(&self, node: u8, words: &[u32]) {
        are_equal(
            &self.rt,
            (node, self.words_at(node).as_slice()),
            (node, words),
        );
    }

    /// What is read of the lane.
    pub fn view(&self, lane: Lane) -> LaneView {
        assert!(self.rt; self.net.has_lane(lane));
        self.net
            .lane_view(self.rt.alloc(), lane)
            .expect(&self.rt, "memory")
    }

    /// So many of the lane's flits were delivered.
    pub fn has_come(&self, lane: Lane, count: u64) {
        are_equal(&self.rt, self.view(lane).delivered, count);
    }

    /// Where the lane's flits under way are.
    fn standings(&self, lane: Lane) -> Vec<Standing> {
        let mut all = Vec::new(self.rt.alloc());
        for held in &self.view(lane).underway {
            all.push((held.flit.index, held.place))
                .expect(&self.rt, "memory");
        }
        all
    }

    /// The lane's flits under way are at these places.
    pub fn stands(&self, lane: Lane, places: &[Standing]) {
        are_equal(&self.rt, self.standings(lane).as_slice(), places);
    }

    /// How many flits the lanes of sixteen nodes have, delivered or under way.
    fn flits_in_lanes(&self) -> u64 {
        let mut count = 0u64;
        for src in 0u8..16 {
            for dst in 0u8..16 {
                let view = self.view(lane(src, dst));
                count = count.saturating_add(view.delivered);
                count = count.saturating_add(view.underway.len() as u64);
            }
        }
        count
    }

    /// The lanes of sixteen nodes have so many flits, delivered or under way.
    pub fn has_in_lanes(&self, count: u64) {
        are_equal(&self.rt, self.flits_in_lanes(), count);
    }

    /// The words delivered at `dst`, followed by those under way to it from `src`, which alone sends to it.
    pub fn words_to(&self, src: u8, dst: u8) -> Vec<u32> {
        let mut words = self.words_at(dst);
        for held in &self.view(lane(src, dst)).underway {
            words.push(held.flit.word).expect(&self.rt, "memory");
        }
        words
    }
}

impl<R: Abort + AllocGlobal + Copy + Threads + Wait + Sync> Trial<R> {
    /// A run of so many turns by so many workers; one that is refused fails the test.
    pub fn run<G: Gate + Sync>(self, workers: usize, turns: u64, gate: &G) -> Ran<R> {
        let Trial { rt, net, script } = self;
        let plan = RunPlan { turns, workers };
        match run(&rt, rt.alloc(), net, &script, plan, gate) {
            Ok(RunEnd { net, stops, ended }) => Ran {
                trial: Trial { rt, net, script },
                stops,
                ended,
            },
            Err(_) => panic!(rt; "no run"),
        }
    }

    /// A run by so many workers is refused, and gives the network back.
    pub fn refused<G: Gate + Sync>(self, workers: usize, turns: u64, gate: &G) -> Trial<R> {
        let Trial { rt, net, script } = self;
        let plan = RunPlan { turns, workers };
        match run(&rt, rt.alloc(), net, &script, plan, gate) {
            Err(RunFault::Workers(net)) => Trial { rt, net, script },
            _ => panic!(rt; "not refused"),
        }
    }
}
