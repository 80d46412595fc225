//! A network under test, and what is done with it and read of it.
//!
//! Each call of what is tested stands in a method that promises nothing, and a method ends the test where it fails or
//! finds something else than what is expected. So a test is a few calls of methods: its proof grows with the square of
//! what it holds, and a test that did all this itself, with a way out of each step, would take a minute to prove.

ghost use Rattle.std.specs.Prelude.{◌<◌};

use crate::cases::{are_equal, config, to_offer};
use std::alloc::Global;
use std::process::Abort;
use worm_core::{
    Act, Config, Entry, LaneView, LinkState, Moved, Net, NetFault, NetParts, Place, RunSoFar,
    Script, ScriptFault, Step, StepFault, Totals,
};
use worm_flit::Lane;

/// A flit of a lane by its packet's number and its index, and where it is.
pub type Standing = (u16, u8, Place);

/// A network made from the configuration, or why there is none.
pub fn made(alloc: Global, config: &Config) -> Result<Net, NetFault> {
    Net::new(alloc, config)
}

/// No network is made from the configuration, for this fault.
pub fn is_refused(rt: &impl Abort, alloc: Global, config: &Config, fault: NetFault) {
    let refusal = made(alloc, config).err();
    are_equal(rt, refusal, Some(fault));
}

/// A flit by its packet's number, its index and its word.
pub type Arrival = (u16, u8, u32);

/// What the parts of a network are expected to be.
#[derive(Clone, Copy)]
pub struct Shape<'a> {
    pub radices: &'a [u8],
    pub depth: u8,
    pub channels: &'a [u8],
    pub nodes: usize,
    pub links: usize,
    /// For how many flits each link has room.
    pub room: u16,
}

/// The parts were made from what is expected.
fn have_config(rt: &impl Abort, parts: &NetParts, shape: &Shape) {
    are_equal(rt, parts.config.radices.as_slice(), shape.radices);
    are_equal(rt, parts.config.channels.as_slice(), shape.channels);
    are_equal(rt, parts.config.depth, shape.depth);
}

/// The parts are as many as expected.
fn have_counts(rt: &impl Abort, parts: &NetParts, shape: &Shape) {
    are_equal(rt, parts.nodes.len(), shape.nodes);
    are_equal(rt, parts.links.len(), shape.links);
}

/// Whether each link has room for so many flits.
fn have_room(parts: &NetParts, room: u16) -> bool {
    parts
        .links
        .iter()
        .all(|link| link.room() == usize::from(room))
}

/// A network and the script of its turns.
pub struct Trial<R: Abort + AllocGlobal + Copy> {
    rt: R,
    net: Net,
    script: Script,
}

impl<R: Abort + AllocGlobal + Copy> Drop for Trial<R> {
    /// Written out, so that a test that ends calls it: a derived one stands in each test, part by part.
    fn drop(self) {
        let Trial {
            rt: _,
            net: _,
            script: _,
        } = self;
    }
}

impl<R: Abort + AllocGlobal + Copy> Trial<R> {
    /// The network, with a script of no entry.
    pub fn of(rt: R, net: Net) -> Trial<R> {
        let script = Script::empty(rt.alloc());
        Trial { rt, net, script }
    }

    /// A network with these radices, depth and classes of so many channels, with a script of no entry.
    pub fn new(rt: R, radices: &[u8], depth: u8, channels: &[u8]) -> Trial<R> {
        let made = made(rt.alloc(), &config(radices, depth, channels));
        Trial::of(rt, made.expect(&rt, "a network"))
    }

    /// Adds the entry to the script, or says why not.
    pub fn add(&mut self, entry: Entry) -> Result<(), ScriptFault> {
        self.script.push(entry)
    }

    /// Adds to the script that in this turn the lane's source is offered a packet of these words.
    pub fn offer_at(&mut self, turn: u32, lane: Lane, words: &[u32]) {
        let entry = to_offer(&self.rt, turn, lane, words);
        self.add(entry).expect(&self.rt, "an entry more");
    }

    /// Adds to the script that in this turn the lane's source is asked to close it.
    pub fn close_at(&mut self, turn: u32, lane: Lane) {
        let act = Act::Close(lane);
        self.add(Entry { turn, act })
            .expect(&self.rt, "an entry more");
    }

    /// One turn, or why it ended.
    pub fn turn(&mut self, turn: u64) -> Result<(), StepFault> {
        self.net.turn(turn, &self.script)
    }

    /// One whole turn.
    pub fn takes_turn(&mut self, turn: u64) {
        self.turn(turn).expect(&self.rt, "a whole turn");
    }

    /// The turns from the first to before the end.
    pub fn takes_turns(&mut self, first: u64, end: u64) {
        for turn in first..end {
            self.takes_turn(turn);
        }
    }

    /// The step is tried, and has this answer.
    fn answer(&mut self, step: &Step, answer: Result<Moved, StepFault>) {
        are_equal(&self.rt, self.net.step(step), answer);
    }

    /// The steps are tried one by one, and each has this answer.
    pub fn answers<const N: usize>(&mut self, steps: [Step; N], answer: Result<Moved, StepFault>) {
        for step in &steps {
            self.answer(step, answer);
        }
    }

    /// Does the steps, each of which can be done.
    pub fn does<const N: usize>(&mut self, steps: [Step; N]) {
        self.answers(steps, Ok(Moved::Done));
    }

    /// How far a run of the steps came.
    pub fn run<const N: usize>(&mut self, steps: [Step; N]) -> RunSoFar {
        self.net.run(&steps)
    }

    /// A run of the steps comes so far.
    pub fn runs<const N: usize>(&mut self, steps: [Step; N], so_far: RunSoFar) {
        let ran = self.run(steps);
        are_equal(&self.rt, ran, so_far);
    }

    /// The sums over all nodes.
    pub fn totals(&self) -> Totals {
        self.net.totals()
    }

    /// The sums over all nodes are these.
    pub fn has_totals(&self, totals: Totals) {
        are_equal(&self.rt, self.totals(), totals);
    }

    /// So many packets and marks were accepted.
    pub fn has_accepted(&self, count: u128) {
        are_equal(&self.rt, self.totals().accepted, count);
    }

    /// So many flits were delivered.
    pub fn has_delivered(&self, count: u128) {
        are_equal(&self.rt, self.totals().delivered, count);
    }

    /// Whether all that was accepted was delivered.
    pub fn is_drained(&self) -> bool {
        self.net.is_drained()
    }

    /// There are so many nodes.
    pub fn has_nodes(&self, count: u16) {
        are_equal(&self.rt, self.net.nodes(), count);
    }

    /// The words of the flits that arrived at the node.
    fn words_at(&self, node: u8) -> Vec<u32> {
        assert!(self.rt; u16::from(node) < self.net.nodes());
        let mut words = Vec::new(self.rt.alloc());
        for flit in self.net.delivered(node) {
            words.push(flit.word).expect(&self.rt, "memory");
        }
        words
    }

    /// The flits that arrived at the node have these words.
    pub fn has_words(&self, node: u8, words: &[u32]) {
        are_equal(&self.rt, self.words_at(node).as_slice(), words);
    }

    /// The flits that arrived at the node.
    fn arrivals(&self, node: u8) -> Vec<Arrival> {
        assert!(self.rt; u16::from(node) < self.net.nodes());
        let mut all = Vec::new(self.rt.alloc());
        for flit in self.net.delivered(node) {
            let arrival = (flit.packet, flit.index, flit.word);
            all.push(arrival).expect(&self.rt, "memory");
        }
        all
    }

    /// These flits arrived at the node.
    pub fn has_arrived(&self, node: u8, flits: &[Arrival]) {
        are_equal(&self.rt, self.arrivals(node).as_slice(), flits);
    }

    /// Whether the lane's mark has arrived at the node.
    pub fn is_closed(&self, node: u8, lane: Lane) -> bool {
        assert!(self.rt; u16::from(node) < self.net.nodes());
        self.net.sink(node).closed(lane)
    }

    /// Whether the lane may have something under way.
    pub fn is_busy(&self, lane: Lane) -> bool {
        let busy = self.net.busy(self.rt.alloc()).expect(&self.rt, "memory");
        busy.contains(lane)
    }

    /// What is read of the lane.
    fn view(&self, lane: Lane) -> LaneView {
        assert!(self.rt; self.net.has_lane(lane));
        self.net
            .lane_view(self.rt.alloc(), lane)
            .expect(&self.rt, "memory")
    }

    /// So many of the lane's flits were delivered.
    pub fn has_come(&self, lane: Lane, count: u64) {
        are_equal(&self.rt, self.view(lane).delivered, count);
    }

    /// Where the lane's flits under way are.
    fn standings(&self, lane: Lane) -> Vec<Standing> {
        let mut all = Vec::new(self.rt.alloc());
        for held in &self.view(lane).underway {
            let standing = (held.flit.packet, held.flit.index, held.place);
            all.push(standing).expect(&self.rt, "memory");
        }
        all
    }

    /// The lane's flits under way are at these places.
    pub fn stands(&self, lane: Lane, places: &[Standing]) {
        are_equal(&self.rt, self.standings(lane).as_slice(), places);
    }

    /// The words of the lane's flits under way.
    fn carried(&self, lane: Lane) -> Vec<u32> {
        let mut words = Vec::new(self.rt.alloc());
        for held in &self.view(lane).underway {
            words.push(held.flit.word).expect(&self.rt, "memory");
        }
        words
    }

    /// The lane's flits under way have these words.
    pub fn carries(&self, lane: Lane, words: &[u32]) {
        are_equal(&self.rt, self.carried(lane).as_slice(), words);
    }

    /// So many of the lane's flits are under way.
    pub fn has_under_way(&self, lane: Lane, count: usize) {
        are_equal(&self.rt, self.view(lane).underway.len(), count);
    }

    /// There are so many classes.
    pub fn has_classes(&self, count: u8) {
        are_equal(&self.rt, self.net.classes(), count);
    }

    /// So many classes have names.
    pub fn has_names(&self, count: usize) {
        are_equal(&self.rt, self.net.config().classes.len(), count);
    }

    /// The same, once the network was taken apart, with so many flits and so many credits in the two lists of the link
    /// of this number, and put together again.
    pub fn through_lists(self, number: usize, flits: usize, credits: usize) -> Trial<R> {
        let Trial { rt, net, script } = self;
        let parts = net.into_parts();
        assert!(rt; number < parts.links.len());
        let LinkState {
            flits: sent,
            credits: given,
        } = &parts.links[number];
        are_equal(&rt, (sent.len(), given.len()), (flits, credits));
        let net = Net::from_parts(parts);
        Trial { rt, net, script }
    }

    /// The same, once the network was taken apart into parts of this shape and put together again.
    pub fn through_parts(self, shape: &Shape) -> Trial<R> {
        let Trial { rt, net, script } = self;
        let parts = net.into_parts();
        have_config(&rt, &parts, shape);
        have_counts(&rt, &parts, shape);
        assert!(rt; have_room(&parts, shape.room));
        let net = Net::from_parts(parts);
        Trial { rt, net, script }
    }
}
