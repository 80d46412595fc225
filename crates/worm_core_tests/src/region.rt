//! A script's entries and those of a source, what a new region is made from, where a route goes on, and what a node may
//! send.

ghost use Rattle.std.specs.Prelude.{◌<◌};

use crate::cases::{are_equal, config, packet, to_offer};
use std::alloc::Global;
use std::process::Abort;
use worm_cases::lane;
use worm_flit::Lane;
use worm_region::{Act, Config, Due, Entry, NetFault, Region, Script, ScriptFault};

/// The script of an entry in each of these turns: a word for the node of the turn's number.
fn script_of_turns(rt: &impl Abort, alloc: Global, turns: &[u8]) -> Script {
    let mut script = Script::empty(alloc);
    for turn in turns {
        let entry = to_offer(rt, u32::from(*turn), lane(0, *turn, 0), &[1]);
        script.push(entry).expect(rt, "an entry more");
    }
    script
}

/// The script does not take an entry of this turn.
fn is_past(rt: &impl Abort, script: &mut Script, turn: u8) {
    let late = to_offer(rt, u32::from(turn), lane(0, turn, 0), &[1]);
    are_equal(rt, script.push(late), Err(ScriptFault::TurnFalls));
}

/// The script's entries are of these turns, in order.
fn has_turns(rt: &impl Abort, script: &Script, turns: &[u8]) {
    are_equal(rt, script.len(), turns.len());
    for (entry, turn) in script.entries().iter().zip(turns) {
        are_equal(rt, entry.turn, u32::from(*turn));
    }
}

/// The turn has so many entries.
fn has_due(rt: &impl Abort, script: &Script, turn: u64, count: usize) {
    are_equal(rt, script.due(turn).len(), count);
}

/// The first entry of the turn is of this lane.
fn begins_with(rt: &impl Abort, script: &Script, turn: u64, lane: Lane) {
    let due = script.due(turn);
    assert!(rt; !due.is_empty());
    are_equal(rt, due.act(0).lane(), lane);
    are_equal(rt, due.first_of(lane.src), Some(0));
}

/// The script of an entry for the source of each of these nodes, in the turn beside it.
fn script_of_sources(rt: &impl Abort, alloc: Global, sources: &[(u32, u8)]) -> Script {
    let mut script = Script::empty(alloc);
    for (turn, source) in sources {
        let entry = to_offer(rt, *turn, lane(*source, 9, 0), &[1]);
        script.push(entry).expect(rt, "an entry more");
    }
    script
}

/// The entries of the turn that ask the node's source are those at these places, and no others.
fn asks_at(rt: &impl Abort, due: &Due<'_>, node: u8, places: &[usize]) {
    let mut next = due.first_of(node);
    for place in places {
        are_equal(rt, next, Some(*place));
        assert!(rt; *place < due.len());
        next = due.next_of(*place);
    }
    are_equal(rt, next, None);
}

#[test]
fn the_entries_of_a_turn(rt: HostRuntime) {
    let mut script = script_of_turns(&rt, rt.alloc(), &[0, 2, 2, 5]);
    is_past(&rt, &mut script, 4);
    has_turns(&rt, &script, &[0, 2, 2, 5]);
    has_due(&rt, &script, 0, 1);
    has_due(&rt, &script, 1, 0);
    has_due(&rt, &script, 2, 2);
    has_due(&rt, &script, 5, 1);
    begins_with(&rt, &script, 5, lane(0, 5, 0));
    has_due(&rt, &script, 1_000_000_000_000, 0);
}

#[test]
fn an_entry_of_an_earlier_turn_is_not_taken(rt: HostRuntime) {
    let mut script = script_of_turns(&rt, rt.alloc(), &[1]);
    is_past(&rt, &mut script, 0);
    has_turns(&rt, &script, &[1]);
}

#[test]
fn the_entries_of_a_source(rt: HostRuntime) {
    let sources = [
        (3, 0),
        (3, 255),
        (3, 0),
        (3, 2),
        (3, 255),
        (3, 0),
        (4, 255),
        (4, 0),
    ];
    let script = script_of_sources(&rt, rt.alloc(), &sources);
    let due = script.due(3);
    asks_at(&rt, &due, 0, &[0, 2, 5]);
    asks_at(&rt, &due, 255, &[1, 4]);
    asks_at(&rt, &due, 2, &[3]);
    asks_at(&rt, &due, 1, &[]);
    let due = script.due(4);
    asks_at(&rt, &due, 0, &[1]);
    asks_at(&rt, &due, 255, &[0]);
    asks_at(&rt, &due, 2, &[]);
    asks_at(&rt, &script.due(5), 0, &[]);
}

/// The script's next entry is of this turn, and asks for that.
fn goes_on_with(rt: &impl Abort, script: &mut Script, turn: u32, act: Act) {
    script.push(Entry { turn, act }).expect(rt, "an entry more");
}

/// It is asked to accept a packet of these words.
fn offers(rt: &impl Abort, act: &Act, words: &[u32]) {
    match act {
        Act::Offer(packet) => assert!(rt; packet.words() == words),
        Act::Close(_) => assert!(rt; false, "no packet"),
    }
}

/// It is asked to close this lane.
fn closes(rt: &impl Abort, act: &Act, lane: Lane) {
    match act {
        Act::Offer(_) => assert!(rt; false, "a packet"),
        Act::Close(closed) => are_equal(rt, *closed, lane),
    }
}

#[test]
fn what_the_entries_of_a_turn_ask(rt: HostRuntime) {
    let mut script = script_of_turns(&rt, rt.alloc(), &[2]);
    let (first, second) = (lane(0, 5, 0), lane(1, 5, 0));
    goes_on_with(&rt, &mut script, 3, Act::Offer(packet(&rt, first, &[7, 8])));
    goes_on_with(&rt, &mut script, 3, Act::Close(second));
    goes_on_with(&rt, &mut script, 3, Act::Offer(packet(&rt, first, &[9])));
    let due = script.due(3);
    assert!(rt; due.len() == 3);
    offers(&rt, due.act(0), &[7, 8]);
    closes(&rt, due.act(1), second);
    offers(&rt, due.act(2), &[9]);
    are_equal(&rt, due.act(0).lane(), first);
}

/// A number of the configuration is out of its range.
fn is_bad(rt: &impl Abort, alloc: Global, config: &Config) {
    assert!(rt; matches!(Region::new(alloc, config), Err(NetFault::BadConfig)));
}

/// A number of those that a configuration is made of is out of its range.
fn are_bad(rt: &impl Abort, alloc: Global, radices: &[u8], depth: u8, channels: &[u8]) {
    is_bad(rt, alloc, &config(radices, depth, channels));
}

/// A configuration of two classes with one channel each is refused without their names.
fn unnamed_is_bad(rt: &impl Abort, alloc: Global) {
    let mut unnamed = config(&[2], 2, &[1, 1]);
    unnamed.classes.clear();
    is_bad(rt, alloc, &unnamed);
}

#[test]
fn numbers_out_of_their_range(rt: HostRuntime) {
    let alloc = rt.alloc();
    are_bad(&rt, alloc, &[1], 2, &[1]);
    are_bad(&rt, alloc, &[2], 0, &[1]);
    are_bad(&rt, alloc, &[2], 17, &[1]);
    are_bad(&rt, alloc, &[2], 2, &[]);
    are_bad(&rt, alloc, &[2], 2, &[9]);
    unnamed_is_bad(&rt, alloc);
    let widest = Ground::new(rt, &[16, 16], 16, &[2, 2, 2, 2]);
    widest.has_size(256, 960);
}

/// A region under test.
struct Ground<R: Abort + AllocGlobal + Copy> {
    rt: R,
    region: Region,
}

impl<R: Abort + AllocGlobal + Copy> Drop for Ground<R> {
    /// Written out, so that a test that ends calls it: a derived one stands in each test, part by part.
    fn drop(self) {
        let Ground { rt: _, region: _ } = self;
    }
}

impl<R: Abort + AllocGlobal + Copy> Ground<R> {
    /// A region with these radices, depth and classes of so many channels.
    fn new(rt: R, radices: &[u8], depth: u8, channels: &[u8]) -> Ground<R> {
        let made = Region::new(rt.alloc(), &config(radices, depth, channels));
        let region = made.expect(&rt, "a region");
        Ground { rt, region }
    }

    /// There are so many nodes and links.
    fn has_size(&self, nodes: u16, links: u16) {
        are_equal(&self.rt, self.region.nodes(), nodes);
        are_equal(&self.rt, self.region.mesh().links(), links);
    }

    /// The lists have so many nodes, this terminal port, and so many channels of a port.
    fn has_lists(&self, nodes: u16, terminal: u8, vcs: u8) {
        let fabric = self.region.fabric();
        are_equal(&self.rt, fabric.nodes(), nodes);
        are_equal(&self.rt, fabric.terminal(), terminal);
        are_equal(&self.rt, fabric.vcs(), vcs);
    }

    /// The way on from the node to the other: the port out of it, the next node and the port into that.
    fn way_on(&self, node: u8, dst: u8) -> Option<(u8, u8, u8)> {
        let fabric = self.region.fabric();
        assert!(self.rt; u16::from(node) < fabric.nodes());
        assert!(self.rt; u16::from(dst) < fabric.nodes());
        match fabric.next_link(node, dst) {
            Some(link) => Some((link.out_port, link.to, link.in_port)),
            None => None,
        }
    }

    /// Whether links leave the node by its first two ports.
    fn has_links(&self, node: u8, first: bool, second: bool) {
        let fabric = self.region.fabric();
        are_equal(&self.rt, fabric.has_link(node, 0), first);
        are_equal(&self.rt, fabric.has_link(node, 1), second);
    }

    /// This is the way on from the node to the other; none at its end.
    fn goes_on(&self, node: u8, dst: u8, way: Option<(u8, u8, u8)>) {
        are_equal(&self.rt, self.way_on(node, dst), way);
    }

    /// These are the first channel of the class, and the first past it.
    fn has_channels(&self, class: u8, first: u8, end: u8) {
        let fabric = self.region.fabric();
        assert!(self.rt; class < fabric.classes());
        let range = fabric.channels_of(class);
        are_equal(&self.rt, range.start, first);
        are_equal(&self.rt, range.end, end);
    }

    /// The lane's source is offered a packet of these words, and accepts it.
    fn offer(&mut self, lane: Lane, words: &[u32]) {
        let mut script = Script::empty(self.rt.alloc());
        let pushed = script.push(to_offer(&self.rt, 0, lane, words));
        pushed.expect(&self.rt, "an entry");
        let answer = self.region.ask_source(lane.src, &script.due(0));
        answer.expect(&self.rt, "an accepted packet");
    }

    /// The first two places from which the node may send once it is prepared.
    fn granted(&mut self, node: u8) -> (Option<(u8, u8)>, Option<(u8, u8)>) {
        assert!(self.rt; u16::from(node) < self.region.nodes());
        let mut granted = self.region.prepare(node);
        (granted.pop_first(), granted.pop_first())
    }

    /// Once the node is prepared it may send from this place alone; none where it may not send.
    fn may_send(&mut self, node: u8, place: Option<(u8, u8)>) {
        let granted = self.granted(node);
        are_equal(&self.rt, granted, (place, None));
    }
}

/// In a mesh of 3 by 2 nodes a route from node 0 to node 5 first goes two hops to the right, then one up.
#[test]
fn where_a_route_goes_on(rt: HostRuntime) {
    let ground = Ground::new(rt, &[3, 2], 2, &[1, 3]);
    ground.has_lists(6, 4, 4);
    ground.has_links(0, false, true);
    ground.goes_on(0, 5, Some((1, 1, 0)));
    ground.goes_on(2, 5, Some((3, 5, 2)));
    ground.goes_on(5, 5, None);
    ground.has_channels(1, 1, 4);
}

/// A packet that its source accepted is fed, routed and granted a channel by one call, and its head may be sent from
/// the injection buffer: of the terminal port, which is port 2 in a line.
#[test]
fn what_a_node_may_send(rt: HostRuntime) {
    let mut ground = Ground::new(rt, &[2], 2, &[1]);
    ground.offer(lane(0, 1, 0), &[7, 8]);
    ground.may_send(0, Some((2, 0)));
    ground.may_send(1, None);
}
