//! The links of a mesh of three by two nodes, and what goes over one.

ghost use Rattle.std.specs.Prelude.{◌<◌};

use crate::cases::{are_equal, mesh_of};
use std::alloc::Global;
use std::process::Abort;
use worm_cases::single;
use worm_flit::{Flit, SmallSet};
use worm_wires::{Inboxes, LinkState, Links, Wiring};

/// The wiring of the mesh with these radices.
fn wiring_of(rt: &impl Abort, radices: &[u8]) -> Wiring {
    Wiring::new(mesh_of(rt, radices))
}

/// The node beyond a port, the port that is entered there, and the numbers of the links out of the port and into it.
type Way = (u8, u8, u16, u16);

/// The way on by the port; none where there is no neighbour.
fn way_by(wiring: &Wiring, node: u8, port: u8) -> Option<Way> {
    match wiring.links_at(node, port) {
        Some(links) => Some((links.beyond, links.entered, links.out, links.into)),
        None => None,
    }
}

/// This is the way on by the port; none where there is no neighbour.
fn leads(rt: &impl Abort, wiring: &Wiring, node: u8, port: u8, way: Option<Way>) {
    are_equal(
        rt,
        (node, port, way_by(wiring, node, port)),
        (node, port, way),
    );
}

#[test]
fn links_are_numbered_by_node_and_port(rt: HostRuntime) {
    let wiring = wiring_of(&rt, &[3, 2]);
    are_equal(&rt, (wiring.nodes(), wiring.terminal()), (6, 4));
    // Out of nodes 0 to 5 go 2, 3, 2, 2, 3 and 2 links.
    leads(&rt, &wiring, 4, 1, Some((5, 0, 10, 12)));
    leads(&rt, &wiring, 2, 1, None);
    leads(&rt, &wiring, 5, 6, None);
    are_equal(&rt, wiring.link_out(1, 3), Some(4));
    are_equal(&rt, wiring.link_into(1, 3), Some(9 + 2));
}

/// A link with this room, onto which flits of these words came, and credits of these channels.
fn link_with(
    rt: &impl Abort,
    alloc: Global,
    room: u16,
    words: &[u32],
    credits: &[u8],
) -> LinkState {
    let mut link = LinkState::new(alloc, room).expect(rt, "memory");
    for word in words {
        assert!(rt; link.count() < link.room());
        link.push(single(0, *word));
    }
    for vc in credits {
        assert!(rt; link.credit_count() < link.room());
        link.push_credit(*vc);
    }
    link
}

/// So many flits are on the link, and this one at this place.
fn has_flit(rt: &impl Abort, link: &LinkState, count: usize, place: usize, flit: Flit) {
    are_equal(rt, link.count(), count);
    are_equal(rt, link.flits.get(place).copied(), Some(flit));
}

/// The front credit is of this channel, and is dropped; none where there is no credit.
fn gives_credit(rt: &impl Abort, link: &mut LinkState, vc: Option<u8>) {
    are_equal(rt, link.credits.pop_front(), vc);
}

#[test]
fn a_link_keeps_its_order(rt: HostRuntime) {
    let mut link = link_with(&rt, rt.alloc(), 3, &[5, 6, 7], &[0, 2]);
    are_equal(&rt, link.flits.pop_front(), Some(single(0, 5)));
    has_flit(&rt, &link, 2, 1, single(0, 7));
    are_equal(&rt, link.flits.front().copied(), Some(single(0, 6)));
    gives_credit(&rt, &mut link, Some(0));
    gives_credit(&rt, &mut link, Some(2));
    gives_credit(&rt, &mut link, None);
}

/// The first port of the set.
fn first(mut ports: SmallSet) -> Option<u8> {
    ports.pop_first()
}

/// The two links between two nodes: link 0 leads from port 1 of node 0 into port 0 of node 1, and link 1 back.
struct Pair<R: Abort + AllocGlobal + Copy> {
    rt: R,
    links: Links,
}

impl<R: Abort + AllocGlobal + Copy> Drop for Pair<R> {
    /// Written out, so that a test that ends calls it: a derived one stands in each test, part by part.
    fn drop(self) {
        let Pair { rt: _, links: _ } = self;
    }
}

impl<R: Abort + AllocGlobal + Copy> Pair<R> {
    /// Nothing on link 0, and flits of these words and credits of these channels on link 1; each has room for two.
    fn new(rt: R, words: &[u32], credits: &[u8]) -> Pair<R> {
        let alloc = rt.alloc();
        let there = link_with(&rt, alloc, 2, &[], &[]);
        let back = link_with(&rt, alloc, 2, words, credits);
        let states = Vec::from_array(alloc, [there, back]).expect(&rt, "memory");
        let mesh = mesh_of(&rt, &[2]);
        assert!(rt; states.len() == usize::from(mesh.links()));
        let inboxes = Inboxes::new(alloc).expect(&rt, "memory");
        let links = Links::new(mesh, states, inboxes);
        Pair { rt, links }
    }

    /// Whether nothing comes in at the node.
    fn brings_nothing(&self, node: u8, nothing: bool) {
        are_equal(
            &self.rt,
            (node, self.links.brings_nothing(node)),
            (node, nothing),
        );
    }

    /// The first port of the node at which a flit comes in; none where none does.
    fn brings_flit(&self, node: u8, port: Option<u8>) {
        are_equal(
            &self.rt,
            (node, first(self.links.flits_in(node))),
            (node, port),
        );
    }

    /// The first port of the node at which a credit comes back; none where none does.
    fn brings_credit(&self, node: u8, port: Option<u8>) {
        are_equal(
            &self.rt,
            (node, first(self.links.credits_in(node))),
            (node, port),
        );
    }

    /// These are the numbers of the links out of the port and into it.
    fn are_numbered(&self, node: u8, port: u8, out: u16, into: u16) {
        assert!(self.rt; self.links.wiring().links_at(node, port).is_some());
        let links = self.links.wiring().links_beyond(node, port);
        are_equal(&self.rt, links.out, out);
        are_equal(&self.rt, links.into, into);
    }

    /// The flit that comes in next by the port has this word; none where none comes in.
    fn comes_next(&self, node: u8, port: u8, word: Option<u32>) {
        assert!(self.rt; self.links.wiring().links_at(node, port).is_some());
        let flit = self.links.front_in(node, port).copied();
        are_equal(
            &self.rt,
            (node, flit),
            (node, word.map(|word| single(0, word))),
        );
    }

    /// The credit that comes back next by the port is of this channel; none where none comes back.
    fn comes_back(&self, node: u8, port: u8, vc: Option<u8>) {
        assert!(self.rt; self.links.wiring().links_at(node, port).is_some());
        are_equal(
            &self.rt,
            (node, self.links.front_credit(node, port)),
            (node, vc),
        );
    }

    /// On the link out of the port are so many flits, the last of this word.
    fn ends_with(&self, node: u8, port: u8, count: usize, word: u32) {
        assert!(self.rt; self.links.wiring().links_at(node, port).is_some());
        are_equal(&self.rt, self.links.count(node, port), count);
        assert!(self.rt; 0 < self.links.count(node, port));
        let last = self.links.count(node, port) - 1;
        are_equal(&self.rt, self.links.flit(node, port, last), single(0, word));
    }

    /// The flit goes onto the link out of the port. The links are taken apart for it and made again, since only a link
    /// by itself tells its room.
    fn send(self, node: u8, port: u8, flit: Flit) -> Pair<R> {
        let Pair { rt, links } = self;
        assert!(rt; links.wiring().links_at(node, port).is_some());
        let number = usize::from(links.wiring().links_beyond(node, port).out);
        let mesh = *links.wiring().mesh();
        let (states, inboxes) = links.into_states();
        assert!(rt; states.len() == usize::from(mesh.links()));
        assert!(rt; states[number].count() < states[number].room());
        let mut links = Links::new(mesh, states, inboxes);
        links.push(node, port, flit);
        Pair { rt, links }
    }

    /// The flit comes onto the link into the port, on which there is none.
    fn bring(self, node: u8, port: u8, flit: Flit) -> Pair<R> {
        let Pair { rt, links } = self;
        assert!(rt; links.wiring().links_at(node, port).is_some());
        let number = usize::from(links.wiring().links_beyond(node, port).into);
        let mesh = *links.wiring().mesh();
        let (states, inboxes) = links.into_states();
        assert!(rt; states.len() == usize::from(mesh.links()));
        assert!(rt; states[number].count() == 0);
        assert!(rt; 0 < states[number].room());
        let mut links = Links::new(mesh, states, inboxes);
        links.bring_flit(node, port, flit);
        Pair { rt, links }
    }

    /// A credit of the channel comes onto its way back over the link out of the port, over which none does.
    fn give_back(self, node: u8, port: u8, vc: u8) -> Pair<R> {
        let Pair { rt, links } = self;
        assert!(rt; links.wiring().links_at(node, port).is_some());
        let number = usize::from(links.wiring().links_beyond(node, port).out);
        let mesh = *links.wiring().mesh();
        let (states, inboxes) = links.into_states();
        assert!(rt; states.len() == usize::from(mesh.links()));
        assert!(rt; states[number].credit_count() == 0);
        assert!(rt; 0 < states[number].room());
        let mut links = Links::new(mesh, states, inboxes);
        links.bring_credit(node, port, vc);
        Pair { rt, links }
    }

    /// The front flit of the link into the port is dropped; the link has this number.
    fn take(&mut self, node: u8, port: u8, number: u16) {
        assert!(self.rt; self.links.wiring().links_at(node, port).is_some());
        let links = self.links.wiring().links_beyond(node, port);
        are_equal(&self.rt, links.into, number);
        self.links.pop(node, port);
    }

    /// There are so many links.
    fn has_links(self, count: usize) {
        let Pair { rt, links } = self;
        let (states, _inboxes) = links.into_states();
        are_equal(&rt, states.len(), count);
    }
}

#[test]
fn what_is_sent_comes_in(rt: HostRuntime) {
    let pair = Pair::new(rt, &[], &[]);
    pair.brings_nothing(1, true);
    pair.brings_flit(1, None);
    pair.brings_credit(0, None);
    pair.are_numbered(0, 1, 0, 1);
    pair.has_links(2);
}

/// Link 1 leads from node 1 to node 0; its credits go back to node 1.
#[test]
fn a_link_with_a_flit_is_seen(rt: HostRuntime) {
    let pair = Pair::new(rt, &[5], &[0]);
    pair.brings_nothing(0, false);
    pair.brings_flit(0, Some(1));
    pair.brings_credit(0, None);
    pair.brings_credit(1, Some(0));
    pair.brings_flit(1, None);
}

/// Link 1 again, the one out of node 1 by port 0 and into node 0 by port 1.
#[test]
fn what_is_on_a_link_is_read_at_its_ends(rt: HostRuntime) {
    let pair = Pair::new(rt, &[5, 6], &[2, 0]);
    pair.comes_next(0, 1, Some(5));
    pair.comes_next(1, 0, None);
    pair.comes_back(1, 0, Some(2));
    pair.comes_back(0, 1, None);
    pair.ends_with(1, 0, 2, 6);
}

#[test]
fn what_goes_onto_a_link_comes_in_once(rt: HostRuntime) {
    let mut pair = Pair::new(rt, &[], &[]).send(0, 1, single(0, 5));
    pair.brings_flit(1, Some(0));
    pair.brings_nothing(1, false);
    pair.take(1, 0, 0);
    pair.brings_flit(1, None);
    pair.brings_nothing(1, true);
}

/// Link 0 leads into port 0 of node 1, and link 1 out of it.
#[test]
fn what_is_brought_is_read_at_both_ends(rt: HostRuntime) {
    let pair = Pair::new(rt, &[], &[])
        .bring(1, 0, single(0, 5))
        .give_back(1, 0, 2);
    pair.comes_next(1, 0, Some(5));
    pair.comes_back(1, 0, Some(2));
    pair.ends_with(0, 1, 1, 5);
    pair.brings_nothing(0, true);
}
