//! The links of a mesh with what is on them. `_terminal` tells the proof that a mesh has at most three dimensions.

ghost use Rattle.std.specs.Prelude.{◌≡◌, ◌<◌, ◌++◌, ◌∷◌, [], ℕ, IsSome, IsTrue};
ghost use Rattle.std.specs.Prelude.{Some, true, drop, is_some, length, option_copied, slice_get};
ghost use Rattle.worm_mesh.specs.Address.{AreRadices, neighbour_of};
ghost use Rattle.worm_mesh.specs.Links.{link_count};
ghost use Rattle.worm_wires.specs.Arrivals.{AreFronts, LinksView, credits_of, credits_to, flits_of};
ghost use Rattle.worm_wires.specs.Arrivals.{flits_to, number_into, number_out, state_at, with_state};
ghost use Rattle.worm_wires.specs.Inbox.{ArePortsSpilled, AreFiled, AreSeenAlike, AreSpilled, IsInbox, inbox_at};
ghost use Rattle.worm_wires.specs.Inbox.{inbox_by, inboxes_by};

use crate::LinkState;
use crate::inbox::{Arrivals, Inboxes, NodeFronts};
use crate::wiring::Wiring;
use std::marker::Model;
use worm_flit::{Flit, SmallSet};
use worm_mesh::Mesh;

/// A mesh, and its links by number with what is on them. What comes in next stands in the inbox of the node that
/// takes it. A link on which more than one flit is has them all in a list, and so with credits.
#[derive(Drop)]
pub struct Links {
    wiring: Wiring,
    lists: Vec<LinkState>,
    /// The ports at which something comes in, by node number: by value, two bytes a node.
    arrivals: [Arrivals; 256],
    fronts: Vec<NodeFronts>,
}

impl Model for Links {
    ghost use Rattle.worm_wires.specs.Arrivals.{LinksView};
    ghost use Rattle.worm_wires.specs.Inbox.{AreFiled, inboxes_by, links_by};

    ghost Value = { LinksView };

    ghost view = { λ l. record {
      mesh = l.wiring;
      states = links_by l.wiring l.lists.items (inboxes_by l.arrivals l.fronts.items);
    } };

    ghost invariant = { λ l. AreFiled l.wiring l.lists.items l.arrivals l.fronts.items };
}

fn front_flit(lists: &[LinkState], number: Option<u16>) -> Option<Flit>
    ensures { result ≡ slice_get (flits_of lists.now number) 0 }
{
    let link = lists.get(usize::from(number?))?;
    link.flits.front().copied()
}

fn front_credit(lists: &[LinkState], number: Option<u16>) -> Option<u8>
    ensures { result ≡ slice_get (credits_of lists.now number) 0 }
{
    let link = lists.get(usize::from(number?))?;
    link.credits.front().copied()
}

fn inbox_of(wiring: &Wiring, lists: &[LinkState], node: u8) -> (Arrivals, NodeFronts)
    ensures inbox { IsInbox wiring.now lists.now node (inbox_by result.0 result.1) }
    ensures spilled { AreSpilled (inbox_by result.0 result.1) 8 }
{
    let _terminal = wiring.terminal();
    let mut arrivals = Arrivals::new();
    let mut fronts = NodeFronts::new();
    for port in 0..6u8 {
        let flit = front_flit(lists, wiring.link_into(node, port));
        fronts.flits.file(&mut arrivals.flits, port, flit);
        let credit = front_credit(lists, wiring.link_out(node, port));
        fronts.credits.file(&mut arrivals.credits, port, credit);
    }
    (arrivals, fronts)
}

fn spill_port(
    wiring: &Wiring,
    arrivals: &[Arrivals; 256],
    lists: &mut Vec<LinkState>,
    fronts: &mut Vec<NodeFronts>,
    node: u8,
    port: u8,
)
    requires port { port < 6 }
    requires filed { AreFiled wiring.now lists.old.items arrivals.now fronts.old.items }
    ensures kept { AreSeenAlike wiring.now arrivals.now lists.old.items fronts.old.items lists.new.items
        fronts.new.items }
    ensures spilled { ArePortsSpilled (inboxes_by arrivals.now fronts.old.items)
        (inboxes_by arrivals.now fronts.new.items) node port }
{
    if let Some(links) = wiring.links_at(node, port) {
        let at = usize::from(node);
        let come = &arrivals[at];
        let into = &mut lists[usize::from(links.into)];
        fronts[at].flits.spill(&come.flits, port, &mut into.flits);
        let out = &mut lists[usize::from(links.out)];
        fronts[at]
            .credits
            .spill(&come.credits, port, &mut out.credits);
    }
}

fn spill_node(
    wiring: &Wiring,
    arrivals: &[Arrivals; 256],
    lists: &mut Vec<LinkState>,
    fronts: &mut Vec<NodeFronts>,
    node: u8,
)
    requires { AreFiled wiring.now lists.old.items arrivals.now fronts.old.items }
    ensures kept { AreSeenAlike wiring.now arrivals.now lists.old.items fronts.old.items lists.new.items
        fronts.new.items }
    ensures spilled { AreSpilled (inbox_at (inboxes_by arrivals.now fronts.new.items) node) 6 }
    ensures others { (y : ℕ) → (y ≡ node → ⊥) → inbox_at (inboxes_by arrivals.now fronts.new.items) y
        ≡ inbox_at (inboxes_by arrivals.now fronts.old.items) y }
{
    for port in 0..6u8 {
        spill_port(wiring, arrivals, lists, fronts, node, port);
    }
}

impl Links {
    /// The links of the mesh, in these states by number, with inboxes in this memory.
    pub fn new(mesh: Mesh, states: Vec<LinkState>, inboxes: Inboxes) -> Links
        requires mesh { AreRadices mesh }
        requires states { length states.items ≡ link_count mesh }
        ensures { result ≡ record { mesh = mesh; states = states.items } }
    {
        let Inboxes { list: mut fronts } = inboxes;
        let wiring = Wiring::new(mesh);
        let mut arrivals = [Arrivals::new(); 256];
        for node in 0..256u16 {
            let at = usize::from(node);
            let inbox = inbox_of(&wiring, states.as_slice(), node as u8);
            arrivals[at] = inbox.0;
            fronts[at] = inbox.1;
        }
        Links {
            wiring,
            lists: states,
            arrivals,
            fronts,
        }
    }

    /// The mesh, with the numbers of its links.
    pub fn wiring(&self) -> &Wiring
        ensures value { result.now ≡ self.now.mesh }
        ensures mesh { AreRadices self.now.mesh }
    {
        &self.wiring
    }

    /// The links by number, and the memory of the inboxes.
    pub fn into_states(self) -> (Vec<LinkState>, Inboxes)
        ensures { result.0.items ≡ self.states }
    {
        let Links {
            wiring,
            mut lists,
            arrivals,
            mut fronts,
        } = self;
        for node in 0..256u16 {
            spill_node(&wiring, &arrivals, &mut lists, &mut fronts, node as u8);
        }
        let inboxes = Inboxes { list: fronts };
        (lists, inboxes)
    }

    /// Whether nothing comes in at the node.
    pub fn brings_nothing(&self, node: u8) -> bool
        ensures flits { IsTrue result → (p : ℕ) → flits_to self.now node p ≡ [] }
        ensures credits { IsTrue result → (o : ℕ) → credits_to self.now node o ≡ [] }
        ensures nothing { ((p : ℕ) → flits_to self.now node p ≡ []) → ((o : ℕ) → credits_to self.now node o ≡ [])
            → result ≡ true }
    {
        let _terminal = self.wiring.terminal();
        let here = &self.arrivals[usize::from(node)];
        here.flits.is_empty() && here.credits.is_empty()
    }

    /// The mesh ports of the node by which a flit comes in.
    pub fn flits_in(&self, node: u8) -> SmallSet
        ensures { AreFronts (flits_to self.now node) result }
    {
        self.arrivals[usize::from(node)].flits
    }

    /// The mesh ports of the node by which a credit comes back.
    pub fn credits_in(&self, node: u8) -> SmallSet
        ensures { AreFronts (credits_to self.now node) result }
    {
        self.arrivals[usize::from(node)].credits
    }

    /// The next flit that comes in by this port, by reference: what takes it asks first whether there is room for it.
    pub fn front_in(&self, node: u8, port: u8) -> Option<&Flit>
        requires { IsSome (neighbour_of self.now.mesh node port) }
        ensures value { option_copied result
            ≡ slice_get (state_at self.now (number_into self.now node port)).flits 0 }
        ensures variant { is_some result
            ≡ is_some (slice_get (state_at self.now (number_into self.now node port)).flits 0) }
    {
        let at = usize::from(node);
        let here = &self.arrivals[at];
        self.fronts[at].flits.front_at(&here.flits, port)
    }

    /// The channel of the credit that comes back next over the link out of this port, if there is one.
    pub fn front_credit(&self, node: u8, port: u8) -> Option<u8>
        requires { IsSome (neighbour_of self.now.mesh node port) }
        ensures { result ≡ slice_get (state_at self.now (number_out self.now node port)).credits 0 }
    {
        let at = usize::from(node);
        let here = &self.arrivals[at];
        self.fronts[at]
            .credits
            .front_at(&here.credits, port)
            .copied()
    }

    /// How many flits are on the link out of this port.
    pub fn count(&self, node: u8, port: u8) -> usize
        requires { IsSome (neighbour_of self.now.mesh node port) }
        ensures { result ≡ length (state_at self.now (number_out self.now node port)).flits }
    {
        let links = self.wiring.links_beyond(node, port);
        let at = usize::from(links.beyond);
        if self.fronts[at].flits.more.contains(links.entered) {
            return self.lists[usize::from(links.out)].count();
        }
        usize::from(self.arrivals[at].flits.contains(links.entered))
    }

    /// The flit at place `i` of the link out of this port, counted from the front.
    pub fn flit(&self, node: u8, port: u8, i: usize) -> Flit
        requires linked { IsSome (neighbour_of self.now.mesh node port) }
        requires place { i < length (state_at self.now (number_out self.now node port)).flits }
        ensures { slice_get (state_at self.now (number_out self.now node port)).flits i ≡ Some result }
    {
        let links = self.wiring.links_beyond(node, port);
        let there = &self.fronts[usize::from(links.beyond)];
        if there.flits.more.contains(links.entered) {
            let link = &self.lists[usize::from(links.out)];
            return link.flits[i];
        }
        there.flits.front[usize::from(links.entered)]
    }

    /// Drops the front flit of the link into this port.
    pub fn pop(&mut self, node: u8, port: u8)
        requires { IsSome (neighbour_of self.old.mesh node port) }
        ensures { self.new ≡ with_state self.old (number_into self.old node port)
            (record (state_at self.old (number_into self.old node port))
            { flits = drop 1 (state_at self.old (number_into self.old node port)).flits }) }
    {
        let at = usize::from(node);
        if !self.fronts[at].flits.more.contains(port) {
            self.arrivals[at].flits.put(port, false);
            return;
        }
        self.pop_listed(node, port);
    }

    /// A link seldom has a list, so this is no part of the loops that call it.
    #[inline(never)]
    fn pop_listed(&mut self, node: u8, port: u8)
        requires { IsSome (neighbour_of self.old.mesh node port) }
        ensures { self.new ≡ with_state self.old (number_into self.old node port)
            (record (state_at self.old (number_into self.old node port))
            { flits = drop 1 (state_at self.old (number_into self.old node port)).flits }) }
    {
        let number = self.wiring.links_beyond(node, port).into;
        let at = usize::from(node);
        let here = &mut self.arrivals[at].flits;
        let fronts = &mut self.fronts[at].flits;
        let link = &mut self.lists[usize::from(number)];
        fronts.pop_listed(here, port, &mut link.flits);
    }

    /// Puts the flit at the end of the link out of this port.
    #[inline(always)]
    pub fn push(&mut self, node: u8, port: u8, flit: Flit)
        requires linked { IsSome (neighbour_of self.old.mesh node port) }
        requires room { length (state_at self.old (number_out self.old node port)).flits
            < (state_at self.old (number_out self.old node port)).room }
        ensures { self.new ≡ with_state self.old (number_out self.old node port)
            (record (state_at self.old (number_out self.old node port))
            { flits = (state_at self.old (number_out self.old node port)).flits ++ flit ∷ [] }) }
    {
        let beyond = self.wiring.beyond(node, port);
        let entered = self.wiring.entered(node, port);
        let at = usize::from(beyond);
        let there = &mut self.arrivals[at].flits;
        let fronts = &mut self.fronts[at].flits;
        if !there.contains(entered) {
            fronts.put(there, entered, flit);
            return;
        }
        let number = self.wiring.links_beyond(node, port).out;
        let link = &mut self.lists[usize::from(number)];
        fronts.push_listed(there, entered, &mut link.flits, flit);
    }

    /// Puts a flit from another worker's node at the end of the link into this port, on which there is none.
    pub fn bring_flit(&mut self, node: u8, port: u8, flit: Flit)
        requires linked { IsSome (neighbour_of self.old.mesh node port) }
        requires empty { (state_at self.old (number_into self.old node port)).flits ≡ [] }
        requires room { length (state_at self.old (number_into self.old node port)).flits
            < (state_at self.old (number_into self.old node port)).room }
        ensures { self.new ≡ with_state self.old (number_into self.old node port)
            (record (state_at self.old (number_into self.old node port))
            { flits = (state_at self.old (number_into self.old node port)).flits ++ flit ∷ [] }) }
    {
        let at = usize::from(node);
        let here = &mut self.arrivals[at].flits;
        self.fronts[at].flits.put(here, port, flit);
    }

    /// Drops the front credit of the link out of this port.
    pub fn pop_credit(&mut self, node: u8, port: u8)
        requires { IsSome (neighbour_of self.old.mesh node port) }
        ensures { self.new ≡ with_state self.old (number_out self.old node port)
            (record (state_at self.old (number_out self.old node port))
            { credits = drop 1 (state_at self.old (number_out self.old node port)).credits }) }
    {
        let at = usize::from(node);
        if !self.fronts[at].credits.more.contains(port) {
            self.arrivals[at].credits.put(port, false);
            return;
        }
        self.pop_listed_credit(node, port);
    }

    #[inline(never)]
    fn pop_listed_credit(&mut self, node: u8, port: u8)
        requires { IsSome (neighbour_of self.old.mesh node port) }
        ensures { self.new ≡ with_state self.old (number_out self.old node port)
            (record (state_at self.old (number_out self.old node port))
            { credits = drop 1 (state_at self.old (number_out self.old node port)).credits }) }
    {
        let number = self.wiring.links_beyond(node, port).out;
        let at = usize::from(node);
        let here = &mut self.arrivals[at].credits;
        let fronts = &mut self.fronts[at].credits;
        let link = &mut self.lists[usize::from(number)];
        fronts.pop_listed(here, port, &mut link.credits);
    }

    /// Puts a credit of the channel at the end of the credits of the link into this port.
    pub fn push_credit(&mut self, node: u8, port: u8, vc: u8)
        requires linked { IsSome (neighbour_of self.old.mesh node port) }
        requires room { length (state_at self.old (number_into self.old node port)).credits
            < (state_at self.old (number_into self.old node port)).room }
        ensures { self.new ≡ with_state self.old (number_into self.old node port)
            (record (state_at self.old (number_into self.old node port))
            { credits = (state_at self.old (number_into self.old node port)).credits ++ vc ∷ [] }) }
    {
        let beyond = self.wiring.beyond(node, port);
        let entered = self.wiring.entered(node, port);
        let at = usize::from(beyond);
        let there = &mut self.arrivals[at].credits;
        let fronts = &mut self.fronts[at].credits;
        if !there.contains(entered) {
            fronts.put(there, entered, vc);
            return;
        }
        let number = self.wiring.links_beyond(node, port).into;
        let link = &mut self.lists[usize::from(number)];
        fronts.push_listed(there, entered, &mut link.credits, vc);
    }

    /// Puts a credit of the channel at the end of the credits of the link out of this port, of which there is none.
    pub fn bring_credit(&mut self, node: u8, port: u8, vc: u8)
        requires linked { IsSome (neighbour_of self.old.mesh node port) }
        requires empty { (state_at self.old (number_out self.old node port)).credits ≡ [] }
        requires room { length (state_at self.old (number_out self.old node port)).credits
            < (state_at self.old (number_out self.old node port)).room }
        ensures { self.new ≡ with_state self.old (number_out self.old node port)
            (record (state_at self.old (number_out self.old node port))
            { credits = (state_at self.old (number_out self.old node port)).credits ++ vc ∷ [] }) }
    {
        let at = usize::from(node);
        let here = &mut self.arrivals[at].credits;
        self.fronts[at].credits.put(here, port, vc);
    }
}
