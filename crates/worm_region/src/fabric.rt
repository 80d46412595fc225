//! The lists of a network, nodes and links by number, and what reads and changes them at one place.

ghost use Rattle.std.specs.Prelude.{IfOk, ◌≡◌, ◌*◌, ◌<◌, ◌≤◌, ◌↔◌, IsTrue, IsSome, ◌⊎◌, if◌then◌else◌, length, sum};
ghost use Rattle.worm_flit.specs.Channels.{AreChannels};
ghost use Rattle.worm_region.specs.NewNet.{IsFresh};
ghost use Rattle.worm_mesh.specs.Address.{AreRadices, node_count, neighbour_of};
ghost use Rattle.worm_router.specs.Router.{after_route, can_route, input_at, leaving, terminal};
ghost use Rattle.worm_region.specs.State.{IsNetPlace, link_at, node_at, router_at, sink_at, source_at, texts_of};
ghost use Rattle.worm_region.specs.State.{with_router, with_source};
ghost use Rattle.worm_node.specs.Node.{FrontFits, can_enter};
ghost use Rattle.worm_region.specs.Moves.{CreditFits, LeavesByLink, Sends, after_getting, after_giving, after_take};
ghost use Rattle.worm_region.specs.Moves.{can_get, front_credit, front_into, link_into};
ghost use Rattle.worm_region.specs.UnderWay.{IsUnderWay, accepted_in, taken_in};
ghost use Rattle.std.specs.Borrow.{Lends, sem};
ghost use Rattle.worm_region.specs.contracts.fabric.Fabric.{the_row};
ghost use Rattle.worm_router.specs.contracts.router.Router.{the_row as router_row};
ghost use Rattle.worm_term.specs.contracts.source.Source.{the_row as source_row};

pub(crate) mod configuration;
mod readers;
mod rest;

use crate::nodes::Nodes;
use crate::{Moved, Name, Node, Owner, StepFault};
use arrayvec::ArrayVec;
use std::alloc::{AllocError, Global};
use std::marker::Model;
use worm_flit::{ClassChannels, Flit};
use worm_mesh::Mesh;
use worm_node::make_nodes;
use worm_router::Router;
use worm_term::Source;
use worm_wires::{Inboxes, Links, fresh_links};

/// The nodes by number and the links by number, whatever they hold (Dally and Towles, chapters 5, 13 and 16).
#[derive(Drop)]
pub struct Fabric {
    /// The links, with the mesh that they make.
    pub(crate) links: Links,
    /// Which class owns which channels.
    pub(crate) classes: ClassChannels,
    /// How many flits a channel's buffer holds, 1 to 16.
    pub(crate) depth: u8,
    /// The names of the classes.
    pub(crate) names: ArrayVec<Name, 4>,
    /// The nodes, by number.
    pub(crate) nodes: Nodes,
    /// Which of the nodes are owned by whoever has the fabric. No move reads it; a part walks its nodes by it.
    pub(crate) own: Owner,
}

impl Model for Fabric {
    ghost use Rattle.worm_region.specs.State.{NetState, net_state, texts_of};

    ghost Value = { NetState };

    ghost view = { λ n.
        net_state n.links.mesh n.classes n.depth (texts_of n.names.items) n.nodes n.links.states n.own };
}

impl Fabric {
    pub(crate) fn new(
        alloc: Global,
        mesh: Mesh,
        channels: &[u8],
        depth: u8,
        names: ArrayVec<Name, 4>,
    ) -> Result<Fabric, AllocError>
        requires mesh { AreRadices mesh }
        requires channels { AreChannels channels.now }
        requires depth { (1 ≤ depth) × (depth ≤ 16) }
        ensures { IfOk result (λ f. IsFresh mesh channels.now depth (texts_of names.items) f) }
    {
        let classes = ClassChannels::new(channels);
        let nodes = make_nodes(alloc, &mesh, channels, depth)?;
        let room = u16::from(classes.total()) * u16::from(depth);
        let links = fresh_links(alloc, mesh.links(), room)?;
        let inboxes = Inboxes::new(alloc)?;
        let nodes = Nodes::new(nodes);
        Ok(Fabric {
            links: Links::new(mesh, links, inboxes),
            classes,
            depth,
            names,
            nodes,
            own: Owner::sole(),
        })
    }

    pub(crate) fn has_node(&self, node: u8) -> bool
        ensures { IsTrue result ↔ (node < node_count self.now.mesh) }
    {
        u16::from(node) < self.links.wiring().nodes()
    }

    pub(crate) fn has_place(&self, node: u8, port: u8, vc: u8) -> bool
        ensures { IsTrue result ↔ ((node < node_count self.now.mesh) ×
            ((port ≡ 2 * length self.now.mesh) ⊎ IsSome (neighbour_of self.now.mesh node port)) ×
            (vc < sum self.now.channels)) }
    {
        self.has_node(node)
            && (port == self.terminal() || self.has_link(node, port))
            && vc < self.classes.total()
    }

    /// The terminal port of each node.
    pub fn terminal(&self) -> u8
        ensures value { result ≡ 2 * length self.now.mesh }
        ensures bound { result ≤ 6 }
    {
        self.links.wiring().terminal()
    }

    pub(crate) fn take_flit(&mut self, node: u8, port: u8) -> bool
        requires node { node < length self.old.nodes }
        requires linked { IsSome (neighbour_of self.old.mesh node port) }
        requires front { FrontFits (router_at self.old node) port (front_into self.old node port) }
        ensures enabled { result ≡ can_enter (router_at self.old node) port (front_into self.old node port) }
        ensures after { self.new ≡ (if result then after_take self.old node port (link_into self.old node port)
            (front_into self.old node port) else self.old) }
    {
        let Some(flit) = self.links.front_in(node, port) else {
            return false;
        };
        if self.nodes.router_mut(node).accept(port, *flit).is_err() {
            return false;
        }
        self.links.pop(node, port);
        true
    }

    /// The packet at the front of an input channel's buffer finds its output port (Dally and Towles, chapter 8).
    pub(crate) fn route(&mut self, node: u8, port: u8, vc: u8) -> bool
        requires { IsNetPlace self.old node port vc }
        ensures enabled { result ≡ can_route (router_at self.old node) port vc }
        ensures after { self.new ≡ (if result then with_router self.old node
            (after_route (router_at self.old node) port vc) else self.old) }
    {
        self.nodes.router_mut(node).route(port, vc)
    }

    /// Lets the ready flit out, onto its link or into the sink. `Idle` where none is ready, or one for the terminal is
    /// not at home; `NoMemory` where there is none for a delivered flit.
    #[inline(always)]
    pub(crate) fn send(&mut self, node: u8, port: u8, vc: u8) -> Result<Moved, StepFault>
        requires place { IsNetPlace self.old node port vc }
        requires terminal { terminal (router_at self.old node) ≡ 2 * length self.old.mesh }
        requires way { LeavesByLink self.old node (leaving (router_at self.old node) port vc) }
        requires sink { (sink_at self.old node).node ≡ node }
        ensures { Sends self.old node port vc (leaving (router_at self.old node) port vc) result self.new }
    {
        let router = self.nodes.router_mut(node);
        // The router's own number: so the compiler knows that a flit for a link costs a credit.
        let terminal = router.terminal();
        let Some((out, flit)) = router.ready(port, vc) else {
            return Ok(Moved::Idle);
        };
        if out == terminal {
            if flit.lane.dst != node {
                return Ok(Moved::Idle);
            }
            if !self.nodes.deliver(node, port, vc, flit) {
                return Err(StepFault::NoMemory);
            }
            return Ok(Moved::Done);
        }
        router.sent(port, vc);
        self.links.push(node, out, flit);
        Ok(Moved::Done)
    }

    #[inline(always)]
    pub(crate) fn give_credit(&mut self, node: u8, port: u8, vc: u8)
        requires place { IsNetPlace self.old node port vc }
        requires linked { IsSome (neighbour_of self.old.mesh node port) }
        requires owed { 0 < (input_at (router_at self.old node) port vc).owed }
        requires room { length (link_at self.old (link_into self.old node port)).credits <
            (link_at self.old (link_into self.old node port)).room }
        ensures { self.new ≡ after_giving self.old node port vc (link_into self.old node port) }
    {
        self.router_mut(node).gave(port, vc);
        self.links.push_credit(node, port, vc);
    }

    pub(crate) fn take_credit(&mut self, node: u8, port: u8) -> bool
        requires node { node < length self.old.nodes }
        requires linked { IsSome (neighbour_of self.old.mesh node port) }
        requires front { CreditFits (router_at self.old node) port (front_credit self.old node port) }
        ensures enabled { result ≡ can_get (router_at self.old node) port (front_credit self.old node port) }
        ensures after { self.new ≡ (if result then after_getting self.old node port
            (front_credit self.old node port) else self.old) }
    {
        let Some(vc) = self.links.front_credit(node, port) else {
            return false;
        };
        if self.router_mut(node).credit(port, vc).is_err() {
            return false;
        }
        self.links.pop_credit(node, port);
        true
    }

    /// The number of nodes.
    pub fn nodes(&self) -> u16
        ensures value { result ≡ node_count self.now.mesh }
        ensures bound { result ≤ 256 }
    {
        self.links.wiring().nodes()
    }

    /// The number of classes.
    pub fn classes(&self) -> u8
        ensures value { result ≡ length self.now.channels }
        ensures bound { result ≤ 4 }
    {
        self.classes.classes()
    }

    /// The number of channels of a port.
    pub fn vcs(&self) -> u8
        ensures { result ≡ sum self.now.channels }
    {
        self.classes.total()
    }

    pub(crate) fn router_mut(&mut self, node: u8) -> &mut Router
        requires { node < length self.old.nodes }
        ensures* lends { sem 𝓛 (Lends the_row router_row self.entry result (with_router self.old node)) }
        ensures value { result.now ≡ router_at self.old node }
    {
        self.nodes.router_mut(node)
    }

    pub(crate) fn source_mut(&mut self, node: u8) -> &mut Source
        requires { node < length self.old.nodes }
        ensures* lends { sem 𝓛 (Lends the_row source_row self.entry result (with_source self.old node)) }
        ensures value { result.now ≡ source_at self.old node }
    {
        self.nodes.source_mut(node)
    }

    pub(crate) fn wires(&self) -> &Links
        ensures { result.now ≡ record { mesh = self.now.mesh; states = self.now.links } }
    {
        &self.links
    }

    /// The node of this number.
    pub fn node(&self, node: u8) -> &Node
        requires { node < length self.now.nodes }
        ensures { result.now ≡ node_at self.now node }
    {
        self.nodes.node(node)
    }

    /// How many flits are under way, where it is known.
    pub fn under_way(&self) -> Option<u64>
        ensures { IsUnderWay (accepted_in self.now.nodes) (taken_in self.now.nodes) result }
    {
        self.nodes.under_way()
    }
}
