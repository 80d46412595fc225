//! The moves of a network's lists: small steps, each of which keeps what the moves need.

ghost use Rattle.std.specs.Prelude.{None, Some, ◌≡◌, ◌≤◌, ◌<◌, ◌*◌, IsTrue, Ok, IsSome, length, IfSome, IfOk, Err, ◌↔◌};
ghost use Rattle.worm_theory.specs.Steps.{IsThere, Step as Event};
ghost use Rattle.worm_region.specs.Runs.{event_of};
ghost use Rattle.worm_region.specs.Replies.{Attempts, Replies};
ghost use Rattle.worm_region.specs.Answers.{AsksSource, accepted_of, moved_of};
ghost use Rattle.worm_region.specs.declared.step.Moved.TheVariants.{Done, Idle};
ghost use Rattle.worm_region.specs.NewNet.{IsConfig, IsFresh};
ghost use Rattle.worm_region.specs.State.{IsNet, shape, router_at, texts_of, with_router};
ghost use Rattle.worm_region.specs.Owned.{sole};
ghost use Rattle.worm_wires.specs.Wiring.{port_links};
ghost use Rattle.worm_region.specs.Workable.{EndsWithin, IsWorkable, owned};
ghost use Rattle.worm_region.specs.Turns.{AreThere, Chooses, ComesInBy, NodePassesBy, ReachesAt};
ghost use Rattle.worm_mesh.specs.Address.{node_count, neighbour_of};
ghost use Rattle.worm_router.specs.Router.{input_at, leaving};
ghost use Rattle.worm_router.specs.Busy.{IsSetOf, OweByLinks, lacks_route, owes};
ghost use Rattle.worm_router.specs.Rest.{IsAtRest};
ghost use Rattle.worm_router.specs.Allocation.{after_allocate};
ghost use Rattle.worm_region.specs.Moves.{AreLinked, Covers, NoCredit, NoFeed, NoFlit};

mod edges;
mod parts;

use crate::config::copy_names;
use crate::fabric::Fabric;
use crate::{Config, Moved, NetFault, Script, Step, StepFault};
use std::alloc::Global;
use std::marker::Model;
use worm_flit::{Lane, Packet, SmallSet, are_channels};
use worm_mesh::Mesh;
use worm_term::OfferFault;
use worm_vcalloc::ChannelSet;
use worm_wires::PortLinks;

/// The nodes and links of a network, or of one worker's part, with the invariant that every step needs and keeps.
/// Fresh ones stand in the places of nodes that are not owned; a link from one holds what is off its queue and in no
/// buffer.
#[derive(Drop)]
pub struct Region {
    fabric: Fabric,
}

impl Model for Region {
    ghost use Rattle.worm_region.specs.State.{NetState};
    ghost use Rattle.worm_region.specs.Workable.{IsWorkable};

    ghost Value = { NetState };

    ghost view = { λ r. r.fabric };

    ghost invariant = { λ r. IsWorkable r.fabric };
}

fn moved(done: bool) -> Moved
    ensures { result ≡ moved_of done }
{
    if done { Moved::Done } else { Moved::Idle }
}

fn accepted(answer: Result<u16, OfferFault>) -> Result<Moved, StepFault>
    ensures value { result ≡ accepted_of answer }
    ensures never_idle { result ≡ Ok Idle → ⊥ }
{
    match answer {
        Ok(_number) => Ok(Moved::Done),
        Err(OfferFault::NoMemory) => Err(StepFault::NoMemory),
        Err(fault) => Err(StepFault::Refused(fault)),
    }
}

impl Region {
    /// The region of a new network, all of whose nodes are owned. [`NetFault`] tells when there is none.
    pub fn new(alloc: Global, config: &Config) -> Result<Region, NetFault>
        ensures fresh { IfOk result (λ r. IsFresh config.now.radices.items config.now.channels.items config.now.depth
            (texts_of config.now.classes.items) r) }
        ensures whole { IfOk result (λ r. IsNet r) }
        ensures bad { (result ≡ Err NetFault.BadConfig) ↔
            (IsConfig config.now.radices.items config.now.channels.items config.now.depth
            (length config.now.classes.items) → ⊥) }
    {
        let Ok(mesh) = Mesh::new(config.radices.as_slice()) else {
            return Err(NetFault::BadConfig);
        };
        let channels = config.channels.as_slice();
        if !are_channels(channels) || config.classes.len() != channels.len() {
            return Err(NetFault::BadConfig);
        }
        if config.depth == 0 || config.depth > 16 {
            return Err(NetFault::BadConfig);
        }
        let names = copy_names(&config.classes);
        let Ok(fabric) = Fabric::new(alloc, mesh, channels, config.depth, names) else {
            return Err(NetFault::NoMemory);
        };
        Ok(Region { fabric })
    }

    /// What holds of every region, for whoever has one.
    pub fn recall(&self)
        ensures { IsWorkable self.now }
    {
        let _fabric = &self.fabric;
    }

    /// The lists, to be read.
    pub fn fabric(&self) -> &Fabric
        ensures same { result.now ≡ self.now }
    {
        &self.fabric
    }

    /// The number of nodes.
    pub fn nodes(&self) -> u16
        ensures value { result ≡ node_count self.now.mesh }
        ensures bound { result ≤ 256 }
    {
        self.fabric.nodes()
    }

    /// The links of this port, if the node has a neighbour there: the node beyond, and the numbers of the two links.
    pub fn links_at(&self, node: u8, port: u8) -> Option<PortLinks>
        ensures { result ≡ port_links self.now.mesh node port }
    {
        self.fabric.wires().wiring().links_at(node, port)
    }

    /// The links of this port, by which the node has a neighbour.
    pub fn links_beyond(&self, node: u8, port: u8) -> PortLinks
        requires { IsSome (neighbour_of self.now.mesh node port) }
        ensures { Some result ≡ port_links self.now.mesh node port }
    {
        self.fabric.wires().wiring().links_beyond(node, port)
    }

    /// The terminal port of each node.
    pub fn terminal(&self) -> u8
        ensures value { result ≡ 2 * length self.now.mesh }
        ensures bound { result ≤ 6 }
    {
        self.fabric.terminal()
    }

    pub(crate) fn allocate(&mut self, node: u8)
        requires { node < node_count self.old.mesh }
        ensures after { self.new ≡ with_router self.old node (after_allocate (router_at self.old node)) }
        ensures reaches { ReachesAt node self.old self.new }
    {
        let _grants = self.fabric.router_mut(node).grant_waiting();
    }

    pub(crate) fn choose(&mut self, node: u8) -> ChannelSet
        requires { node < node_count self.old.mesh }
        ensures chooses { Chooses node result self.old self.new }
        ensures there { AreThere self.new node result }
        ensures reaches { ReachesAt node self.old self.new }
    {
        self.fabric.router_mut(node).grant_ready().granted()
    }

    pub(crate) fn unrouted(&self, node: u8) -> ChannelSet
        requires { node < node_count self.now.mesh }
        ensures routes { IsSetOf lacks_route (router_at self.now node) result }
        ensures there { AreThere self.now node result }
        ensures sound { IsWorkable self.now }
    {
        self.fabric.node(node).router.unrouted()
    }

    pub(crate) fn credits_in(&self, node: u8) -> SmallSet
        ensures ports { Covers (NoCredit self.now node) (2 * length self.now.mesh) result }
        ensures linked { AreLinked self.now node result }
        ensures sound { IsWorkable self.now }
    {
        self.fabric.wires().credits_in(node)
    }

    pub(crate) fn flits_in(&self, node: u8) -> SmallSet
        ensures ports { Covers (NoFlit self.now node) (2 * length self.now.mesh) result }
        ensures linked { AreLinked self.now node result }
        ensures sound { IsWorkable self.now }
    {
        self.fabric.wires().flits_in(node)
    }

    pub(crate) fn unfed(&self, node: u8) -> SmallSet
        requires { node < node_count self.now.mesh }
        ensures classes { Covers (NoFeed self.now node) (length self.now.channels) result }
        ensures sound { IsWorkable self.now }
    {
        self.fabric.node(node).unfed()
    }

    /// The channels of the node that owe a credit. Their ports have links.
    pub fn owing(&self, node: u8) -> ChannelSet
        requires { node < node_count self.now.mesh }
        ensures owing { IsSetOf owes (router_at self.now node) result }
        ensures links { OweByLinks self.now.mesh node result }
        ensures sound { IsWorkable self.now }
    {
        self.fabric.node(node).router.owing()
    }

    /// Whether the node is at rest, so that its turn only asks its source. False tells nothing.
    #[inline(always)]
    pub fn rests(&mut self, node: u8) -> bool
        requires { node < node_count self.old.mesh }
        ensures comes { IsTrue result → ComesInBy Attempts node self.old None self.old }
        ensures rest { IsTrue result → IsAtRest (router_at self.old node) }
        ensures passes { IsTrue result → NodePassesBy Attempts node self.old None self.old }
        ensures same { self.new ≡ self.old }
    {
        if !self.fabric.wires().brings_nothing(node) {
            return false;
        }
        self.fabric.is_resting(node)
    }

    pub(crate) fn count_under_way(&mut self)
        ensures { self.new ≡ self.old }
    {
        let classes = self.fabric.classes();
        self.fabric.nodes.count_under_way(classes);
    }

    pub(crate) fn offer(&mut self, node: u8, packet: &Packet) -> Result<Moved, StepFault>
        ensures replies { Replies self.old (Event.Offer node packet.now.lane packet.now.words) result self.new }
        ensures never_idle { result ≡ Ok Idle → ⊥ }
    {
        if !self.fabric.has_node(node) {
            return Err(StepFault::NoSuchPlace);
        }
        // For the proof: a packet has words, and at most 32.
        let _words = packet.words();
        accepted(self.fabric.source_mut(node).offer(packet))
    }

    pub(crate) fn close(&mut self, node: u8, lane: Lane) -> Result<Moved, StepFault>
        ensures replies { Replies self.old (Event.CloseLane node lane) result self.new }
        ensures never_idle { result ≡ Ok Idle → ⊥ }
    {
        if !self.fabric.has_node(node) {
            return Err(StepFault::NoSuchPlace);
        }
        accepted(self.fabric.source_mut(node).close(lane))
    }

    pub(crate) fn feed(&mut self, node: u8, class: u8) -> bool
        requires node { node < node_count self.old.mesh }
        requires class { class < length self.old.channels }
        ensures { Replies self.old (Event.Feed node class) (Ok (moved_of result)) self.new }
    {
        let terminal = self.fabric.terminal();
        self.fabric.nodes.feed(node, class, terminal)
    }

    pub(crate) fn route(&mut self, node: u8, port: u8, vc: u8) -> bool
        requires { IsThere (shape self.old) (Event.Route node port vc) }
        ensures { Replies self.old (Event.Route node port vc) (Ok (moved_of result)) self.new }
    {
        self.fabric.route(node, port, vc)
    }

    fn grant(&mut self, node: u8, port: u8, vc: u8, out_vc: u8) -> bool
        requires { IsThere (shape self.old) (Event.Grant node port vc out_vc) }
        ensures { Replies self.old (Event.Grant node port vc out_vc) (Ok (moved_of result)) self.new }
    {
        self.fabric.router_mut(node).grant(port, vc, out_vc)
    }

    /// A Send within what is owned: the front flit of the channel's buffer leaves. `Idle` where none is ready, or one
    /// for the terminal is not at home; `NoMemory` where there is none for a delivered flit, and nothing changed.
    #[inline(always)]
    pub fn send(&mut self, node: u8, port: u8, vc: u8) -> Result<Moved, StepFault>
        requires there { IsThere (shape self.old) (Event.Send node port vc) }
        requires within { IfSome (leaving (router_at self.old node) port vc)
            (λ out. EndsWithin (shape self.old) (owned self.old) node out.0) }
        ensures { Replies self.old (Event.Send node port vc) result self.new }
    {
        self.fabric.send(node, port, vc)
    }

    pub(crate) fn take_flit(&mut self, node: u8, port: u8) -> bool
        requires { IsSome (neighbour_of self.old.mesh node port) }
        ensures { Replies self.old (Event.Take node port) (Ok (moved_of result)) self.new }
    {
        self.fabric.take_flit(node, port)
    }

    fn give_credit(&mut self, node: u8, port: u8, vc: u8) -> bool
        requires there { IsThere (shape self.old) (Event.GiveCredit node port vc) }
        requires whole { self.old.own ≡ sole }
        ensures { Replies self.old (Event.GiveCredit node port vc) (Ok (moved_of result)) self.new }
    {
        if self.fabric.node(node).router.owed_count(port, vc) == 0 {
            return false;
        }
        self.give_owed(node, port, vc);
        true
    }

    /// A GiveCredit where the channel owes a credit.
    #[inline(always)]
    pub fn give_owed(&mut self, node: u8, port: u8, vc: u8)
        requires there { IsThere (shape self.old) (Event.GiveCredit node port vc) }
        requires owed { 0 < (input_at (router_at self.old node) port vc).owed }
        requires within { EndsWithin (shape self.old) (owned self.old) node port }
        ensures { Replies self.old (Event.GiveCredit node port vc) (Ok Done) self.new }
    {
        self.fabric.give_credit(node, port, vc);
    }

    pub(crate) fn take_credit(&mut self, node: u8, port: u8) -> bool
        requires { IsSome (neighbour_of self.old.mesh node port) }
        ensures { Replies self.old (Event.TakeCredit node port) (Ok (moved_of result)) self.new }
    {
        self.fabric.take_credit(node, port)
    }

    #[tactic(auto, unfolding(crate::specs::Shape::net_shape), using(crate::proofs::LinkedPorts::port_there))]
    fn has(&self, step: &Step) -> bool
        ensures { IsTrue result ↔ IsThere (shape self.now) (event_of step.now) }
    {
        let fabric = &self.fabric;
        match step {
            Step::Offer { node, packet: _ } => fabric.has_node(*node),
            Step::Close { node, lane: _ } => fabric.has_node(*node),
            Step::Feed { node, class } => fabric.has_node(*node) && *class < fabric.classes(),
            Step::Route { node, port, vc } => fabric.has_place(*node, *port, *vc),
            Step::Grant {
                node,
                port,
                vc,
                out_vc,
            } => fabric.has_place(*node, *port, *vc) && *out_vc < fabric.vcs(),
            Step::Send { node, port, vc } => fabric.has_place(*node, *port, *vc),
            Step::Take { node, port } => fabric.has_link(*node, *port),
            Step::GiveCredit { node, port, vc } => fabric.has_link(*node, *port)
                && *vc < fabric.vcs(),
            Step::TakeCredit { node, port } => fabric.has_link(*node, *port),
        }
    }

    /// One step (Dally and Towles, chapters 13 and 16); [`StepFault`] tells when each fault comes. `Idle` also where
    /// it would let out into a sink what is not for its node. Only with `Done` did anything change.
    pub fn step(&mut self, step: &Step) -> Result<Moved, StepFault>
        requires { self.old.own ≡ sole }
        ensures replies { Replies self.old (event_of step.now) result self.new }
        ensures asked { AsksSource (event_of step.now) → result ≡ Ok Idle → ⊥ }
    {
        if !self.has(step) {
            return Err(StepFault::NoSuchPlace);
        }
        match step {
            Step::Offer { node, packet } => self.offer(*node, packet),
            Step::Close { node, lane } => self.close(*node, *lane),
            Step::Send { node, port, vc } => self.send(*node, *port, *vc),
            Step::Feed { node, class } => Ok(moved(self.feed(*node, *class))),
            Step::Route { node, port, vc } => Ok(moved(self.route(*node, *port, *vc))),
            Step::Grant {
                node,
                port,
                vc,
                out_vc,
            } => Ok(moved(self.grant(*node, *port, *vc, *out_vc))),
            Step::Take { node, port } => Ok(moved(self.take_flit(*node, *port))),
            Step::GiveCredit { node, port, vc } => Ok(moved(self.give_credit(*node, *port, *vc))),
            Step::TakeCredit { node, port } => Ok(moved(self.take_credit(*node, *port))),
        }
    }
}
