//! The nodes of a network by number, with what is known of their rest and of the flits under way.

ghost use Rattle.std.specs.Prelude.{ℕ, ◌≡◌, ◌+◌, ◌<◌, IsTrue, Some, length, slice_set, if◌then◌else◌, IfSome};
ghost use Rattle.std.specs.Borrow.{Lends, sem};
ghost use Rattle.worm_router.specs.Router.{IsPlace, leaving, terminal};
ghost use Rattle.worm_term.specs.Source.{classes, front_of};
ghost use Rattle.worm_node.specs.Node.{FrontFits, can_enter, delivered_node, fed_node, HasClasses};
ghost use Rattle.worm_region.specs.Resting.{IsResting, nth_node, put_router, put_source};
ghost use Rattle.worm_region.specs.UnderWay.{HaveClasses, IsUnderWay, accepted_by, accepted_in, taken_in};
ghost use Rattle.worm_region.specs.contracts.nodes.Nodes.{the_row};
ghost use Rattle.worm_router.specs.contracts.router.Router.{the_row as router_row};
ghost use Rattle.worm_term.specs.contracts.source.Source.{the_row as source_row};

use crate::Node;
use std::marker::Model;
use worm_flit::Flit;
use worm_router::Router;
use worm_term::Source;

/// The nodes by number.
#[derive(Drop)]
pub struct Nodes {
    list: Vec<Node>,
    /// Whether the node of this number is known to rest, so that a turn goes past it.
    resting: [bool; 256],
    /// How many flits their sources accepted and their sinks have not taken; `None` where that is not known.
    under_way: Option<u64>,
}

impl Model for Nodes {
    ghost use Rattle.std.specs.Prelude.{List};
    ghost use Rattle.worm_node.specs.declared.node.Node.{Node};

    ghost Value = { List Node };

    ghost use Rattle.std.specs.Prelude.{◌*◌};
    ghost use Rattle.worm_region.specs.Resting.{KnowsResting};
    ghost use Rattle.worm_region.specs.UnderWay.{IsUnderWay, accepted_in, taken_in};

    ghost view = { λ n. n.list.items };

    ghost invariant = { λ n. KnowsResting n.list.items n.resting
        × IsUnderWay (accepted_in n.list.items) (taken_in n.list.items) n.under_way };
}

fn one_fewer(count: Option<u64>) -> Option<u64>
    ensures { (accepted taken : ℕ) → IsUnderWay accepted taken count → IsUnderWay accepted (taken + 1) result }
{
    count?.checked_sub(1)
}

fn count_accepted(node: &Node, classes: u8) -> Option<u64>
    requires { HasClasses classes node.now }
    ensures { IfSome result (λ n. n ≡ accepted_by node.now) }
{
    let mut accepted = 0u64;
    for class in 0..classes {
        accepted = accepted.checked_add(node.source.injected(class).len() as u64)?;
    }
    Some(accepted)
}

fn count_under_way(nodes: &[Node], classes: u8) -> Option<u64>
    requires { HaveClasses classes nodes.now }
    ensures { IsUnderWay (accepted_in nodes.now) (taken_in nodes.now) result }
{
    let mut accepted = 0u64;
    let mut taken = 0u64;
    for node in nodes {
        accepted = accepted.checked_add(count_accepted(node, classes)?)?;
        taken = taken.checked_add(node.sink.delivered().len() as u64)?;
    }
    accepted.checked_sub(taken)
}

impl Nodes {
    /// These nodes. None is known to rest yet, and how many flits are under way is not known until it is counted.
    pub fn new(list: Vec<Node>) -> Nodes
        ensures { result ≡ list.items }
    {
        Nodes {
            list,
            resting: [false; 256],
            under_way: None,
        }
    }

    /// The nodes by themselves.
    pub fn into_list(self) -> Vec<Node>
        ensures { result.items ≡ self }
    {
        let Nodes {
            list,
            resting: _,
            under_way: _,
        } = self;
        list
    }

    /// The node of this number.
    pub fn node(&self, node: u8) -> &Node
        requires { node < length self.now }
        ensures { result.now ≡ nth_node self.now node }
    {
        &self.list[usize::from(node)]
    }

    /// The router of this node, for a change.
    pub fn router_mut(&mut self, node: u8) -> &mut Router
        requires { node < length self.old }
        ensures* lends { sem 𝓛 (Lends the_row router_row self.entry result (put_router self.old node)) }
        ensures value { result.now ≡ (nth_node self.old node).router }
    {
        self.resting[usize::from(node)] = false;
        let here = &mut self.list[usize::from(node)];
        &mut here.router
    }

    /// The source of this node, for a change. How many flits are under way is then not known until it is counted.
    pub fn source_mut(&mut self, node: u8) -> &mut Source
        requires { node < length self.old }
        ensures* lends { sem 𝓛 (Lends the_row source_row self.entry result (put_source self.old node)) }
        ensures value { result.now ≡ (nth_node self.old node).source }
    {
        self.resting[usize::from(node)] = false;
        self.under_way = None;
        let here = &mut self.list[usize::from(node)];
        &mut here.source
    }

    /// Whether the node is known to rest.
    pub fn is_resting(&self, node: u8) -> bool
        requires { node < length self.now }
        ensures { IsTrue result → IsResting (nth_node self.now node) }
    {
        self.resting[usize::from(node)]
    }

    /// Keeps it that the node rests, until it changes.
    pub fn keep_resting(&mut self, node: u8)
        requires { IsResting (nth_node self.old node) }
        ensures { self.new ≡ self.old }
    {
        self.resting[usize::from(node)] = true;
    }

    /// Counts the flits under way where their number is not known. The sources have so many classes.
    pub fn count_under_way(&mut self, classes: u8)
        requires { HaveClasses classes self.old }
        ensures { self.new ≡ self.old }
    {
        if self.under_way.is_none() {
            self.under_way = count_under_way(self.list.as_slice(), classes);
        }
    }

    /// How many flits are under way, where it is known.
    pub fn under_way(&self) -> Option<u64>
        ensures { IsUnderWay (accepted_in self.now) (taken_in self.now) result }
    {
        self.under_way
    }

    /// Moves the source's next flit of the class into the injection buffer, where there is one and it has room.
    pub fn feed(&mut self, node: u8, class: u8, port: u8) -> bool
        requires node { node < length self.old }
        requires same { (nth_node self.old node).source.channels ≡ (nth_node self.old node).router.channels }
        requires class { class < classes (nth_node self.old node).source }
        requires port { port ≡ terminal (nth_node self.old node).router }
        requires front { FrontFits (nth_node self.old node).router (terminal (nth_node self.old node).router)
            (front_of (nth_node self.old node).source class) }
        ensures enabled { result ≡ can_enter (nth_node self.old node).router (terminal (nth_node self.old node).router)
            (front_of (nth_node self.old node).source class) }
        ensures after { self.new ≡ (if result
            then slice_set self.old node (fed_node (nth_node self.old node) class
            (front_of (nth_node self.old node).source class)) else self.old) }
    {
        self.resting[usize::from(node)] = false;
        let here = &mut self.list[usize::from(node)];
        here.feed(class, port)
    }

    /// Lets the flit that is ready at this place out into the node's sink, if the sink can take it.
    #[inline(always)]
    pub fn deliver(&mut self, node: u8, port: u8, vc: u8, flit: Flit) -> bool
        requires node { node < length self.old }
        requires place { IsPlace (nth_node self.old node).router port vc }
        requires ready { (out : ℕ) × (leaving (nth_node self.old node).router port vc ≡ Some (out, flit)) }
        requires home { flit.lane.dst ≡ (nth_node self.old node).sink.node }
        ensures { self.new ≡ (if result then slice_set self.old node
            (delivered_node (nth_node self.old node) port vc flit) else self.old) }
    {
        self.resting[usize::from(node)] = false;
        let here = &mut self.list[usize::from(node)];
        if !here.deliver(port, vc, flit) {
            return false;
        }
        self.under_way = one_fewer(self.under_way);
        true
    }
}
