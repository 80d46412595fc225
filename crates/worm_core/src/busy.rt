//! Lanes that may have something under way, found in one pass over the network: a report views these alone.

ghost use Rattle.std.specs.Prelude.{ℕ, false, not, ◌≡◌, ◌*◌, ◌<◌, ◌≤◌, IfOk, IsSome, IsTrue, drop, length, replicate};
ghost use Rattle.std.specs.List.{list_all};
ghost use Rattle.worm_mesh.specs.Address.{neighbour_of, node_count};
ghost use Rattle.worm_router.specs.Router.{IsPlace, input_at, terminal, width};
ghost use Rattle.worm_term.specs.Source.{classes, queue_at};
ghost use Rattle.worm_core.specs.LaneSet.{AllMarked, IsComplete, IsMarkedOut, KeepsMarks, LacksAllFrom, LinksMarked};
ghost use Rattle.worm_core.specs.LaneSet.{NodesMarked, is_marked, lane_line, with_mark};
ghost use Rattle.worm_region.specs.Moves.{link_out};
ghost use Rattle.worm_region.specs.State.{IsFramed, link_at};

use crate::{Net, NoMemory};
use std::alloc::{AllocError, Global};
use std::marker::Model;
use worm_flit::{Flit, Lane};
use worm_region::Fabric;
use worm_router::Router;
use worm_term::Source;

/// Lanes that may have something under way.
///
/// ```text
/// let busy = net.busy(alloc)?;
/// if busy.contains(lane) {
///     let view = net.lane_view(alloc, lane)?;
/// }
/// ```
#[derive(Drop)]
pub struct LaneSet {
    nodes: u16,
    classes: u8,
    /// Which lanes are in the set, by source, then destination, then class.
    marks: Vec<bool>,
}

impl Model for LaneSet {
    ghost use Rattle.std.specs.Prelude.{◌≤◌};
    ghost use Rattle.worm_core.specs.LaneSet.{LaneMarks};

    ghost Value = { LaneMarks };

    ghost view = { λ s. record { nodes = s.nodes; classes = s.classes; marks = s.marks.items } };

    ghost invariant = { λ s. (s.nodes ≤ 256) × (s.classes ≤ 4) };
}

fn are_clear(marks: &[bool]) -> bool
    ensures { result ≡ list_all not marks.now }
{
    marks.iter().all(|mark| !*mark)
}

impl LaneSet {
    fn new(alloc: Global, nodes: u16, classes: u8) -> Result<LaneSet, AllocError>
        requires nodes { nodes ≤ 256 }
        requires classes { classes ≤ 4 }
        ensures { IfOk result (λ s. s ≡ record {
          nodes = nodes;
          classes = classes;
          marks = replicate (nodes * nodes * classes) false;
        }) }
    {
        let count = usize::from(nodes) * usize::from(nodes) * usize::from(classes);
        let marks = vec![in alloc; false; count]?;
        Ok(LaneSet {
            nodes,
            classes,
            marks,
        })
    }

    fn line(&self, lane: Lane) -> usize
        ensures { result ≡ lane_line self.now lane }
    {
        let pair = usize::from(lane.src) * usize::from(self.nodes) + usize::from(lane.dst);
        pair * usize::from(self.classes) + usize::from(lane.class)
    }

    /// Whether the lane is in the set. One that the set has no place for counts as in it.
    pub fn contains(&self, lane: Lane) -> bool
        ensures { result ≡ is_marked self.now lane }
    {
        self.marks.get(self.line(lane)).copied().unwrap_or(true)
    }

    /// Whether no lane from this source is in the set; false where the set is of other numbers of nodes or classes.
    pub fn lacks_all_from(&self, src: u8, nodes: u16, classes: u8) -> bool
        ensures { IsTrue result → LacksAllFrom self.now src nodes classes }
    {
        if nodes != self.nodes || classes != self.classes {
            return false;
        }
        let row = usize::from(nodes) * usize::from(classes);
        let first = usize::from(src) * row;
        if self.marks.len() < first + row {
            return false;
        }
        are_clear(&self.marks[first..first + row])
    }

    fn mark(&mut self, lane: Lane)
        ensures { self.new ≡ with_mark self.old lane }
    {
        let line = self.line(lane);
        if line < self.marks.len() {
            self.marks[line] = true;
        }
    }

    fn mark_flits(&mut self, flits: &[Flit])
        ensures kept { KeepsMarks self.old self.new }
        ensures marked { AllMarked self.new flits.now }
    {
        for flit in flits {
            self.mark(flit.lane);
        }
    }

    fn mark_source(&mut self, source: &Source, count: u8)
        requires { count ≡ classes source.now }
        ensures kept { KeepsMarks self.old self.new }
        ensures marked { (k : ℕ) → k < classes source.now
            → AllMarked self.new (drop (queue_at source.now k).fed (queue_at source.now k).injected) }
    {
        for class in 0..count {
            let fed = source.fed_count(class);
            self.mark_flits(&source.injected(class)[fed..]);
        }
    }

    fn mark_channel(&mut self, router: &Router, port: u8, vc: u8)
        requires { IsPlace router.now port vc }
        ensures kept { KeepsMarks self.old self.new }
        ensures marked { AllMarked self.new (input_at router.now port vc).buffer }
    {
        let mut i = 0;
        while let Some(flit) = router.buffer_at(port, vc, i) {
            self.mark(flit.lane);
            i += 1;
        }
    }

    fn mark_port(&mut self, router: &Router, port: u8, vcs: u8)
        requires port { port ≤ terminal router.now }
        requires vcs { vcs ≡ width router.now }
        ensures kept { KeepsMarks self.old self.new }
        ensures marked { (v : ℕ) → v < width router.now → AllMarked self.new (input_at router.now port v).buffer }
    {
        for vc in 0..vcs {
            self.mark_channel(router, port, vc);
        }
    }

    fn mark_router(&mut self, router: &Router, last: u8, vcs: u8)
        requires last { last ≡ terminal router.now }
        requires few { last ≤ 6 }
        requires vcs { vcs ≡ width router.now }
        ensures kept { KeepsMarks self.old self.new }
        ensures marked { (p : ℕ) (v : ℕ) → p ≤ terminal router.now → v < width router.now
            → AllMarked self.new (input_at router.now p v).buffer }
    {
        for port in 0..last + 1 {
            self.mark_port(router, port, vcs);
        }
    }

    fn mark_link(&mut self, fabric: &Fabric, node: u8, port: u8)
        requires { IsSome (neighbour_of fabric.now.mesh node port) }
        ensures kept { KeepsMarks self.old self.new }
        ensures marked { AllMarked self.new (link_at fabric.now (link_out fabric.now node port)).flits }
    {
        for i in 0..fabric.flit_count(node, port) {
            self.mark(fabric.flit(node, port, i).lane);
        }
    }

    fn mark_port_out(&mut self, fabric: &Fabric, node: u8, port: u8)
        ensures kept { KeepsMarks self.old self.new }
        ensures marked { IsMarkedOut fabric.now self.new node port }
    {
        if fabric.has_link(node, port) {
            self.mark_link(fabric, node, port);
        }
    }

    fn mark_out(&mut self, fabric: &Fabric, node: u8)
        ensures kept { KeepsMarks self.old self.new }
        ensures marked { (o : ℕ) → o < 2 * length fabric.now.mesh → IsMarkedOut fabric.now self.new node o }
    {
        for port in 0..fabric.terminal() {
            self.mark_port_out(fabric, node, port);
        }
    }
}

fn mark_nodes(fabric: &Fabric, set: &mut LaneSet)
    requires { IsFramed fabric.now }
    ensures kept { KeepsMarks set.old set.new }
    ensures marked { NodesMarked fabric.now set.new (node_count fabric.now.mesh) }
{
    for node in 0..fabric.nodes() {
        let here = fabric.node(node as u8);
        set.mark_source(&here.source, fabric.classes());
        set.mark_router(&here.router, fabric.terminal(), fabric.vcs());
    }
}

fn mark_links(fabric: &Fabric, set: &mut LaneSet)
    ensures kept { KeepsMarks set.old set.new }
    ensures marked { LinksMarked fabric.now set.new (node_count fabric.now.mesh) }
{
    for node in 0..fabric.nodes() {
        set.mark_out(fabric, node as u8);
    }
}

fn busy_lanes(fabric: &Fabric, alloc: Global) -> Result<LaneSet, AllocError>
    requires { IsFramed fabric.now }
    ensures { IfOk result (IsComplete fabric.now) }
{
    let mut set = LaneSet::new(alloc, fabric.nodes(), fabric.classes())?;
    mark_nodes(fabric, &mut set);
    mark_links(fabric, &mut set);
    Ok(set)
}

impl Net {
    /// A set of all lanes with something under way, maybe of more, by one pass. `NoMemory`: there is none for it.
    pub fn busy(&self, alloc: Global) -> Result<LaneSet, NoMemory>
        ensures { IfOk result (IsComplete self.now) }
    {
        Ok(busy_lanes(self.fabric(), alloc)?)
    }
}
