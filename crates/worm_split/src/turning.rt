//! What a part does in a turn of one of its nodes.

ghost use Rattle.std.specs.Prelude.{◌≡◌, ◌<◌, ◌%◌, ◌↔◌, true, None, Some, IsTrue};
ghost use Rattle.std.specs.Prelude.{false, List, Option, IfErr, length, sum};
ghost use Rattle.std.specs.Result.{result_err};
ghost use Rattle.worm_mesh.specs.Address.{node_count, stride_of};
ghost use Rattle.worm_region.specs.Replies.{Attempts};
ghost use Rattle.worm_script.specs.Script.{due};
ghost use Rattle.worm_region.specs.Prepared.{Prepares};
ghost use Rattle.worm_region.specs.Turns.{AreGrants, AreThere, AsksSourceBy};
ghost use Rattle.worm_region.specs.Workable.{owned};
ghost use Rattle.worm_split.specs.Effects.{IsRefused, SinksTakeOne, SourcesTake};
ghost use Rattle.worm_split.specs.PartState.{IsSamePart};
ghost use Rattle.worm_split.specs.Stops.{IsMet, fault_told};
ghost use Rattle.worm_region.specs.State.{router_at, shape};
ghost use Rattle.worm_swalloc.specs.SwAlloc.{AreGranted};
ghost use Rattle.worm_swalloc.specs.declared.grant.SwGrant.{SwGrant};
ghost use Rattle.worm_router.specs.Router.{input_at, leaving};
ghost use Rattle.worm_theory.specs.Steps.{IsThere, Step as Event};
ghost use Rattle.worm_split.specs.PartTurns.{ComesBy, Gives, GivesAcross, GivesCredits, LeavesBy};
ghost use Rattle.worm_split.specs.PartTurns.{NodePasses, NodeTurn, Sends, SendsAcross, SendsGrants, StaysWithin, Turn};
ghost use Rattle.worm_split.specs.PartTurns.{AreShared, PullsCredit, PullsCredits, PullsFlit, PullsFlits, Within};

use crate::ends::{is_entering, is_leaving, pop_credit, pop_flit, push_credit, push_flit};
use crate::part::Part;
use crate::stop::{StopWhy, stopped_by};
use std::sync::Wait;
use worm_core::{Due, Script, StepFault, tried};
use worm_flit::{Flit, SmallSet};
use worm_vcalloc::ChannelSet;

impl Part {
    /// A step adds the same to each node's number, so it leads away from all nodes or from none.
    fn leads_away(&self, dim: u8) -> bool
        requires { dim < length self.now.net.mesh }
        ensures { result ≡ false → stride_of self.now.net.mesh dim % self.now.net.own.workers ≡ 0 }
    {
        self.region.recall();
        let Some(beyond) = self.region.mesh().neighbour(0, 2 * dim + 1) else {
            unreachable!()
        };
        u16::from(beyond) % self.region.own().workers != 0
    }

    /// The links by other ports stay within the part, so their queues need not be asked.
    fn shared_ports(&self) -> SmallSet
        ensures { AreShared self.now.net result }
    {
        self.region.recall();
        let mut shared = SmallSet::new();
        for port in 0..self.region.terminal() {
            shared.put(port, self.leads_away(port / 2));
        }
        shared
    }

    fn pull_credit(&mut self, node: u8, port: u8)
        requires node { node < node_count self.old.net.mesh }
        requires own { owned self.old.net node ≡ true }
        ensures pulls { PullsCredit node port self.old None self.new }
        ensures same { IsSamePart self.old self.new }
    {
        self.region.recall();
        let Some(links) = self.region.links_at(node, port) else {
            return;
        };
        let number = usize::from(links.out);
        if !is_leaving(&self.ends[number]) {
            return;
        }
        if self.region.has_credit_back(node, port) {
            return;
        }
        let Some(vc) = pop_credit(&mut self.ends[number]) else {
            return;
        };
        self.region.arrive_credit(node, port, vc);
    }

    fn pull_flit(&mut self, node: u8, port: u8)
        requires node { node < node_count self.old.net.mesh }
        requires own { owned self.old.net node ≡ true }
        ensures pulls { PullsFlit node port self.old None self.new }
        ensures same { IsSamePart self.old self.new }
    {
        self.region.recall();
        let Some(links) = self.region.links_at(node, port) else {
            return;
        };
        let number = usize::from(links.into);
        if !is_entering(&self.ends[number]) {
            return;
        }
        if self.region.has_flit_in(node, port) {
            return;
        }
        let Some(flit) = pop_flit(&mut self.ends[number]) else {
            return;
        };
        self.region.arrive(node, port, flit);
    }

    fn pull_credits(&mut self, node: u8, shared: SmallSet)
        requires node { node < node_count self.old.net.mesh }
        requires own { owned self.old.net node ≡ true }
        requires shared { AreShared self.old.net shared }
        ensures pulls { PullsCredits node self.old None self.new }
        ensures same { IsSamePart self.old self.new }
    {
        let mut left = shared;
        while let Some(port) = left.pop_first() {
            self.pull_credit(node, port);
        }
    }

    fn pull_flits(&mut self, node: u8, shared: SmallSet)
        requires node { node < node_count self.old.net.mesh }
        requires own { owned self.old.net node ≡ true }
        requires shared { AreShared self.old.net shared }
        ensures pulls { PullsFlits node self.old None self.new }
        ensures same { IsSamePart self.old self.new }
    {
        let mut left = shared;
        while let Some(port) = left.pop_first() {
            self.pull_flit(node, port);
        }
    }

    fn ask_source(&mut self, node: u8, entries: &Due<'_>) -> Result<(), StepFault>
        requires own { owned self.old.net node ≡ true }
        ensures same { IsSamePart self.old self.new }
        ensures asks { Within (AsksSourceBy Attempts entries.now node) self.old (result_err result) self.new }
    {
        if entries.is_empty() {
            return Ok(());
        }
        self.region.ask_source(node, entries)
    }

    fn prepare(&mut self, node: u8) -> ChannelSet
        requires node { node < node_count self.old.net.mesh }
        requires own { owned self.old.net node ≡ true }
        ensures prepares { Prepares node result self.old.net self.new.net }
        ensures within { self.new ≡ record self.old { net = self.new.net } }
        ensures there { AreThere self.new.net node result }
        ensures same { IsSamePart self.old self.new }
    {
        self.region.prepare(node)
    }

    fn send_across<R: Wait>(&mut self, rt: &R, node: u8, port: u8, vc: u8, out: u8, flit: Flit)
        requires own { owned self.old.net node ≡ true }
        requires there { IsThere (shape self.old.net) (Event.Send node port vc) }
        requires ready { leaving (router_at self.old.net node) port vc ≡ Some (out, flit) }
        requires leaves { LeavesBy self.old node out }
        ensures sends { SendsAcross node port vc self.old self.new }
        ensures same { IsSamePart self.old self.new }
    {
        self.region.recall();
        let links = self.region.links_beyond(node, out);
        if push_flit(rt, &mut self.ends[usize::from(links.out)], flit) {
            self.region.sent(node, port, vc, out, flit);
        }
    }

    fn send_within(&mut self, node: u8, port: u8, vc: u8) -> Result<(), StepFault>
        requires own { owned self.old.net node ≡ true }
        requires there { IsThere (shape self.old.net) (Event.Send node port vc) }
        requires stays { StaysWithin self.old node (leaving (router_at self.old.net node) port vc) }
        ensures sends { Within (Attempts (Event.Send node port vc)) self.old (result_err result) self.new }
        ensures same { IsSamePart self.old self.new }
    {
        self.region.recall();
        tried(self.region.send(node, port, vc))
    }

    fn leaves(&self, node: u8, out: u8) -> bool
        ensures { IsTrue result ↔ LeavesBy self.now node out }
    {
        self.region.recall();
        let Some(links) = self.region.links_at(node, out) else {
            return false;
        };
        is_leaving(&self.ends[usize::from(links.out)])
    }

    fn send<R: Wait>(&mut self, rt: &R, node: u8, port: u8, vc: u8) -> Result<(), StepFault>
        requires own { owned self.old.net node ≡ true }
        requires there { IsThere (shape self.old.net) (Event.Send node port vc) }
        ensures sends { Sends node port vc self.old (result_err result) self.new }
        ensures same { IsSamePart self.old self.new }
    {
        let Some((out, flit)) = self.region.ready(node, port, vc) else {
            return self.send_within(node, port, vc);
        };
        if !self.leaves(node, out) {
            return self.send_within(node, port, vc);
        }
        self.send_across(rt, node, port, vc, out, flit);
        Ok(())
    }

    fn send_granted<R: Wait>(
        &mut self,
        rt: &R,
        node: u8,
        granted: ChannelSet,
    ) -> Result<(), StepFault>
        requires granted { AreGrants granted }
        requires there { AreThere self.old.net node granted }
        requires own { owned self.old.net node ≡ true }
        ensures sends { (grants : List (Option SwGrant)) → AreGranted grants granted →
            SendsGrants grants node self.old (result_err result) self.new }
        ensures same { IsSamePart self.old self.new }
    {
        self.region.recall();
        let mut left = granted;
        while let Some((port, vc)) = left.pop_first() {
            self.send(rt, node, port, vc)?;
        }
        Ok(())
    }

    fn give_across<R: Wait>(&mut self, rt: &R, node: u8, port: u8, vc: u8)
        requires own { owned self.old.net node ≡ true }
        requires node { node < node_count self.old.net.mesh }
        requires channel { vc < sum self.old.net.channels }
        requires owed { 0 < (input_at (router_at self.old.net node) port vc).owed }
        requires comes { ComesBy self.old node port }
        ensures gives { GivesAcross node port vc self.old self.new }
        ensures same { IsSamePart self.old self.new }
    {
        self.region.recall();
        let links = self.region.links_beyond(node, port);
        if push_credit(rt, &mut self.ends[usize::from(links.into)], vc) {
            self.region.gave(node, port, vc);
        }
    }

    fn give_within(&mut self, node: u8, port: u8, vc: u8)
        requires own { owned self.old.net node ≡ true }
        requires there { IsThere (shape self.old.net) (Event.GiveCredit node port vc) }
        requires owed { 0 < (input_at (router_at self.old.net node) port vc).owed }
        requires stays { ComesBy self.old node port → ⊥ }
        ensures gives { Within (Attempts (Event.GiveCredit node port vc)) self.old None self.new }
        ensures same { IsSamePart self.old self.new }
    {
        self.region.give_owed(node, port, vc);
    }

    fn give<R: Wait>(&mut self, rt: &R, node: u8, port: u8, vc: u8)
        requires own { owned self.old.net node ≡ true }
        requires there { IsThere (shape self.old.net) (Event.GiveCredit node port vc) }
        requires owed { 0 < (input_at (router_at self.old.net node) port vc).owed }
        ensures gives { Gives node port vc self.old None self.new }
        ensures same { IsSamePart self.old self.new }
    {
        self.region.recall();
        let links = self.region.links_beyond(node, port);
        if is_entering(&self.ends[usize::from(links.into)]) {
            self.give_across(rt, node, port, vc);
        } else {
            self.give_within(node, port, vc);
        }
    }

    fn give_credits<R: Wait>(&mut self, rt: &R, node: u8)
        requires node { node < node_count self.old.net.mesh }
        requires own { owned self.old.net node ≡ true }
        ensures gives { GivesCredits node self.old None self.new }
        ensures same { IsSamePart self.old self.new }
    {
        let mut left = self.region.owing(node);
        while let Some((port, vc)) = left.pop_port_lowest() {
            self.give(rt, node, port, vc);
            // For the proof: the network is sound with the credit given.
            self.region.recall();
        }
    }

    fn rests(&mut self, node: u8) -> bool
        requires { node < node_count self.old.net.mesh }
        ensures passes { IsTrue result → NodePasses node self.old None self.old }
        ensures same { self.new ≡ self.old }
    {
        self.region.recall();
        self.region.rests(node)
    }

    fn node_passes<R: Wait>(&mut self, rt: &R, node: u8) -> Result<(), StepFault>
        requires node { node < node_count self.old.net.mesh }
        requires own { owned self.old.net node ≡ true }
        ensures passes { NodePasses node self.old (result_err result) self.new }
        ensures same { IsSamePart self.old self.new }
    {
        if self.rests(node) {
            return Ok(());
        }
        let granted = self.prepare(node);
        self.send_granted(rt, node, granted)?;
        self.give_credits(rt, node);
        Ok(())
    }

    fn node_turn<R: Wait>(
        &mut self,
        rt: &R,
        node: u8,
        entries: &Due<'_>,
        shared: SmallSet,
    ) -> Result<(), StepFault>
        requires node { node < node_count self.old.net.mesh }
        requires own { owned self.old.net node ≡ true }
        requires shared { AreShared self.old.net shared }
        ensures turn { NodeTurn entries.now node self.old (result_err result) self.new }
        ensures same { IsSamePart self.old self.new }
    {
        self.ask_source(node, entries)?;
        self.pull_credits(node, shared);
        self.pull_flits(node, shared);
        self.node_passes(rt, node)
    }

    fn node_turns<R: Wait>(&mut self, rt: &R, entries: &Due<'_>) -> Result<(), StepFault>
        ensures turn { Turn entries.now self.old (result_err result) self.new }
        ensures same { IsSamePart self.old self.new }
    {
        let shared = self.shared_ports();
        let own = self.region.own();
        let nodes = u32::from(self.region.nodes());
        let mut node = u32::from(own.worker);
        while node < nodes {
            self.node_turn(rt, node as u8, entries, shared)?;
            node += u32::from(own.workers);
        }
        Ok(())
    }

    fn take_turn<R: Wait>(&mut self, rt: &R, turn: u64, script: &Script) -> Result<(), StepFault>
        ensures exact { Turn (due turn script.now) self.old (result_err result) self.new }
        ensures sources { SourcesTake (due turn script.now) self.old (result_err result) self.new }
        ensures sinks { SinksTakeOne self.old self.new }
        ensures refused { IsRefused (due turn script.now) self.old (result_err result) self.new }
        ensures same { IsSamePart self.old self.new }
    {
        let due = script.due(turn);
        due.recall();
        self.region.recall();
        self.node_turns(rt, &due)
    }

    /// The turns of the worker's nodes, in rising number, with the script's entries for this turn, up to the first
    /// fault. `Refused`: a source refuses an entry. `NoMemory`: there is none for an accepted or a delivered flit.
    pub fn turn<R: Wait>(&mut self, rt: &R, turn: u64, script: &Script) -> Result<(), StopWhy>
        ensures exact { Turn (due turn script.now) self.old (fault_told result) self.new }
        ensures sources { SourcesTake (due turn script.now) self.old (fault_told result) self.new }
        ensures sinks { SinksTakeOne self.old self.new }
        ensures refused { IsRefused (due turn script.now) self.old (fault_told result) self.new }
        ensures stop { IfErr result IsMet }
        ensures same { IsSamePart self.old self.new }
    {
        match self.take_turn(rt, turn, script) {
            Ok(()) => Ok(()),
            Err(fault) => Err(stopped_by(fault)),
        }
    }
}
