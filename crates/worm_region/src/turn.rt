//! The turn of a node, and the turns of all nodes in rising number.

ghost use Rattle.std.specs.Prelude.{List, [], ◌≡◌, ◌<◌, Option, None, false};
ghost use Rattle.std.specs.Result.{result_err};
ghost use Rattle.worm_mesh.specs.Address.{node_count};
ghost use Rattle.worm_region.specs.Replies.{Attempts, Replies};
ghost use Rattle.worm_script.specs.Script.{begun_at};
ghost use Rattle.worm_region.specs.Owned.{sole};
ghost use Rattle.worm_swalloc.specs.SwAlloc.{AreGranted};
ghost use Rattle.worm_swalloc.specs.declared.grant.SwGrant.{SwGrant};
ghost use Rattle.worm_region.specs.Turns.{Does, ForEach, ReachesAt, all_nodes, ask, fault_of, AsksSourceBy, ComesInBy};
ghost use Rattle.worm_region.specs.Turns.{FeedsClassesBy, GivesCreditsBy, NodePassesBy, NodeTurnBy, RoutesChannelsBy};
ghost use Rattle.worm_region.specs.Turns.{SendsBy, TakesCreditsBy, TakesFlitsBy, AreGrants, AreMarked, AreThere};
ghost use Rattle.worm_region.specs.Prepared.{Prepares};

use crate::region::Region;
use crate::{Act, Due, Moved, StepFault};
use worm_vcalloc::ChannelSet;

/// What the answer to a step is to the turn that tried it: a step that is not there, or not enabled, is passed over.
pub fn tried(answer: Result<Moved, StepFault>) -> Result<(), StepFault>
    ensures { result_err result ≡ fault_of answer }
{
    match answer {
        Ok(_moved) => Ok(()),
        Err(StepFault::NoSuchPlace) => Ok(()),
        Err(fault) => Err(fault),
    }
}

const NOBODY: [bool; 256] = [false; 256];

fn sources_of(entries: &Due<'_>) -> [bool; 256]
    ensures { AreMarked entries.now result }
{
    let mut sources = [false; 256];
    for i in 0..entries.len() {
        sources[usize::from(entries.source(i))] = true;
    }
    sources
}

impl Region {
    fn ask(&mut self, node: u8, act: &Act) -> Result<Moved, StepFault>
        ensures { Replies self.old (ask node act.now) result self.new }
    {
        match act {
            Act::Offer(packet) => self.offer(node, packet),
            Act::Close(lane) => self.close(node, *lane),
        }
    }

    /// Asks the source what these entries ask, up to the first `Refused` or `NoMemory`, whose entry changes nothing.
    pub fn ask_source(&mut self, node: u8, entries: &Due<'_>) -> Result<(), StepFault>
        ensures does { Does (AsksSourceBy Attempts entries.now node) self.old (result_err result) self.new }
        ensures at_node { ReachesAt node self.old self.new }
    {
        let mut next = entries.first_of(node);
        while let Some(i) = next {
            tried(self.ask(node, entries.act(i)))?;
            next = entries.next_of(i);
        }
        Ok(())
    }

    fn take_credits(&mut self, node: u8)
        requires { node < node_count self.old.mesh }
        ensures { Does (TakesCreditsBy Attempts node) self.old None self.new }
    {
        let mut left = self.credits_in(node);
        while let Some(port) = left.pop_first() {
            self.recall();
            let _moved = self.take_credit(node, port);
            self.recall();
        }
    }

    fn take_flits(&mut self, node: u8)
        requires { node < node_count self.old.mesh }
        ensures { Does (TakesFlitsBy Attempts node) self.old None self.new }
    {
        let mut left = self.flits_in(node);
        while let Some(port) = left.pop_first() {
            self.recall();
            let _moved = self.take_flit(node, port);
            self.recall();
        }
    }

    fn feed_classes(&mut self, node: u8)
        requires { node < node_count self.old.mesh }
        ensures { Does (FeedsClassesBy Attempts node) self.old None self.new }
    {
        let mut left = self.unfed(node);
        while let Some(class) = left.pop_first() {
            self.recall();
            let _fed = self.feed(node, class);
            self.recall();
        }
    }

    fn route_channels(&mut self, node: u8)
        requires { node < node_count self.old.mesh }
        ensures { Does (RoutesChannelsBy Attempts node) self.old None self.new }
    {
        let mut unrouted = self.unrouted(node);
        while let Some((port, vc)) = unrouted.pop_first() {
            self.recall();
            let _moved = self.route(node, port, vc);
            self.recall();
        }
    }

    fn send_granted(&mut self, node: u8, granted: ChannelSet) -> Result<(), StepFault>
        requires granted { AreGrants granted }
        requires there { AreThere self.old node granted }
        requires whole { self.old.own ≡ sole }
        ensures { (grants : List (Option SwGrant)) → AreGranted grants granted →
            Does (SendsBy Attempts grants node) self.old (result_err result) self.new }
    {
        self.recall();
        let mut left = granted;
        while let Some((port, vc)) = left.pop_first() {
            tried(self.send(node, port, vc))?;
        }
        Ok(())
    }

    fn give_credits(&mut self, node: u8)
        requires node { node < node_count self.old.mesh }
        requires whole { self.old.own ≡ sole }
        ensures { Does (GivesCreditsBy Attempts node) self.old None self.new }
    {
        let mut left = self.owing(node);
        while let Some((port, vc)) = left.pop_port_lowest() {
            self.recall();
            self.give_owed(node, port, vc);
            self.recall();
        }
    }

    fn come_in(&mut self, node: u8)
        requires { node < node_count self.old.mesh }
        ensures does { Does (ComesInBy Attempts node) self.old None self.new }
        ensures at_node { ReachesAt node self.old self.new }
    {
        self.take_credits(node);
        self.take_flits(node);
        self.feed_classes(node);
        self.route_channels(node);
    }

    /// What the node does in a turn between its source's entries and its sends: the channels granted, which may send.
    pub fn prepare(&mut self, node: u8) -> ChannelSet
        requires { node < node_count self.old.mesh }
        ensures prepares { Prepares node result self.old self.new }
        ensures there { AreThere self.new node result }
        ensures at_node { ReachesAt node self.old self.new }
    {
        // `Prepares` tells that the regions between are workable, too.
        self.come_in(node);
        self.recall();
        self.allocate(node);
        self.recall();
        self.choose(node)
    }

    fn node_passes(&mut self, node: u8) -> Result<(), StepFault>
        requires node { node < node_count self.old.mesh }
        requires whole { self.old.own ≡ sole }
        ensures { Does (NodePassesBy Attempts node) self.old (result_err result) self.new }
    {
        if self.rests(node) {
            return Ok(());
        }
        let granted = self.prepare(node);
        self.send_granted(node, granted)?;
        self.give_credits(node);
        Ok(())
    }

    fn node_turn(&mut self, node: u8, entries: &Due<'_>, is_asked: bool) -> Result<(), StepFault>
        requires node { node < node_count self.old.mesh }
        requires asked { is_asked ≡ false → begun_at node entries.now ≡ [] }
        requires whole { self.old.own ≡ sole }
        ensures { Does (NodeTurnBy Attempts entries.now node) self.old (result_err result) self.new }
    {
        if is_asked {
            self.ask_source(node, entries)?;
        }
        self.node_passes(node)
    }

    fn turns_of(&mut self, entries: &Due<'_>, asked: &[bool; 256]) -> Result<(), StepFault>
        requires asked { AreMarked entries.now asked.now }
        requires whole { self.old.own ≡ sole }
        ensures { Does (ForEach all_nodes (NodeTurnBy Attempts entries.now)) self.old (result_err result) self.new }
    {
        for node in 0..self.nodes() {
            self.node_turn(node as u8, entries, asked[usize::from(node)])?;
        }
        Ok(())
    }

    /// The turns of all nodes with these entries, in rising number. What came before `Refused` or `NoMemory` stands.
    pub fn all_turns(&mut self, entries: &Due<'_>) -> Result<(), StepFault>
        requires { self.old.own ≡ sole }
        ensures { Does (ForEach all_nodes (NodeTurnBy Attempts entries.now)) self.old (result_err result) self.new }
    {
        // Few turns have an entry. The others make no marks, and count what is under way, since a drain asks for it.
        if entries.is_empty() {
            self.count_under_way();
            return self.turns_of(entries, &NOBODY);
        }
        self.turns_of(entries, &sources_of(entries))
    }
}
