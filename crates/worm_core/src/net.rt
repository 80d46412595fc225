//! A sound network: its steps, runs of them, and its turns.

ghost use Rattle.std.specs.Prelude.{◌≡◌, ◌≤◌, ◌<◌, ◌↔◌, IsTrue, IfOk, Ok, length, take, Err};
ghost use Rattle.worm_region.specs.Runs.{AreAnswered, IsRun, StopsBehind, event_of};
ghost use Rattle.worm_region.specs.Answers.{Answers, ArbitersStand, AsksSource};
ghost use Rattle.worm_region.specs.declared.step.Moved.TheVariants.{Idle};
ghost use Rattle.worm_theory.specs.Steps.{empty};
ghost use Rattle.worm_region.specs.NewNet.{IsConfig, IsFresh};
ghost use Rattle.worm_core.specs.Headline.{DeliversInOrder, NothingFollowsMarks};
ghost use Rattle.worm_core.specs.StepMoves.{MovesOneLane};
ghost use Rattle.worm_region.specs.State.{IsNet, shape, network_of, queue_of, sink_at, source_at, texts_of};
ghost use Rattle.worm_region.specs.Turns.{Reaches, Turn};
ghost use Rattle.worm_script.specs.Script.{due};
ghost use Rattle.std.specs.Result.{result_err};
ghost use Rattle.worm_mesh.specs.Address.{node_count};

use crate::{Config, Due, Moved, NetFault, Script, Step, StepFault};
use std::alloc::Global;
use std::marker::Model;
use worm_flit::{Flit, Lane};
use worm_region::{Fabric, Region};
use worm_term::{Sink, Source};

/// A sound network.
///
/// ```text
/// let mut net = Net::new(alloc, &config)?;
/// net.turn(0, &script)?;
/// let arrived = net.delivered(5); // the flits that node 5 was delivered, in order
/// ```
pub struct Net {
    region: Region,
}

impl Drop for Net {
    /// Written out, so that who lets a network go calls this: a derived one is proved anew in each crate.
    fn drop(self) {
        let Net { region: _ } = self;
    }
}

impl Model for Net {
    ghost use Rattle.worm_region.specs.State.{NetState, IsNet};

    ghost Value = { NetState };

    ghost view = { λ n. n.region };

    ghost invariant = { λ n. IsNet n.region };
}

/// How far a run of steps came.
#[derive(Clone, Copy, Debug, PartialEq, Eq)]
pub struct RunSoFar {
    /// How many of its steps were answered Ok, from the first; those that were not enabled count, too.
    pub done: usize,
    /// The fault of the step that follows them, if there was one.
    pub fault: Option<StepFault>,
}

impl Net {
    /// An empty network. `BadConfig` where a number of the configuration is out of its range or not every class has
    /// its one name, else `NoMemory` where there is none for the nodes, their buffers and the links.
    pub fn new(alloc: Global, config: &Config) -> Result<Net, NetFault>
        ensures fresh { IfOk result (λ n. IsFresh config.now.radices.items config.now.channels.items config.now.depth
            (texts_of config.now.classes.items) n) }
        ensures empty { IfOk result (λ n. network_of n ≡ empty (shape n)) }
        ensures bad { (result ≡ Err NetFault.BadConfig) ↔
            (IsConfig config.now.radices.items config.now.channels.items config.now.depth
            (length config.now.classes.items) → ⊥) }
    {
        let region = Region::new(alloc, config)?;
        Ok(Net::of(region))
    }

    /// What holds of every network, for whoever has one.
    pub fn recall(&self)
        ensures sound { IsNet self.now }
        ensures delivers { DeliversInOrder self.now }
    {
        let _region = &self.region;
    }

    pub(crate) fn fabric(&self) -> &Fabric
        ensures same { result.now ≡ self.now }
        ensures sound { IsNet self.now }
    {
        self.region.fabric()
    }

    pub(crate) fn into_region(self) -> Region
        ensures same { result ≡ self }
        ensures sound { IsNet self }
    {
        let Net { region } = self;
        region
    }

    pub(crate) fn of(region: Region) -> Net
        requires { IsNet region }
        ensures { result ≡ region }
    {
        Net { region }
    }

    /// The number of nodes.
    pub fn nodes(&self) -> u16
        ensures value { result ≡ node_count self.now.mesh }
        ensures bound { result ≤ 256 }
    {
        self.region.fabric().nodes()
    }

    /// The number of classes, 1 to 4.
    pub fn classes(&self) -> u8
        ensures value { result ≡ length self.now.channels }
        ensures bound { result ≤ 4 }
    {
        self.region.fabric().classes()
    }

    /// The flits that arrived at the node, in order of arrival.
    pub fn delivered(&self, node: u8) -> &[Flit]
        requires { node < node_count self.now.mesh }
        ensures { result.now ≡ (sink_at self.now node).delivered }
    {
        self.region.fabric().node(node).sink.delivered()
    }

    pub(crate) fn accepted_flits(&self, node: u8, class: u8) -> &[Flit]
        requires node { node < node_count self.now.mesh }
        requires class { class < length self.now.channels }
        ensures { result.now ≡ (queue_of self.now node class).injected }
    {
        self.region.fabric().node(node).source.injected(class)
    }

    /// Where the packets of the node's lanes come in.
    pub fn source(&self, node: u8) -> &Source
        requires { node < node_count self.now.mesh }
        ensures { result.now ≡ source_at self.now node }
    {
        &self.region.fabric().node(node).source
    }

    /// Where the flits for the node come out.
    pub fn sink(&self, node: u8) -> &Sink
        requires { node < node_count self.now.mesh }
        ensures { result.now ≡ sink_at self.now node }
    {
        &self.region.fabric().node(node).sink
    }

    /// Whether the network has this lane: its two nodes and its class.
    pub fn has_lane(&self, lane: Lane) -> bool
        ensures { IsTrue result ↔ ((lane.src < node_count self.now.mesh) × (lane.dst < node_count self.now.mesh) ×
            (lane.class < length self.now.channels)) }
    {
        let nodes = self.nodes();
        u16::from(lane.src) < nodes && u16::from(lane.dst) < nodes && lane.class < self.classes()
    }

    /// One step (Dally and Towles, chapters 13 and 16): at most one move of one lane. `Done` where it was enabled,
    /// else `Idle`, which no Offer or Close is answered. [`StepFault`] tells each fault, which changes nothing.
    pub fn step(&mut self, step: &Step) -> Result<Moved, StepFault>
        ensures answers { Answers self.old (event_of step.now) result self.new }
        ensures asked { AsksSource (event_of step.now) → result ≡ Ok Idle → ⊥ }
        ensures moves { MovesOneLane self.old (event_of step.now) result self.new }
        ensures sound { IsNet self.new }
        ensures delivers { DeliversInOrder self.new }

        // Arbiters are for turns alone.
        ensures pointers { ArbitersStand self.old self.new }
    {
        self.region.step(step)
    }

    pub(crate) fn all_turns(&mut self, entries: &Due<'_>) -> Result<(), StepFault>
        ensures exact { Turn entries.now self.old (result_err result) self.new }
        ensures reaches { Reaches self.old self.new }
    {
        self.region.all_turns(entries)
    }

    #[tactic(auto, using(crate::proofs::RunSteps::answered_on))]
    fn take_steps(&mut self, steps: &[Step]) -> RunSoFar
        ensures answered { AreAnswered self.old (take result.done steps.now) self.new }
        ensures stopped { StopsBehind result.done steps.now result.fault self.new }
    {
        let mut done = 0;
        for step in steps {
            match self.step(step) {
                Ok(_moved) => done += 1,
                Err(fault) => {
                    return RunSoFar {
                        done,
                        fault: Some(fault),
                    };
                }
            }
        }
        RunSoFar { done, fault: None }
    }

    /// Takes the steps one after another, up to the first fault of [`Net::step`]; the steps before it stand.
    pub fn run(&mut self, steps: &[Step]) -> RunSoFar
        ensures answered { AreAnswered self.old (take result.done steps.now) self.new }
        ensures stopped { StopsBehind result.done steps.now result.fault self.new }
        ensures led { IsRun self.old self.new steps.now result.done }
        ensures pointers { ArbitersStand self.old self.new }
        ensures sound { IsNet self.new }
        ensures delivers { DeliversInOrder self.new }
        ensures marks { NothingFollowsMarks self.old self.new }
    {
        self.recall();
        let so_far = self.take_steps(steps);
        self.recall();
        so_far
    }

    /// The turns of all nodes, in rising number, with the script's entries for this turn. After `Refused`, where a
    /// source refuses an entry, or `NoMemory`, for an accepted or a delivered flit, what came before stands.
    pub fn turn(&mut self, turn: u64, script: &Script) -> Result<(), StepFault>
        ensures exact { Turn (due turn script.now) self.old (result_err result) self.new }
        ensures reaches { Reaches self.old self.new }
        ensures sound { IsNet self.new }
        ensures delivers { DeliversInOrder self.new }
        ensures marks { NothingFollowsMarks self.old self.new }
    {
        self.recall();
        let due = script.due(turn);
        let result = self.all_turns(&due);
        self.recall();
        result
    }
}
