//! One worker: the turns that it takes with its part, and what it promises of them.

ghost use Rattle.worm_run.specs.Working.{WorkedAs};

use crate::gate::Gate;
use std::snapshot::Snapshot;
use std::sync::Wait;
use std::thread::Promise;
use worm_core::Script;
use worm_split::{Part, StopWhy};

/// A worker's part after its turns.
#[derive(Drop)]
pub struct Worked {
    /// The part.
    pub part: Part,
    /// How many turns it ended.
    pub ended: u64,
    /// Why it took no further turn.
    pub stop: Option<StopWhy>,
}

/// A worker's promise: what it gives back is this part after turns by these orders.
pub struct WorksAs<'a, G> {
    /// What its sources are asked.
    pub script: &'a Script,
    /// How many turns it may take.
    pub turns: u64,
    /// What it asks before each turn.
    pub gate: &'a G,
    /// Its number.
    pub worker: usize,
    /// The part that it takes.
    pub part: Snapshot<Part>,
}

impl<'a, G> Drop for WorksAs<'a, G> {
    fn drop(self) {
        let WorksAs {
            script: _,
            turns: _,
            gate: _,
            worker: _,
            part: _,
        } = self;
    }
}

impl<'a, G: Gate> Promise<Worked> for WorksAs<'a, G> {
    ghost kept_by = { λ p w.
        WorkedAs (G.may_stop p.gate.now) (G.may_pass p.gate.now) p.script.now p.turns p.worker p.part.value w };
}

/// The turns of one worker with its part, up to the first stop. None is begun but where the gate may answer true.
pub fn work<R: Wait, G: Gate>(
    rt: &R,
    mut part: Part,
    worker: usize,
    turns: u64,
    script: &Script,
    gate: &G,
) -> Worked
    ensures { WorkedAs (G.may_stop gate.now) (G.may_pass gate.now) script.now turns worker part result }
{
    script.recall();
    for turn in 0..turns {
        if !gate.pass(worker, turn) {
            return Worked {
                part,
                ended: turn,
                stop: Some(StopWhy::Gate),
            };
        }
        if let Err(why) = part.turn(rt, turn, script) {
            return Worked {
                part,
                ended: turn,
                stop: Some(why),
            };
        }
    }
    Worked {
        part,
        ended: turns,
        stop: None,
    }
}
