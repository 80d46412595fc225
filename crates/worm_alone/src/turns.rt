//! A script's turns on one thread, and the drain after them.

ghost use Rattle.std.specs.Prelude.{◌<◌, None, MatchOption};
ghost use Rattle.worm_region.specs.Turns.{Drains, OneThreadRun, Turns};
ghost use Rattle.worm_alone.specs.Programs.{StopsAt};

use std::alloc::Global;
use worm_core::{Net, Script, StepFault};

/// How a run ended.
#[derive(Clone, Copy, Debug, PartialEq, Eq)]
pub struct Ending {
    /// The turn of the script in which a fault stopped the run, if one did; there is then no drain.
    pub stopped: Option<u64>,
    /// The fault that ended the turns or the drain early, if one did.
    pub fault: Option<StepFault>,
}

#[derive(Clone, Copy, Debug, PartialEq, Eq)]
struct Stop {
    turn: u64,
    fault: StepFault,
}

fn take_turns(net: &mut Net, script: &Script, turns: u64) -> Option<Stop>
    ensures { MatchOption result (Turns script.now turns net.old None net.new)
        (λ stop. (stop.turn < turns) × StopsAt script.now stop.turn net.old stop.fault net.new) }
{
    for turn in 0..turns {
        if let Err(fault) = net.turn(turn, script) {
            return Some(Stop { turn, fault });
        }
    }
    None
}

/// At most `most` turns without entries. It ends before a turn with nothing under way, and in a turn with a fault,
/// which it answers.
pub fn drain(alloc: Global, net: &mut Net, most: u64) -> Option<StepFault>
    ensures { Drains most net.old result net.new }
{
    let nothing = Script::empty(alloc);
    for turn in 0..most {
        if net.is_drained() {
            return None;
        }
        if let Err(fault) = net.turn(turn, &nothing) {
            return Some(fault);
        }
    }
    None
}

/// Runs a script on this thread: `turns` turns and, where none of them was stopped, the drain.
pub fn run_script(alloc: Global, net: &mut Net, script: &Script, turns: u64, most: u64) -> Ending
    ensures { OneThreadRun script.now turns most net.old result.stopped result.fault net.new }
{
    match take_turns(net, script, turns) {
        Some(stop) => Ending {
            stopped: Some(stop.turn),
            fault: Some(stop.fault),
        },
        None => Ending {
            stopped: None,
            fault: drain(alloc, net, most),
        },
    }
}
