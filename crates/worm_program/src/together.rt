//! A run by several workers, each on a thread of its own, and the drain after it.

ghost use Rattle.std.specs.Prelude.{◌≡◌, ◌<◌, IfOk, IfErr};
ghost use Rattle.worm_run.specs.Runs.{HasWorkers};
ghost use Rattle.worm_program.specs.Together.{AreStopsOf, DrainsUnstopped, EndsTogether, lack_memory, stop_turn};

use std::alloc::Global;
use std::sync::Wait;
use std::thread::Threads;
use worm_alone::drain;
use worm_core::{Net, Script, StepFault};
use worm_run::{Gate, RunEnd, RunFault, RunPlan, Stop, StopWhy, run};

/// How a run by workers ended.
#[derive(Drop)]
pub struct Together {
    /// The network.
    pub net: Net,
    /// At place w the turn in which worker w was stopped, if it was.
    pub stops: [Option<u64>; 16],
    /// Want of memory, of a worker or for the parts, or the fault that ended the drain early.
    pub fault: Option<StepFault>,
}

fn stopped_turn(stops: &[Stop], worker: usize) -> Option<u64>
    ensures { result ≡ stop_turn stops.now worker }
{
    match stops {
        [] => None,
        [stop, rest @ ..] => {
            if stop.worker == worker {
                Some(stop.turn)
            } else {
                stopped_turn(rest, worker)
            }
        }
    }
}

fn stops_by_worker(stops: &[Stop]) -> [Option<u64>; 16]
    ensures { AreStopsOf stops.now result }
{
    let mut table = [None; 16];
    for worker in 0..16 {
        table[worker] = stopped_turn(stops, worker);
    }
    table
}

fn lack_memory(stops: &[Stop]) -> bool
    ensures { result ≡ lack_memory stops.now }
{
    stops
        .iter()
        .any(|stop| matches!(stop.why, StopWhy::NoMemory))
}

fn drain_unstopped(alloc: Global, net: &mut Net, stops: &[Stop], most: u64) -> Option<StepFault>
    ensures { DrainsUnstopped most stops.now net.old result net.new }
{
    if stops.is_empty() {
        return drain(alloc, net, most);
    }
    if lack_memory(stops) {
        Some(StepFault::NoMemory)
    } else {
        None
    }
}

/// Runs a script by several workers and, where none was stopped, the drain. `Err` names a worker whose thread could
/// not be started. Without memory for the parts the network is as it was.
pub fn run_together<R: Threads + Wait + Sync, G: Gate + Sync>(
    rt: &R,
    alloc: Global,
    net: Net,
    script: &Script,
    plan: RunPlan,
    gate: &G,
    most: u64,
) -> Result<Together, usize>
    requires { HasWorkers net plan }
    ensures ended { IfOk result (λ t. EndsTogether
        (G.may_stop gate.now) (G.may_pass gate.now) script.now plan most net t.net t.stops t.fault) }
    ensures refused { IfErr result (λ w. w < plan.workers) }
{
    match run(rt, alloc, net, script, plan, gate) {
        Ok(end) => {
            let RunEnd {
                mut net,
                stops,
                ended: _,
            } = end;
            let fault = drain_unstopped(alloc, &mut net, stops.as_slice(), most);
            Ok(Together {
                net,
                stops: stops_by_worker(stops.as_slice()),
                fault,
            })
        }
        Err(RunFault::NoMemory(net)) => Ok(Together {
            net,
            stops: [None; 16],
            fault: Some(StepFault::NoMemory),
        }),
        Err(RunFault::NotStarted { worker }) => Err(worker),
        Err(RunFault::Workers(_net)) => unreachable!(),
    }
}
