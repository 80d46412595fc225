//! A network run by four workers, where a request for memory may be refused before they start, or to any of them.

ghost use Rattle.std.specs.Prelude.{◌<◌};

use crate::cases::{Case, lane, opposite, words_of};
use crate::seen::Seen;
use crate::turns::{take, view, words_are};
use std::alloc::Global;
use std::sync::Wait;
use std::thread::Threads;
use worm_core::{LaneView, Net, Script};
use worm_flit::Lane;
use worm_run::{FreeGate, RunEnd, RunFault, RunPlan, Stop, StopWhy, run};

const PLAN: RunPlan = RunPlan {
    turns: 50,
    workers: 4,
};

/// All took their turns, or one alone found no memory and the others took theirs.
fn ended_well(stops: &[Stop], ended: &[u64]) -> bool {
    let mut wanted = [PLAN.turns; 4];
    match stops {
        [] => (),
        [stop] if stop.why == StopWhy::NoMemory && stop.worker < 4 && stop.turn < PLAN.turns => {
            wanted[stop.worker] = stop.turn
        }
        _ => return false,
    }
    ended == wanted.as_slice()
}

/// Whether the node may have sent nothing, since its worker found no memory in the turn in which all is offered.
fn may_be_silent(stops: &[Stop], node: u8) -> bool {
    match stops {
        [stop] => stop.turn == 0 && stop.worker == usize::from(node % 4),
        _ => false,
    }
}

/// What one of sixteen nodes sent is on its way to the node opposite or there, in order: its three words, or nothing
/// where it may be silent.
fn is_cut(net: &Net, stops: &[Stop], src: u8, seen: &LaneView) -> bool
    requires { src < 16 }
{
    let dst = 15 - src;
    if u16::from(dst) >= net.nodes() {
        return false;
    }
    let arrived = net.delivered(dst);
    let held = seen.underway.as_slice();
    let silent = arrived.is_empty() && held.is_empty() && may_be_silent(stops, src);
    let whole = seen.delivered == arrived.len() as u64;
    silent || whole && words_are(arrived, held, &words_of(src))
}

/// The same, in a view that may be refused once.
fn see_cut(alloc: Global, net: &Net, stops: &[Stop], src: u8) -> Seen
    requires { src < 16 }
{
    match view(alloc, net, lane(src, 15 - src)) {
        Ok((view, seen)) => seen.only_if(is_cut(net, stops, src, &view)),
        Err(seen) => seen,
    }
}

/// Nothing of the lane was delivered or is under way.
fn see_empty(alloc: Global, net: &Net, lane: Lane) -> Seen {
    match view(alloc, net, lane) {
        Ok((view, seen)) => seen.only_if(view.delivered == 0 && view.underway.is_empty()),
        Err(seen) => seen,
    }
}

/// The same of each lane from one of sixteen nodes, but that to the node opposite.
fn others_empty(alloc: Global, net: &Net, src: u8) -> Seen
    requires { src < 16 }
{
    let across = 15 - src;
    let mut seen = Seen::Whole;
    for dst in 0u8..16 {
        if dst != across {
            seen = seen.and(see_empty(alloc, net, lane(src, dst)));
        }
    }
    seen
}

/// Each lane of sixteen nodes is cut: those to the nodes opposite have what was sent, the others nothing.
fn all_cut(alloc: Global, net: &Net, stops: &[Stop]) -> Seen {
    let mut seen = Seen::Whole.only_if(net.nodes() == 16);
    for src in 0u8..16 {
        seen = seen.and(see_cut(alloc, net, stops, src));
        seen = seen.and(others_empty(alloc, net, src));
    }
    seen
}

/// Turns without traffic on one thread, till nothing is under way. Memory may stop one of them.
fn settle(alloc: Global, net: &mut Net) -> Seen {
    let none = Script::empty(alloc);
    let mut seen = Seen::Whole;
    for turn in 0u64..10_000 {
        if net.is_drained() {
            break;
        }
        seen = seen.and(take(net, turn, &none));
    }
    seen.only_if(net.is_drained())
}

/// Each lane is cut, and all that was sent arrives.
fn arrive(alloc: Global, net: &mut Net, stops: &[Stop]) -> Seen {
    let first = all_cut(alloc, net, stops);
    let turns = settle(alloc, net);
    let last = all_cut(alloc, net, stops);
    first.and(turns).and(last)
}

/// What came back of a run: each worker ended as it may, each lane is cut, and all that was sent arrives.
fn judge(alloc: Global, end: RunEnd) -> Seen {
    let RunEnd {
        mut net,
        stops,
        ended,
    } = end;
    let run = if stops.is_empty() {
        Seen::Whole
    } else {
        Seen::Stopped
    };
    let well = ended_well(stops.as_slice(), ended.as_slice());
    let arrived = arrive(alloc, &mut net, stops.as_slice());
    run.and(arrived).only_if(well)
}

/// What a run answers. It has no contract, so that what a run promises is not carried through each trial.
fn tried<R: Threads + Wait + Sync>(
    rt: &R,
    alloc: Global,
    net: Net,
    script: &Script,
) -> Result<RunEnd, RunFault> {
    run(rt, alloc, net, script, PLAN, &FreeGate)
}

/// A second run takes all its turns, once there is memory again.
fn run_again<R: Threads + Wait + Sync>(rt: &R, alloc: Global, net: Net, script: &Script) -> Seen {
    match tried(rt, alloc, net, script) {
        Ok(end) => Seen::Refused.only_if(judge(alloc, end).is_whole()),
        Err(_) => Seen::Wrong,
    }
}

/// Nothing of any lane of sixteen nodes was delivered or is under way.
fn all_empty(alloc: Global, net: &Net) -> Seen {
    let mut seen = Seen::Whole.only_if(net.nodes() == 16);
    for src in 0u8..16 {
        for dst in 0u8..16 {
            seen = seen.and(see_empty(alloc, net, lane(src, dst)));
        }
    }
    seen
}

/// A network that came back as it was handed in has nothing offered and nothing in any lane, and is run once more.
fn run_back<R: Threads + Wait + Sync>(rt: &R, alloc: Global, net: Net, script: &Script) -> Seen {
    let untouched = net.totals().accepted == 0;
    let lanes = all_empty(alloc, &net).only_if(untouched);
    run_again(rt, alloc, net, script).and(lanes)
}

/// What a run of the case shows. Where the parts found no memory they are run once more; where a thread could not be
/// started no network comes back.
fn judge_run<R: Threads + Wait + Sync>(rt: &R, alloc: Global, case: Case) -> Seen {
    let (net, script) = case.into_inner();
    match tried(rt, alloc, net, &script) {
        Ok(end) => judge(alloc, end),
        Err(RunFault::NoMemory(net)) => run_back(rt, alloc, net, &script),
        Err(RunFault::NotStarted { worker }) => Seen::Refused.only_if(worker < PLAN.workers),
        Err(_) => Seen::Wrong,
    }
}

/// Sixteen nodes, each with three words for the node opposite, are run by four workers.
pub fn run_by_four<R: Threads + Wait + Sync>(rt: &R, alloc: Global) -> Seen {
    match opposite(alloc) {
        Ok(case) => judge_run(rt, alloc, case),
        Err(seen) => seen,
    }
}
