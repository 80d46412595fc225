//! All workers: a network is split, each worker takes its part by move and gives it back, and the parts are joined.

ghost use Rattle.std.specs.Prelude.{◌≡◌, ◌≤◌, ◌<◌, ◌+◌, ◌++◌, ◌∷◌, [], vec_len, vec_capacity, OnOk, IfOk, IfErr};
ghost use Rattle.worm_core.specs.Headline.{DeliversInOrder};
ghost use Rattle.worm_split.specs.Joins.{IsLaterThan};
ghost use Rattle.worm_run.specs.Working.{AllWorked, WorkedAs, stop_of};
ghost use Rattle.worm_run.specs.Runs.{FailsAs, HasRooms, HasWorkers, IsEndOf, RanAs, IsRunOf, RunsTo};

use crate::gate::Gate;
use crate::plan::{RunEnd, RunFault, RunPlan, Stop};
use crate::working::{Worked, WorksAs, work};
use std::alloc::{AllocError, Global};
use std::snapshot::Snapshot;
use std::sync::Wait;
use std::thread;
use std::thread::{PromisedHandle, Scope, Threads};
use worm_core::{Net, Script};
use worm_split::{Part, StopWhy, join, split};

#[derive(Drop)]
struct Rooms {
    done: Vec<Worked>,
    stops: Vec<Stop>,
    ended: Vec<u64>,
}

impl Rooms {
    fn new(alloc: Global, workers: usize) -> Result<Rooms, AllocError>
        ensures { IfOk result (HasRooms workers) }
    {
        Ok(Rooms {
            done: Vec::with_capacity(alloc, workers)?,
            stops: Vec::with_capacity(alloc, workers)?,
            ended: Vec::with_capacity(alloc, workers)?,
        })
    }
}

#[derive(Drop)]
struct Ran {
    parts: Vec<Part>,
    stops: Vec<Stop>,
    ended: Vec<u64>,
}

/// Not inlined, nor is `collect`: so no part lies on the stack while the workers of others are started.
#[inline(never)]
fn start<'s, E, R: Threads + Wait + Sync, G: Gate + Sync>(
    scope: &Scope<'s, E>,
    rt: &'s R,
    script: &'s Script,
    turns: u64,
    gate: &'s G,
    parts: &mut Vec<Part>,
) -> Result<PromisedHandle<Worked, WorksAs<'s, G>>, usize>
    requires { 0 < vec_len parts.old }
    ensures taken { IfOk result (λ child. parts.old.items ≡ parts.new.items ++ child.promise.part.value ∷ []) }
    ensures script { IfOk result (λ child. child.promise.script.now ≡ script.now) }
    ensures turns { IfOk result (λ child. child.promise.turns ≡ turns) }
    ensures gate { IfOk result (λ child. child.promise.gate.now ≡ gate.now) }
    ensures worker { IfOk result (λ child. child.promise.worker ≡ vec_len parts.new) }
    ensures fewer { vec_len parts.new + 1 ≡ vec_len parts.old }
    ensures refused { IfErr result (λ w. w ≡ vec_len parts.new) }
    ensures room { vec_capacity parts.old ≤ vec_capacity parts.new }
{
    let Some(part) = parts.pop() else {
        unreachable!()
    };
    let worker = parts.len();
    let promise = WorksAs {
        script,
        turns,
        gate,
        worker,
        part: Snapshot::of(&part),
    };
    match scope.spawn_with(promise, move || work(rt, part, worker, turns, script, gate)) {
        Ok(child) => Ok(child),
        Err(_) => Err(worker),
    }
}

#[inline(never)]
fn collect<'s, R: Threads, G: Gate>(
    rt: &R,
    child: PromisedHandle<Worked, WorksAs<'s, G>>,
    done: &mut Vec<Worked>,
)
    requires { vec_len done.old < vec_capacity done.old }
    ensures worked { (worked : Worked) × (done.new.items ≡ done.old.items ++ worked ∷ []) ×
        WorkedAs (G.may_stop child.entry.promise.gate.now) (G.may_pass child.entry.promise.gate.now)
        child.entry.promise.script.now child.entry.promise.turns child.entry.promise.worker
        child.entry.promise.part.value worked }
    ensures len { vec_len done.new ≡ vec_len done.old + 1 }
    ensures room { vec_capacity done.old ≤ vec_capacity done.new }
{
    let worked = child.join(rt);
    put(done, worked);
}

fn run_parts<'s, E, R: Threads + Wait + Sync, G: Gate + Sync>(
    scope: &Scope<'s, E>,
    rt: &'s R,
    script: &'s Script,
    turns: u64,
    gate: &'s G,
    parts: &mut Vec<Part>,
    done: &mut Vec<Worked>,
) -> Result<(), usize>
    requires empty { vec_len done.old ≡ 0 }
    requires room { vec_len parts.old ≤ vec_capacity done.old }
    ensures worked { OnOk result
        (AllWorked (G.may_stop gate.now) (G.may_pass gate.now) script.now turns 0 parts.old.items done.new.items) }
    ensures all { OnOk result (vec_len done.new ≡ vec_len parts.old) }
    ensures taken { OnOk result (vec_len parts.new ≡ 0) }
    ensures refused { IfErr result (λ w. w < vec_len parts.old) }
    ensures parts_room { vec_capacity parts.old ≤ vec_capacity parts.new }
    ensures done_room { vec_capacity done.old ≤ vec_capacity done.new }
{
    if parts.is_empty() {
        return Ok(());
    }
    let child = start(scope, rt, script, turns, gate, parts)?;
    run_parts(scope, rt, script, turns, gate, parts, done)?;
    collect(rt, child, done);
    Ok(())
}

fn put<T: Drop>(list: &mut Vec<T>, item: T)
    requires { vec_len list.old < vec_capacity list.old }
    ensures items { list.new.items ≡ list.old.items ++ item ∷ [] }
    ensures len { vec_len list.new ≡ vec_len list.old + 1 }
    ensures room { vec_capacity list.old ≤ vec_capacity list.new }
{
    match list.push(item) {
        Ok(()) => (),
        Err(_) => unreachable!(),
    }
}

fn put_stop(stops: &mut Vec<Stop>, worker: usize, turn: u64, stop: Option<StopWhy>)
    requires { vec_len stops.old < vec_capacity stops.old }
    ensures items { stops.new.items ≡ stops.old.items ++ stop_of worker turn stop }
    ensures len { vec_len stops.new ≤ vec_len stops.old + 1 }
    ensures room { vec_capacity stops.old ≤ vec_capacity stops.new }
{
    if let Some(why) = stop {
        put(stops, Stop { worker, turn, why });
    }
}

fn gather(done: Vec<Worked>, mut parts: Vec<Part>, mut stops: Vec<Stop>, mut ended: Vec<u64>) -> Ran
    requires parts { (parts.items ≡ []) × (vec_len done ≤ vec_capacity parts) }
    requires stops { (stops.items ≡ []) × (vec_len done ≤ vec_capacity stops) }
    requires ended { (ended.items ≡ []) × (vec_len done ≤ vec_capacity ended) }
    ensures { IsEndOf done.items result }
{
    let mut worker = 0usize;
    for worked in done {
        let Worked {
            part,
            ended: turns,
            stop,
        } = worked;
        put(&mut parts, part);
        put(&mut ended, turns);
        put_stop(&mut stops, worker, turns, stop);
        worker += 1;
    }
    Ran {
        parts,
        stops,
        ended,
    }
}

fn run_scoped<'s, E, R: Threads + Wait + Sync, G: Gate + Sync>(
    scope: &Scope<'s, E>,
    rt: &'s R,
    script: &'s Script,
    turns: u64,
    gate: &'s G,
    mut parts: Vec<Part>,
    rooms: Rooms,
) -> Result<Ran, usize>
    requires { HasRooms (vec_len parts) rooms }
    ensures ran { IfOk result (RanAs (G.may_stop gate.now) (G.may_pass gate.now) script.now turns parts.items) }
    ensures refused { IfErr result (λ w. w < vec_len parts) }
{
    let Rooms {
        mut done,
        stops,
        ended,
    } = rooms;
    run_parts(scope, rt, script, turns, gate, &mut parts, &mut done)?;
    Ok(gather(done, parts, stops, ended))
}

fn run_all<R: Threads + Wait + Sync, G: Gate + Sync>(
    rt: &R,
    script: &Script,
    turns: u64,
    gate: &G,
    parts: Vec<Part>,
    rooms: Rooms,
) -> Result<Ran, usize>
    requires { HasRooms (vec_len parts) rooms }
    ensures ran { IfOk result (RanAs (G.may_stop gate.now) (G.may_pass gate.now) script.now turns parts.items) }
    ensures refused { IfErr result (λ w. w < vec_len parts) }
{
    thread::scope(
        thread::scope_env(),
        rt,
        move |scope| -> Result<Ran, usize>
            requires { HasRooms (vec_len parts) rooms }
            ensures ran { IfOk result
                (RanAs (G.may_stop gate.entry.now) (G.may_pass gate.entry.now) script.entry.now turns parts.items) }
            ensures refused { IfErr result (λ w. w < vec_len parts) }
        { run_scoped(scope, rt, script, turns, gate, parts, rooms) },
    )
}

/// Runs a network by so many workers, each on a thread of its own; worker w of W has the nodes whose number modulo W
/// is w. Each takes the turns below the plan's with the script's entries, up to its first stop; the others go on. An
/// entry whose source is no node is never offered. No worker begins a turn but where the gate may answer true.
///
/// Whatever the schedule, in the network that comes back the flits of a lane that were delivered, followed by those
/// under way from the sink back, are those injected, in order, each once. That workers get on is not claimed.
pub fn run<R: Threads + Wait + Sync, G: Gate + Sync>(
    rt: &R,
    alloc: Global,
    net: Net,
    script: &Script,
    plan: RunPlan,
    gate: &G,
) -> Result<RunEnd, RunFault>
    ensures workers { OnOk result (HasWorkers net plan) }
    ensures exact { IfOk result (IsRunOf (G.may_stop gate.now) (G.may_pass gate.now) script.now plan net) }
    ensures runs { IfOk result (RunsTo (G.may_stop gate.now) (G.may_pass gate.now) script.now plan net) }
    ensures later { IfOk result (λ end. IsLaterThan net end.net) }
    ensures delivers { IfOk result (λ end. DeliversInOrder end.net) }
    ensures fails { IfErr result (FailsAs net plan) }
{
    let workers = plan.workers;
    if workers == 0 || workers > 16 || workers > usize::from(net.nodes()) {
        return Err(RunFault::Workers(net));
    }
    let Ok(rooms) = Rooms::new(alloc, workers) else {
        return Err(RunFault::NoMemory(net));
    };
    let parts = match split(alloc, net, workers) {
        Ok(parts) => parts,
        Err((net, _no_memory)) => return Err(RunFault::NoMemory(net)),
    };
    match run_all(rt, script, plan.turns, gate, parts, rooms) {
        Ok(ran) => {
            let Ran {
                parts,
                stops,
                ended,
            } = ran;
            let net = join(rt, parts);
            Ok(RunEnd { net, stops, ended })
        }
        Err(worker) => Err(RunFault::NotStarted { worker }),
    }
}
