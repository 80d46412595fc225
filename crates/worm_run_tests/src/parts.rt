//! A network is split and joined, at once or once each part took turns on a thread of its own.

ghost use Rattle.std.specs.Prelude.{◌≡◌, ◌<◌, ◌*◌, ◌++◌, ◌∷◌, [], length};
ghost use Rattle.worm_split.specs.Joins.{AreParts};
ghost use Rattle.worm_split.specs.PartState.{IsSamePart};

use crate::cases::{are_equal, lane, opposite, words_of};
use crate::trial::Trial;
use std::process::Abort;
use std::snapshot::Snapshot;
use std::sync::Wait;
use std::thread;
use std::thread::{Promise, PromisedHandle, Scope, Threads};
use worm_core::{LaneView, Net, Script};
use worm_run::{Part, join, split};

/// The parts of the network, for so many workers.
pub fn parts_of<R: Abort + AllocGlobal>(rt: &R, net: Net, workers: usize) -> Vec<Part>
    ensures { AreParts result.items × (length result.items ≡ workers) }
{
    assert!(rt; workers > 0 && workers <= 16 && workers <= usize::from(net.nodes()));
    match split(rt.alloc(), net, workers) {
        Ok(parts) => parts,
        Err((_net, _)) => panic!(rt; "no memory"),
    }
}

/// The network of the parts.
pub fn joined<R: Wait>(rt: &R, parts: Vec<Part>) -> Net
    requires { AreParts parts.items }
{
    join(rt, parts)
}

/// The same network once it was split for so many workers and joined.
fn split_and_joined<R: Abort + AllocGlobal + Copy + Wait>(
    trial: Trial<R>,
    workers: usize,
) -> Trial<R> {
    let (rt, net, script) = trial.into_inner();
    let parts = parts_of(&rt, net, workers);
    are_equal(&rt, parts.len(), workers);
    let net = joined(&rt, parts);
    Trial { rt, net, script }
}

fn same_view(a: &LaneView, b: &LaneView) -> bool {
    if a.delivered != b.delivered || a.underway.len() != b.underway.len() {
        return false;
    }
    for i in 0..a.underway.len() {
        let (Some(x), Some(y)) = (a.underway.get(i), b.underway.get(i)) else {
            return false;
        };
        if x.flit != y.flit || x.place != y.place {
            return false;
        }
    }
    true
}

/// What is read of each lane of sixteen nodes.
fn views<R: Abort + AllocGlobal + Copy>(trial: &Trial<R>) -> Vec<LaneView> {
    let mut views = Vec::new(trial.rt.alloc());
    for src in 0u8..16 {
        for dst in 0u8..16 {
            let view = trial.view(lane(src, dst));
            views.push(view).expect(&trial.rt, "memory");
        }
    }
    views
}

fn same_views(a: &Vec<LaneView>, b: &Vec<LaneView>) -> bool {
    if a.len() != b.len() {
        return false;
    }
    for i in 0..a.len() {
        let (Some(x), Some(y)) = (a.get(i), b.get(i)) else {
            return false;
        };
        if !same_view(x, y) {
            return false;
        }
    }
    true
}

#[test]
fn to_split_and_join_changes_nothing(rt: HostRuntime) {
    let mut trial = opposite(rt, &[4, 4], 15);
    for turn in 0u64..21 {
        trial.turn(turn);
        let before = views(&trial);
        for workers in [1usize, 2, 4, 16] {
            trial = split_and_joined(trial, workers);
            assert!(rt; same_views(&before, &views(&trial)));
        }
    }
    trial.has_delivered(48);
}

/// A thread's promise: what it gives back is this part, after some turns.
#[derive(Drop)]
struct GivesBack(Snapshot<Part>);

impl Promise<Part> for GivesBack {
    ghost kept_by = { λ given part. IsSamePart given.0.value part };
}

/// The part after its turns below this number, none of which a fault ends.
fn turned<R: Abort + Wait>(rt: &R, mut part: Part, turns: u64, script: &Script) -> Part
    ensures { IsSamePart part result }
{
    for turn in 0..turns {
        assert!(rt; part.turn(rt, turn, script).is_ok());
    }
    part
}

/// Starts a thread of the scope that takes the part's turns below this number.
fn start<'s, E, R: Abort + Threads + Wait + Sync>(
    scope: &Scope<'s, E>,
    rt: &'s R,
    part: Part,
    turns: u64,
    script: &'s Script,
) -> PromisedHandle<Part, GivesBack>
    ensures { result.promise.0.value ≡ part }
{
    let given = GivesBack(Snapshot::of(&part));
    match scope.spawn_with(given, move || turned(rt, part, turns, script)) {
        Ok(child) => child,
        Err(_) => panic!(rt; "no thread"),
    }
}

/// Two parts after each took its turns below this number, on a thread of its own.
fn both_turned<'s, E, R: Abort + Threads + Wait + Sync>(
    scope: &Scope<'s, E>,
    rt: &'s R,
    mut parts: Vec<Part>,
    turns: u64,
    script: &'s Script,
) -> Vec<Part>
    requires { AreParts parts.items × (length parts.items ≡ 2) }
    ensures { AreParts result.items }
{
    let last = parts.pop().expect(rt, "a second part");
    let second = start(scope, rt, last, turns, script);
    let last = parts.pop().expect(rt, "a first part");
    let first = start(scope, rt, last, turns, script);
    parts.push(first.join(rt)).expect(rt, "memory");
    parts.push(second.join(rt)).expect(rt, "memory");
    parts
}

/// The same, in a scope of two threads.
fn on_two_threads<R: Abort + Threads + Wait + Sync>(
    rt: &R,
    parts: Vec<Part>,
    turns: u64,
    script: &Script,
) -> Vec<Part>
    requires { AreParts parts.items × (length parts.items ≡ 2) }
    ensures { AreParts result.items }
{
    thread::scope(
        thread::scope_env(),
        rt,
        move |scope| -> Vec<Part>
            requires { AreParts parts.items × (length parts.items ≡ 2) }
            ensures { AreParts result.items }
        { both_turned(scope, rt, parts, turns, script) },
    )
}

/// The network once it was split in two, each part took so many turns on a thread of its own, and it was joined.
fn turned_on_two_threads<R: Abort + AllocGlobal + Copy + Threads + Wait + Sync>(
    trial: Trial<R>,
    turns: u64,
) -> Trial<R> {
    let (rt, net, script) = trial.into_inner();
    let parts = parts_of(&rt, net, 2);
    let parts = on_two_threads(&rt, parts, turns, &script);
    let net = joined(&rt, parts);
    Trial { rt, net, script }
}

/// Of each lane between opposite nodes of sixteen, the words that were delivered, followed by those under way from the
/// sink back, are those injected, in order. The other lanes have nothing.
fn all_lanes_are_cut<R: Abort + AllocGlobal + Copy>(trial: &Trial<R>) {
    for src in 0u8..16 {
        let words = trial.words_to(src, 15 - src);
        are_equal(
            &trial.rt,
            (src, words.as_slice()),
            (src, words_of(src).as_slice()),
        );
    }
    trial.has_in_lanes(48);
}

#[test]
fn two_parts_on_two_threads_lose_nothing(rt: HostRuntime) {
    let trial = turned_on_two_threads(opposite(rt, &[4, 4], 15), 20);
    trial.has_injected(48);
    all_lanes_are_cut(&trial);
    trial.settled().has_delivered(48);
}
