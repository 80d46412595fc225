//! Whole runs: everything arrives, whatever the schedule.

use crate::cases::{are_equal, opposite, pair, words_of};
use crate::trial::Trial;
use std::process::Abort;
use worm_run::FreeGate;

/// Each node up to the last has the packet of the node opposite.
fn all_arrived<R: Abort + AllocGlobal + Copy>(trial: &Trial<R>, last: u8) -> bool {
    for node in 0..=last {
        if trial.words_at(node).as_slice() != words_of(last - node).as_slice() {
            return false;
        }
    }
    true
}

/// What each node up to the last sent to the node opposite is on its way or there, in order.
fn all_on_the_way<R: Abort + AllocGlobal + Copy>(trial: &Trial<R>, last: u8) -> bool {
    for src in 0..=last {
        if trial.words_to(src, last - src).as_slice() != words_of(src).as_slice() {
            return false;
        }
    }
    true
}

#[test]
fn four_workers_deliver_all(rt: HostRuntime) {
    let ran = opposite(rt, &[4, 4], 15).run(4, 50, &FreeGate);
    let trial = ran.ended(&[], &[50, 50, 50, 50]).settled();
    assert!(rt; all_arrived(&trial, 15));
    trial.has_injected(48);
    trial.has_delivered(48);
}

#[test]
fn two_workers_lose_nothing_on_the_way(rt: HostRuntime) {
    let ran = opposite(rt, &[4, 4], 15).run(2, 20, &FreeGate);
    let trial = ran.ended(&[], &[20, 20]);
    assert!(rt; all_on_the_way(&trial, 15));
}

#[test]
fn sixteen_workers_share_256_nodes(rt: HostRuntime) {
    let ran = opposite(rt, &[16, 16], 255).run(16, 20, &FreeGate);
    let trial = ran.ended(&[], &[20; 16]).settled();
    assert!(rt; all_arrived(&trial, 255));
    trial.has_delivered(768);
}

#[test]
fn one_worker_is_enough(rt: HostRuntime) {
    let ran = pair(rt, 1, &[1, 2, 3, 4]).run(1, 4, &FreeGate);
    ran.ended(&[], &[4]).has_words(1, &[1, 2, 3, 4]);
}

#[test]
fn no_worker_and_more_than_nodes_are_refused(rt: HostRuntime) {
    let mut trial = pair(rt, 2, &[1]);
    for workers in [0usize, 3, 17] {
        trial = trial.refused(workers, 3, &FreeGate);
    }
    are_equal(&rt, trial.nodes(), 2);
    are_equal(&rt, trial.totals().accepted, 0);
}
