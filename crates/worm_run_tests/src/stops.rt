//! A gate stops one worker: nothing is lost wherever it does, and the network goes on, on one thread and by workers.

use crate::cases::{are_equal, opposite, pair, words_of};
use crate::trial::Trial;
use std::process::Abort;
use std::sync::Wait;
use std::thread::Threads;
use worm_flit::Flit;
use worm_run::{FreeGate, Gate, Stop, StopWhy};

/// Stops one worker at one turn.
#[derive(Clone, Copy, Debug)]
struct StopsAt {
    worker: usize,
    turn: u64,
}

impl StopsAt {
    /// The stop that it is the cause of.
    fn stop(self) -> Stop {
        Stop {
            worker: self.worker,
            turn: self.turn,
            why: StopWhy::Gate,
        }
    }
}

impl Gate for StopsAt {
    ghost use Rattle.std.specs.Prelude.{◌≡◌};

    ghost may_stop = { λ g worker turn. (worker ≡ g.worker) × (turn ≡ g.turn) };

    ghost may_pass = { λ g worker turn. (worker ≡ g.worker) × (turn ≡ g.turn) → ⊥ };

    fn pass(&self, worker: usize, turn: u64) -> bool {
        worker != self.worker || turn != self.turn
    }
}

/// What each of sixteen nodes sent is on its way or there, in order: three words, but that a node of a worker that was
/// stopped before its first turn has sent none.
fn all_cut<R: Abort + AllocGlobal + Copy>(trial: &Trial<R>, gate: StopsAt) -> bool {
    for src in 0u8..16 {
        let words = trial.words_to(src, 15 - src);
        let silent = gate.turn == 0 && usize::from(src % 4) == gate.worker;
        let sent = words.as_slice() == words_of(src).as_slice();
        let good = if silent { words.is_empty() } else { sent };
        if !good {
            return false;
        }
    }
    true
}

/// How many turns each of four workers ends of 50, of which the gate stops one before its turn.
fn turns_until(gate: StopsAt) -> [u64; 4] {
    let mut turns = [50; 4];
    if gate.worker < turns.len() {
        turns[gate.worker] = gate.turn;
    }
    turns
}

/// Sixteen nodes run by four workers of which one is stopped: it alone stops, and nothing is lost.
fn one_stops<R: Abort + AllocGlobal + Copy + Threads + Wait + Sync>(rt: R, gate: StopsAt) {
    let ran = opposite(rt, &[4, 4], 15).run(4, 50, &gate);
    let trial = ran.ended(&[gate.stop()], &turns_until(gate));
    assert!(rt; all_cut(&trial, gate), "{gate:?}");
    let sent = if gate.turn == 0 { 36u64 } else { 48 };
    trial.has_in_lanes(sent);
    let totals = trial.settled().totals();
    let sent = (gate.stop(), u128::from(sent));
    are_equal(&rt, (gate.stop(), totals.injected), sent);
    are_equal(&rt, (gate.stop(), totals.delivered), sent);
}

#[test]
fn each_worker_stops_at_each_turn(rt: HostRuntime) {
    for worker in 0usize..4 {
        for turn in 0u64..=20 {
            one_stops(rt, StopsAt { worker, turn });
        }
    }
}

/// Four words for the second of two nodes, whose worker is stopped at turn 2: the network, of which two words at most
/// were delivered.
fn stopped_early<R: Abort + AllocGlobal + Copy + Threads + Wait + Sync>(rt: R) -> Trial<R> {
    let gate = StopsAt { worker: 1, turn: 2 };
    let ran = pair(rt, 1, &[1, 2, 3, 4]).run(2, 10, &gate);
    let trial = ran.ended(&[gate.stop()], &[10, 2]);
    assert!(rt; trial.words_at(1).len() <= 2);
    are_equal(
        &rt,
        trial.words_to(0, 1).as_slice(),
        [1, 2, 3, 4].as_slice(),
    );
    trial
}

/// A hundred turns on one thread, without traffic, deliver the four words.
fn hundred_turns_deliver<R: Abort + AllocGlobal + Copy>(trial: Trial<R>) {
    let mut trial = trial.without_traffic();
    trial.turns(0, 100);
    trial.has_words(1, &[1, 2, 3, 4]);
}

#[test]
fn a_stopped_network_goes_on(rt: HostRuntime) {
    hundred_turns_deliver(stopped_early(rt));
}

/// The flits that were delivered to the second of two nodes.
fn arrived<R: Abort + AllocGlobal + Copy>(trial: &Trial<R>) -> Vec<Flit> {
    Vec::from_slice(trial.rt.alloc(), trial.flits_at(1)).expect(&trial.rt, "memory")
}

#[test]
fn a_stopped_network_is_run_again(rt: HostRuntime) {
    let trial = stopped_early(rt).without_traffic();
    let before = arrived(&trial);
    let trial = trial.run(2, 100, &FreeGate).ended(&[], &[100, 100]);
    let after = arrived(&trial);
    assert!(rt; after.as_slice().starts_with(before.as_slice()));
    hundred_turns_deliver(trial);
}
