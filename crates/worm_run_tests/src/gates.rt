//! That workers ask their gate and run beside each other, and that a refused entry stops one.

use crate::cases::{are_equal, lane, pair};
use crate::trial::Trial;
use std::process::Abort;
use std::sync::atomic::{AtomicBool, AtomicU64, Ordering};
use std::thread;
use worm_core::OfferFault;
use worm_run::{FreeGate, Gate, Stop, StopWhy};

/// How often a worker looks for the other before it gives up.
const LOOKS: u32 = 10_000_000;

/// At turn 1 each worker raises its own flag, and then looks for the other's.
#[derive(Drop)]
struct Meeting {
    first: AtomicBool,
    second: AtomicBool,
}

impl Gate for Meeting {
    ghost use Rattle.std.specs.Prelude.{◌≡◌};

    ghost may_stop = { λ _ _ turn. turn ≡ 1 };

    ghost may_pass = { λ _ _ _. Unit {0} };

    fn pass(&self, worker: usize, turn: u64) -> bool {
        if turn != 1 {
            return true;
        }
        let (mine, other) = if worker == 0 {
            (&self.first, &self.second)
        } else {
            (&self.second, &self.first)
        };
        mine.store(true, Ordering::SeqCst);
        for _ in 0..LOOKS {
            if other.load(Ordering::SeqCst) {
                return true;
            }
            thread::yield_now();
        }
        false
    }
}

#[test]
fn two_workers_meet(rt: HostRuntime) {
    let gate = Meeting {
        first: AtomicBool::new(false),
        second: AtomicBool::new(false),
    };
    let ran = pair(rt, 2, &[17, 18]).run(2, 4, &gate);
    let trial = ran.ended(&[], &[4, 4]);
    are_equal(&rt, trial.words_at(1).get(0), Some(&17u32));
    assert!(rt; gate.first.load(Ordering::SeqCst));
    assert!(rt; gate.second.load(Ordering::SeqCst));
}

/// At each turn a worker says that it is there, and then looks for the other.
#[derive(Drop)]
struct Abreast {
    /// For how many turns the first of two workers asked.
    first: AtomicU64,
    /// The same of the second.
    second: AtomicU64,
}

impl Gate for Abreast {
    ghost may_stop = { λ _ _ _. Unit {0} };

    fn pass(&self, worker: usize, turn: u64) -> bool {
        let (mine, other) = if worker == 0 {
            (&self.first, &self.second)
        } else {
            (&self.second, &self.first)
        };
        mine.fetch_add(1, Ordering::SeqCst);
        for _ in 0..LOOKS {
            if other.load(Ordering::SeqCst) > turn {
                return true;
            }
            thread::yield_now();
        }
        false
    }
}

#[test]
fn two_workers_meet_at_each_turn(rt: HostRuntime) {
    let gate = Abreast {
        first: AtomicU64::new(0),
        second: AtomicU64::new(0),
    };
    pair(rt, 2, &[17, 18])
        .run(2, 20, &gate)
        .ended(&[], &[20, 20]);
}

/// Notes whether each of two workers asks for turn 0, 1, and so on, each once.
#[derive(Drop)]
struct Noting {
    /// For how many turns the first worker asked.
    first: AtomicU64,
    /// The same of the second.
    second: AtomicU64,
    /// Whether one asked out of turn.
    amiss: AtomicBool,
}

impl Gate for Noting {
    ghost may_stop = { λ _ _ _. ⊥ };

    fn pass(&self, worker: usize, turn: u64) -> bool {
        let asked = if worker == 0 {
            &self.first
        } else {
            &self.second
        };
        let turns = asked.fetch_add(1, Ordering::SeqCst);
        if worker > 1 || turns != turn {
            self.amiss.store(true, Ordering::SeqCst);
        }
        true
    }
}

#[test]
fn each_worker_asks_before_each_turn(rt: HostRuntime) {
    let gate = Noting {
        first: AtomicU64::new(0),
        second: AtomicU64::new(0),
        amiss: AtomicBool::new(false),
    };
    pair(rt, 2, &[17, 18])
        .run(2, 30, &gate)
        .ended(&[], &[30, 30]);
    are_equal(&rt, gate.first.load(Ordering::SeqCst), 30);
    are_equal(&rt, gate.second.load(Ordering::SeqCst), 30);
    assert!(rt; !gate.amiss.load(Ordering::SeqCst));
}

#[test]
fn a_refused_entry_stops_its_worker(rt: HostRuntime) {
    let mut trial = Trial::new(rt, &[2], 2, 1);
    trial.offer_at(1, lane(0, 5), &[1]);
    let stop = Stop {
        worker: 0,
        turn: 1,
        why: StopWhy::Refused(OfferFault::NoSuchNode),
    };
    trial.run(2, 3, &FreeGate).ended(&[stop], &[1, 3]);
}
