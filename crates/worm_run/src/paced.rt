//! A gate by which no worker runs ahead of those beside it: while they stand still nothing comes in, and credits run
//! out. A lead of one turn would halve what a turn brings, where a buffer has room for a flit or two.

use crate::gate::Gate;
use std::array;
use std::hint::spin_loop;
use std::sync::Wait;
use std::sync::atomic::{AtomicU64, Ordering};
use std::thread::yield_now;
use std::time::Duration;

const WORKERS: usize = 16;

/// How often a worker looks at once whether one that stands still has got on: a microsecond or two.
const QUICK_LOOKS: u32 = 30;

/// After so many looks it sleeps before each further one. Before each that is not quick other threads may run.
const YIELDS: u32 = 64;

/// After so many looks at one that stands still it waits no longer: 32 sleeps.
const LOOKS: u32 = 96;

const NAP_MILLIS: u64 = 10;

/// How often it looks in all, also at one that gets on.
const MOST_LOOKS: u32 = 1_000_000_000;

const NONE: u64 = u64::MAX;

/// Fills two cache lines: no two workers write one line, nor one of the pair that a processor reads together.
#[derive(Drop)]
struct Progress {
    ended: AtomicU64,
    sleepers: AtomicU64,
    /// How many turns the worker after it had ended when last waited for in vain; then the same of the one before it.
    next_stood: AtomicU64,
    previous_stood: AtomicU64,
    _apart: [u64; 12],
}

impl Progress {
    fn new() -> Progress {
        Progress {
            ended: AtomicU64::new(0),
            sleepers: AtomicU64::new(0),
            next_stood: AtomicU64::new(NONE),
            previous_stood: AtomicU64::new(NONE),
            _apart: [0; 12],
        }
    }

    fn ended(&self) -> u64 {
        self.ended.load(Ordering::SeqCst)
    }

    fn tell(&self, turns: u64) {
        self.ended.store(turns, Ordering::SeqCst);
        if self.sleepers.load(Ordering::SeqCst) > 0 {
            self.ended.wake_all();
        }
    }

    fn sleep<R: Wait>(&self, rt: &R, ended: u64) {
        self.sleepers.fetch_add(1, Ordering::SeqCst);
        self.ended.park_timeout(
            rt,
            (ended & 0xffff_ffff) as u32,
            Duration::from_millis(NAP_MILLIS),
        );
        self.sleepers.fetch_sub(1, Ordering::SeqCst);
    }

    fn pause<R: Wait>(&self, rt: &R, looks: u32, ended: u64) {
        if looks < QUICK_LOOKS {
            spin_loop();
        } else if looks < YIELDS {
            yield_now();
        } else {
            self.sleep(rt, ended);
        }
    }

    /// Gives up where it has stood still for `LOOKS` looks. Gives back how many turns it has ended then.
    fn wait<R: Wait>(&self, rt: &R, turns: u64) -> u64 {
        let mut ended = self.ended();
        let mut looks = 0u32;
        for _ in 0..MOST_LOOKS {
            if ended >= turns || looks >= LOOKS {
                break;
            }
            self.pause(rt, looks, ended);
            let now = self.ended();
            looks = if now == ended { looks + 1 } else { 0 };
            ended = now;
        }
        ended
    }

    fn wait_again<R: Wait>(&self, rt: &R, turns: u64, stood: &AtomicU64) {
        let ended = self.ended();
        if ended >= turns || ended == stood.load(Ordering::SeqCst) {
            return;
        }
        let ended = self.wait(rt, turns);
        stood.store(if ended < turns { ended } else { NONE }, Ordering::SeqCst);
    }
}

/// A gate of one run that stops nobody. Before its turn a worker waits until both workers beside it, to whose nodes
/// the links of the first dimension lead, have ended the turn before. It waits at most a third of a second for one
/// that stands still; after a wait in vain, only once that one got on. Nothing proved rests on this.
#[derive(Drop)]
pub struct Paced<'a, R> {
    rt: &'a R,
    workers: usize,
    progress: [Progress; WORKERS],
}

impl<'a, R: Wait> Paced<'a, R> {
    /// For a run of so many workers, at most 16, none of which has taken a turn.
    pub fn new(rt: &'a R, workers: usize) -> Paced<'a, R> {
        Paced {
            rt,
            workers: workers.min(WORKERS),
            progress: array::from_fn(|_| Progress::new()),
        }
    }

    fn wait_for(&self, beside: usize, turns: u64, stood: &AtomicU64) {
        if let Some(progress) = self.progress.get(beside) {
            progress.wait_again(self.rt, turns, stood);
        }
    }
}

impl<'a, R: Wait> Gate for Paced<'a, R> {
    ghost may_stop = { λ _ _ _. ⊥ };

    fn pass(&self, worker: usize, turn: u64) -> bool {
        let last = self.workers.saturating_sub(1);
        if worker > last {
            return true;
        }
        if let Some(own) = self.progress.get(worker) {
            own.tell(turn);
            let next = if worker < last { worker + 1 } else { 0 };
            let previous = if worker == 0 { last } else { worker - 1 };
            self.wait_for(next, turn, &own.next_stood);
            if previous != next {
                self.wait_for(previous, turn, &own.previous_stood);
            }
        }
        true
    }
}
