//! Runs by several workers: whole reports, and too many workers.

ghost use Rattle.std.specs.Prelude.{IfSome};
ghost use Rattle.worm_words.specs.Ranges.{InRange};

use crate::run::cases::{Ran, answers, are_equal, gives, is_fault, is_told};
use std::alloc::Global;
use std::io::Write;
use std::process::Abort;
use std::sync::Wait;
use std::sync::atomic::{AtomicBool, AtomicU64, Ordering};
use std::test::Fail;
use std::thread;
use std::thread::Threads;
use worm_cases::{SIXTEEN_NODES, TWO_NODES, TWO_WORDS};
use worm_program::{Options, ProgramFault, run_texts};
use worm_run::{FreeGate, Gate};

/// How often a worker looks for the other before it gives up.
const LOOKS: u32 = 10_000_000;

/// Whether the flag comes up before the last look.
pub fn comes_up(flag: &AtomicBool) -> bool {
    for _ in 0..LOOKS {
        if flag.load(Ordering::SeqCst) {
            return true;
        }
        thread::yield_now();
    }
    false
}

/// At turn 1 each worker raises its own flag, and then looks for the other's.
#[derive(Drop)]
struct Meeting {
    first: AtomicBool,
    second: AtomicBool,
}

impl Gate for Meeting {
    ghost use Rattle.std.specs.Prelude.{◌≡◌};

    ghost may_stop = { λ _ _ turn. turn ≡ 1 };

    ghost may_pass = { λ _ _ _. Unit {0} };

    fn pass(&self, worker: usize, turn: u64) -> bool {
        if turn != 1 {
            return true;
        }
        let (mine, other) = if worker == 0 {
            (&self.first, &self.second)
        } else {
            (&self.second, &self.first)
        };
        mine.store(true, Ordering::SeqCst);
        comes_up(other)
    }
}

/// The options, where they are in the program's range.
fn ranged(options: (u64, usize, u64)) -> Option<Options>
    ensures { IfSome result InRange }
{
    let (turns, workers, drain) = options;
    if turns > 1_000_000 || workers == 0 || workers > 16 || drain > 1_000_000 {
        return None;
    }
    Some(Options {
        turns,
        workers,
        drain,
    })
}

/// Runs both texts with so many turns, workers and turns of drain.
pub fn runs<R: Threads + Wait + Sync, G: Gate + Sync, W: Write>(
    rt: &R,
    alloc: Global,
    texts: (&[u8], &[u8]),
    options: (u64, usize, u64),
    gate: &G,
    out: &mut W,
) -> Result<(), ProgramFault> {
    let (mut network, mut traffic) = texts;
    match ranged(options) {
        Some(options) => run_texts(rt, alloc, &mut network, &mut traffic, &options, gate, out),
        None => Err(ProgramFault::Workers),
    }
}

/// What a run of both texts answers and writes.
pub fn run_both<R: Threads + Wait + Sync, G: Gate + Sync>(
    rt: &R,
    alloc: Global,
    texts: (&[u8], &[u8]),
    options: (u64, usize, u64),
    gate: &G,
) -> Ran {
    let mut report = Vec::new(alloc);
    let answer = runs(rt, alloc, texts, options, gate, &mut report);
    Ran { answer, report }
}

/// The text has these bytes somewhere.
fn has(text: &[u8], bytes: &[u8]) -> bool {
    for at in 0..text.len() {
        if text[at..].starts_with(bytes) {
            return true;
        }
    }
    false
}

/// Each node sends three words to the node opposite.
const OPPOSITE: &[u8] = b"wormtraffic 1\n\
     send 0 0 15 data 0 100 200\n\
     send 0 1 14 data 1 101 201\n\
     send 0 2 13 data 2 102 202\n\
     send 0 3 12 data 3 103 203\n\
     send 0 4 11 data 4 104 204\n\
     send 0 5 10 data 5 105 205\n\
     send 0 6 9 data 6 106 206\n\
     send 0 7 8 data 7 107 207\n\
     send 0 8 7 data 8 108 208\n\
     send 0 9 6 data 9 109 209\n\
     send 0 10 5 data 10 110 210\n\
     send 0 11 4 data 11 111 211\n\
     send 0 12 3 data 12 112 212\n\
     send 0 13 2 data 13 113 213\n\
     send 0 14 1 data 14 114 214\n\
     send 0 15 0 data 15 115 215\n\
     end\n";

/// All of it has arrived.
const ALL_ARRIVED: &[u8] = b"wormreport 1\n\
     turns 50 workers 4 drain 10000\n\
     delivered 0 from 15 class 0 packet 0 flit 0 word 15\n\
     delivered 0 from 15 class 0 packet 0 flit 1 word 115\n\
     delivered 0 from 15 class 0 packet 0 flit 2 word 215\n\
     delivered 1 from 14 class 0 packet 0 flit 0 word 14\n\
     delivered 1 from 14 class 0 packet 0 flit 1 word 114\n\
     delivered 1 from 14 class 0 packet 0 flit 2 word 214\n\
     delivered 2 from 13 class 0 packet 0 flit 0 word 13\n\
     delivered 2 from 13 class 0 packet 0 flit 1 word 113\n\
     delivered 2 from 13 class 0 packet 0 flit 2 word 213\n\
     delivered 3 from 12 class 0 packet 0 flit 0 word 12\n\
     delivered 3 from 12 class 0 packet 0 flit 1 word 112\n\
     delivered 3 from 12 class 0 packet 0 flit 2 word 212\n\
     delivered 4 from 11 class 0 packet 0 flit 0 word 11\n\
     delivered 4 from 11 class 0 packet 0 flit 1 word 111\n\
     delivered 4 from 11 class 0 packet 0 flit 2 word 211\n\
     delivered 5 from 10 class 0 packet 0 flit 0 word 10\n\
     delivered 5 from 10 class 0 packet 0 flit 1 word 110\n\
     delivered 5 from 10 class 0 packet 0 flit 2 word 210\n\
     delivered 6 from 9 class 0 packet 0 flit 0 word 9\n\
     delivered 6 from 9 class 0 packet 0 flit 1 word 109\n\
     delivered 6 from 9 class 0 packet 0 flit 2 word 209\n\
     delivered 7 from 8 class 0 packet 0 flit 0 word 8\n\
     delivered 7 from 8 class 0 packet 0 flit 1 word 108\n\
     delivered 7 from 8 class 0 packet 0 flit 2 word 208\n\
     delivered 8 from 7 class 0 packet 0 flit 0 word 7\n\
     delivered 8 from 7 class 0 packet 0 flit 1 word 107\n\
     delivered 8 from 7 class 0 packet 0 flit 2 word 207\n\
     delivered 9 from 6 class 0 packet 0 flit 0 word 6\n\
     delivered 9 from 6 class 0 packet 0 flit 1 word 106\n\
     delivered 9 from 6 class 0 packet 0 flit 2 word 206\n\
     delivered 10 from 5 class 0 packet 0 flit 0 word 5\n\
     delivered 10 from 5 class 0 packet 0 flit 1 word 105\n\
     delivered 10 from 5 class 0 packet 0 flit 2 word 205\n\
     delivered 11 from 4 class 0 packet 0 flit 0 word 4\n\
     delivered 11 from 4 class 0 packet 0 flit 1 word 104\n\
     delivered 11 from 4 class 0 packet 0 flit 2 word 204\n\
     delivered 12 from 3 class 0 packet 0 flit 0 word 3\n\
     delivered 12 from 3 class 0 packet 0 flit 1 word 103\n\
     delivered 12 from 3 class 0 packet 0 flit 2 word 203\n\
     delivered 13 from 2 class 0 packet 0 flit 0 word 2\n\
     delivered 13 from 2 class 0 packet 0 flit 1 word 102\n\
     delivered 13 from 2 class 0 packet 0 flit 2 word 202\n\
     delivered 14 from 1 class 0 packet 0 flit 0 word 1\n\
     delivered 14 from 1 class 0 packet 0 flit 1 word 101\n\
     delivered 14 from 1 class 0 packet 0 flit 2 word 201\n\
     delivered 15 from 0 class 0 packet 0 flit 0 word 0\n\
     delivered 15 from 0 class 0 packet 0 flit 1 word 100\n\
     delivered 15 from 0 class 0 packet 0 flit 2 word 200\n\
     not offered 0\n\
     total injected 48 delivered 48 underway 0\n";

#[test]
fn four_workers_deliver_all(rt: HostRuntime) -> Result<(), Fail> {
    let ran = run_both(
        &rt,
        rt.alloc(),
        (SIXTEEN_NODES, OPPOSITE),
        (50, 4, 10_000),
        &FreeGate,
    );
    gives(&rt, &ran, Ok(()), ALL_ARRIVED);
    Ok(())
}

/// The flag is up.
fn is_up(rt: &impl Abort, flag: &AtomicBool) {
    assert!(rt; flag.load(Ordering::SeqCst));
}

#[test]
fn two_workers_meet(rt: HostRuntime) -> Result<(), Fail> {
    let gate = Meeting {
        first: AtomicBool::new(false),
        second: AtomicBool::new(false),
    };
    let ran = run_both(&rt, rt.alloc(), (TWO_NODES, TWO_WORDS), (4, 2, 0), &gate);
    answers(&rt, ran.answer, Ok(()));
    let report = ran.report.as_slice();
    assert!(rt; !has(report, b"stopped"));
    assert!(rt;
        has(
            report,
            b"\ndelivered 1 from 0 class 0 packet 0 flit 0 word 17\n"
        )
    );
    is_up(&rt, &gate.first);
    is_up(&rt, &gate.second);
    Ok(())
}

/// Counts how often it is asked.
#[derive(Drop)]
struct Counting {
    asked: AtomicU64,
}

impl Gate for Counting {
    ghost may_stop = { λ _ _ _. ⊥ };

    fn pass(&self, _worker: usize, _turn: u64) -> bool {
        self.asked.fetch_add(1, Ordering::SeqCst);
        true
    }
}

/// So many workers, in so many turns before a drain, ask their gate so often.
fn asks<R: Threads + Wait + Sync + Abort>(rt: &R, alloc: Global, run: (usize, u64), wanted: u64) {
    let (workers, turns) = run;
    let gate = Counting {
        asked: AtomicU64::new(0),
    };
    let texts = (TWO_NODES, TWO_WORDS);
    let ran = run_both(rt, alloc, texts, (turns, workers, 10), &gate);
    answers(rt, ran.answer, Ok(()));
    are_equal(rt, gate.asked.load(Ordering::SeqCst), wanted);
}

#[test]
fn one_worker_asks_no_gate(rt: HostRuntime) {
    asks(&rt, rt.alloc(), (1, 7), 0);
}

#[test]
fn two_workers_ask_the_gate_before_each_turn(rt: HostRuntime) {
    asks(&rt, rt.alloc(), (2, 1), 2);
    asks(&rt, rt.alloc(), (2, 7), 14);
}

#[test]
fn three_workers_on_two_nodes_are_refused(rt: HostRuntime) -> Result<(), Fail> {
    let alloc = rt.alloc();
    let ran = run_both(&rt, alloc, (TWO_NODES, TWO_WORDS), (1, 3, 0), &FreeGate);
    assert!(rt; ran.report.is_empty());
    is_fault(
        &rt,
        alloc,
        ran.answer,
        2,
        "wormrun: more workers than nodes",
    )
}

#[test]
fn a_worker_that_did_not_start_is_named(rt: HostRuntime) -> Result<(), Fail> {
    let fault = ProgramFault::NotStarted { worker: 2 };
    is_told(&rt, rt.alloc(), fault, 7, "wormrun: worker 2 not started")
}
