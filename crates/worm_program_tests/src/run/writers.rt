//! Whole runs whose writer fails after so many bytes, or takes a byte or a changing number in a call.

use crate::run::cases::{Ran, SHALLOW, gives, has_status};
use crate::run::workers::{comes_up, runs};
use std::alloc::Global;
use std::process::Abort;
use std::sync::Wait;
use std::sync::atomic::{AtomicBool, Ordering};
use std::thread::Threads;
use worm_cases::{TWO_NODES, TWO_WORDS, Taking, WORD_AND_MARK};
use worm_program::ProgramFault;
use worm_run::Gate;

/// Stops worker 1 at turn 2, and keeps the two workers apart, so that one report alone can be: worker 0 takes its turns
/// below 9, then worker 1 its two, then worker 0 its last.
#[derive(Drop)]
struct InTurn {
    /// Worker 0 has come to turn 9.
    first: AtomicBool,
    /// Worker 1 has come to turn 2.
    second: AtomicBool,
}

impl InTurn {
    fn new() -> InTurn {
        InTurn {
            first: AtomicBool::new(false),
            second: AtomicBool::new(false),
        }
    }
}

impl Gate for InTurn {
    ghost use Rattle.std.specs.Prelude.{◌≡◌};

    ghost may_stop = { λ _ _ turn. turn ≡ 1 → ⊥ };

    ghost may_pass = { λ _ _ _. Unit {0} };

    fn pass(&self, worker: usize, turn: u64) -> bool {
        match (worker, turn) {
            (0, 9) => {
                self.first.store(true, Ordering::SeqCst);
                comes_up(&self.second)
            }
            (1, 0) => comes_up(&self.first),
            (1, 2) => {
                self.second.store(true, Ordering::SeqCst);
                false
            }
            _ => true,
        }
    }
}

/// Two texts, how many turns and workers run them, and the report.
#[derive(Clone, Copy)]
struct Worked {
    texts: (&'static [u8], &'static [u8]),
    turns: u64,
    workers: usize,
    report: &'static str,
}

/// A word arrived and one waits.
const HALF_WAY: Worked = Worked {
    texts: (TWO_NODES, TWO_WORDS),
    turns: 1,
    workers: 1,
    report: "wormreport 1\n\
     turns 1 workers 1 drain 0\n\
     delivered 1 from 0 class 0 packet 0 flit 0 word 17\n\
     underway 0 1 class 0 packet 0 flit 1 source\n\
     not offered 0\n\
     total injected 2 delivered 1 underway 1\n",
};

/// A word arrived, and the mark behind it waits.
const CLOSING: Worked = Worked {
    texts: (TWO_NODES, WORD_AND_MARK),
    turns: 1,
    workers: 1,
    report: "wormreport 1\n\
     turns 1 workers 1 drain 0\n\
     delivered 1 from 0 class 0 packet 0 flit 0 word 5\n\
     underway 0 1 class 0 packet 1 flit 0 source\n\
     not offered 0\n\
     total injected 2 delivered 1 underway 1\n",
};

/// Both arrived.
const CLOSED: Worked = Worked {
    texts: (TWO_NODES, WORD_AND_MARK),
    turns: 2,
    workers: 1,
    report: "wormreport 1\n\
     turns 2 workers 1 drain 0\n\
     delivered 1 from 0 class 0 packet 0 flit 0 word 5\n\
     delivered 1 from 0 class 0 packet 1 close\n\
     not offered 0\n\
     total injected 2 delivered 2 underway 0\n",
};

/// Worker 0 sends a word in its first turn, and the next fills the buffer that its source feeds. Worker 1 delivers the
/// word and gives a credit for it, with which worker 0 sends the next in its last turn.
const STOPPED: Worked = Worked {
    texts: (SHALLOW, b"wormtraffic 1\nsend 0 0 1 data 1 2 3 4\nend\n"),
    turns: 10,
    workers: 2,
    report: "wormreport 1\n\
     turns 10 workers 2 drain 0\n\
     stopped worker 1 turn 2\n\
     delivered 1 from 0 class 0 packet 0 flit 0 word 1\n\
     underway 0 1 class 0 packet 0 flit 1 link 0 1 0\n\
     underway 0 1 class 0 packet 0 flit 2 source\n\
     underway 0 1 class 0 packet 0 flit 3 source\n\
     not offered 0\n\
     total injected 4 delivered 1 underway 3\n",
};

/// What the run answers to a writer, and what the writer has taken.
fn given<R: Threads + Wait + Sync>(
    rt: &R,
    alloc: Global,
    worked: &Worked,
    room: usize,
    more: usize,
) -> Ran {
    let mut out = Taking {
        taken: Vec::new(alloc),
        room,
        next: 1,
        more,
    };
    let options = (worked.turns, worked.workers, 0);
    let answer = runs(rt, alloc, worked.texts, options, &InTurn::new(), &mut out);
    let Taking { taken, .. } = out;
    Ran {
        answer,
        report: taken,
    }
}

/// A writer that fails within the report has taken what it had room for, however much that is.
fn is_cut_short(rt: &(impl Abort + Threads + Wait + Sync), alloc: Global, worked: &Worked) {
    for room in 0..worked.report.len() {
        let ran = given(rt, alloc, worked, room, 1);
        let fits = &worked.report.as_bytes()[..room];
        gives(rt, &ran, Err(ProgramFault::Write), fits);
    }
}

/// A writer that takes a byte in each call gets the whole report, and so does one that takes more in each.
fn is_got_in_pieces(rt: &(impl Abort + Threads + Wait + Sync), alloc: Global, worked: &Worked) {
    for more in [0, 1] {
        let ran = given(rt, alloc, worked, usize::MAX, more);
        gives(rt, &ran, Ok(()), worked.report.as_bytes());
    }
}

#[test]
fn writers_that_fail_have_taken_what_fits(rt: HostRuntime) {
    for worked in [HALF_WAY, CLOSING, CLOSED, STOPPED] {
        is_cut_short(&rt, rt.alloc(), &worked);
    }
    has_status(&rt, ProgramFault::Write, 8);
}

#[test]
fn writers_that_take_little_get_all(rt: HostRuntime) {
    for worked in [HALF_WAY, CLOSING, CLOSED, STOPPED] {
        is_got_in_pieces(&rt, rt.alloc(), &worked);
    }
}
