//! A run by two workers of which a gate stops one: what the report says line by line, whatever the schedule.

use crate::run::cases::{SHALLOW, answers};
use crate::run::workers::run_both;
use worm_run::Gate;

/// Stops one worker at one turn.
#[derive(Clone, Copy, Debug)]
struct StopsAt {
    worker: usize,
    turn: u64,
}

impl Gate for StopsAt {
    ghost use Rattle.std.specs.Prelude.{◌≡◌};

    ghost may_stop = { λ g worker turn. (worker ≡ g.worker) × (turn ≡ g.turn) };

    ghost may_pass = { λ g worker turn. (worker ≡ g.worker) × (turn ≡ g.turn) → ⊥ };

    fn pass(&self, worker: usize, turn: u64) -> bool {
        worker != self.worker || turn != self.turn
    }
}

/// A packet of four words for the second of two nodes.
const FOUR_WORDS: &[u8] = b"wormtraffic 1\nsend 0 0 1 data 1 2 3 4\nend\n";

/// The lines of the report where no word arrived. One that ends with a space goes on with the flit's place.
const NONE_ARRIVED: &[&str] = &[
    "wormreport 1",
    "turns 10 workers 2 drain 0",
    "stopped worker 1 turn 2",
    "underway 0 1 class 0 packet 0 flit 0 ",
    "underway 0 1 class 0 packet 0 flit 1 ",
    "underway 0 1 class 0 packet 0 flit 2 ",
    "underway 0 1 class 0 packet 0 flit 3 ",
    "not offered 0",
    "total injected 4 delivered 0 underway 4",
];

/// The same where one did.
const ONE_ARRIVED: &[&str] = &[
    "wormreport 1",
    "turns 10 workers 2 drain 0",
    "stopped worker 1 turn 2",
    "delivered 1 from 0 class 0 packet 0 flit 0 word 1",
    "underway 0 1 class 0 packet 0 flit 1 ",
    "underway 0 1 class 0 packet 0 flit 2 ",
    "underway 0 1 class 0 packet 0 flit 3 ",
    "not offered 0",
    "total injected 4 delivered 1 underway 3",
];

/// The same where two did.
const TWO_ARRIVED: &[&str] = &[
    "wormreport 1",
    "turns 10 workers 2 drain 0",
    "stopped worker 1 turn 2",
    "delivered 1 from 0 class 0 packet 0 flit 0 word 1",
    "delivered 1 from 0 class 0 packet 0 flit 1 word 2",
    "underway 0 1 class 0 packet 0 flit 2 ",
    "underway 0 1 class 0 packet 0 flit 3 ",
    "not offered 0",
    "total injected 4 delivered 2 underway 2",
];

/// Whether this is the line that is wanted.
fn is_line(line: &str, wanted: &str) -> bool {
    line == wanted || wanted.ends_with(' ') && line.starts_with(wanted)
}

/// Whether these are the lines of the text, each ended by a line feed.
fn has_lines(text: &str, wanted: &[&str]) -> bool {
    let mut lines = text.lines();
    for line in wanted {
        if !lines.next().is_some_and(|found| is_line(found, line)) {
            return false;
        }
    }
    lines.next().is_none() && text.ends_with('\n')
}

/// Worker 1 delivers a word a turn, and so at most two before it is stopped. The others are under way, in their order.
#[test]
fn the_second_of_two_workers_is_stopped(rt: HostRuntime) {
    let gate = StopsAt { worker: 1, turn: 2 };
    let texts = (SHALLOW, FOUR_WORDS);
    let ran = run_both(&rt, rt.alloc(), texts, (10, 2, 0), &gate);
    answers(&rt, ran.answer, Ok(()));
    let report = str::from_utf8(ran.report.as_slice()).unwrap_or("");
    let arrived = [NONE_ARRIVED, ONE_ARRIVED, TWO_ARRIVED];
    assert!(rt;
        arrived.iter().any(|wanted| has_lines(report, wanted)),
        "{report}"
    );
}
