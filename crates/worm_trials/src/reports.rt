//! Reports, of which one wants memory.

ghost use Rattle.std.specs.Prelude.{◌<◌};

use crate::cases::{Case, opposite, two_words, words_of};
use crate::seen::Seen;
use crate::turns::{take, take_all};
use std::alloc::Global;
use worm_core::Net;
use worm_report::{ReportFault, Summary, write_report};

/// The report of two words for node 1 after one turn.
const HALF_WAY: &[u8] = b"wormreport 1\n\
      turns 1 workers 1 drain 0\n\
      delivered 1 from 0 class 0 packet 0 flit 0 word 17\n\
      underway 0 1 class 0 packet 0 flit 1 source\n\
      not offered 0\n\
      total injected 2 delivered 1 underway 1\n";

/// The most bytes of a report here.
pub const MOST: usize = 8192;

/// A report that went out, or a first part of it, and what was seen of that.
#[derive(Clone, Copy)]
pub struct Text {
    bytes: [u8; MOST],
    count: usize,
    seen: Seen,
}

impl Text {
    /// What went out.
    fn as_bytes(&self) -> &[u8] {
        self.bytes.get(..self.count).unwrap_or(&[])
    }

    /// The text is the one that is wanted.
    fn is(&self, wanted: &[u8]) -> Seen {
        self.seen.only_if(self.as_bytes() == wanted)
    }

    /// Both are the same text.
    pub fn is_again(&self, other: &Text) -> Seen {
        self.is(other.as_bytes()).and(other.seen)
    }
}

/// What is said of a run of so many turns by so many workers, which was not stopped and took the whole traffic.
pub fn summary(turns: u64, workers: usize, drain: u64) -> Summary {
    Summary {
        turns,
        workers,
        drain,
        stops: [None; 16],
        not_offered: 0,
    }
}

/// What an answer to a report shows.
fn seen_in(answer: Result<(), ReportFault>) -> Seen {
    match answer {
        Ok(()) => Seen::Whole,
        Err(ReportFault::NoMemory) => Seen::Refused,
        Err(ReportFault::Write) => Seen::Wrong,
    }
}

/// Writes a report once.
fn write(alloc: Global, net: &Net, summary: &Summary) -> Text {
    let mut bytes = [0u8; MOST];
    let mut out = bytes.as_mut_slice();
    let seen = seen_in(write_report(alloc, net, summary, &mut out));
    let count = MOST.saturating_sub(out.len());
    Text { bytes, count, seen }
}

/// The report that a second call writes where memory is refused: what had gone out before is a first part of it.
fn write_again(alloc: Global, net: &Net, summary: &Summary, first: &[u8]) -> Text {
    let mut whole = write(alloc, net, summary);
    let good = whole.seen.is_whole() && whole.as_bytes().starts_with(first);
    whole.seen = Seen::Refused.only_if(good);
    whole
}

/// The report, where memory is refused by a second call.
pub fn report(alloc: Global, net: &Net, summary: &Summary) -> Text {
    let first = write(alloc, net, summary);
    if first.seen.is_refused() {
        write_again(alloc, net, summary, first.as_bytes())
    } else {
        first
    }
}

/// The report of a network after one turn of one worker.
fn judge_half_way(alloc: Global, case: &mut Case) -> Seen {
    let turn = take(&mut case.net, 0, &case.script);
    if turn.is_whole() {
        report(alloc, &case.net, &summary(1, 1, 0)).is(HALF_WAY)
    } else {
        turn
    }
}

/// One word arrived and one waits: a line of each kind but marks and stops.
pub fn half_way(alloc: Global) -> Seen {
    match two_words(alloc) {
        Ok(mut case) => judge_half_way(alloc, &mut case),
        Err(seen) => seen,
    }
}

/// Adds the lines of what arrived at one of sixteen nodes: the three words of the node opposite. False where there was
/// no room.
fn add_arrived(text: &mut String, node: u8) -> bool
    requires { node < 16 }
{
    let from = 15 - node;
    let mut good = true;
    for (flit, word) in words_of(from).iter().enumerate() {
        good &= write!(
            text,
            "delivered {node} from {from} class 0 packet 0 flit {flit} word {word}\n"
        )
        .is_ok();
    }
    good
}

/// Adds the report of sixteen nodes of which each has the three words of the node opposite, as the rules of the report
/// say it. False where there was no room.
fn add_report(text: &mut String) -> bool {
    let mut good = text
        .push_str("wormreport 1\nturns 50 workers 4 drain 10000\n")
        .is_ok();
    for node in 0u8..16 {
        good &= add_arrived(text, node);
    }
    let total = "not offered 0\ntotal injected 48 delivered 48 underway 0\n";
    good & text.push_str(total).is_ok()
}

/// The report of the network after 50 turns is this text.
fn judge_arrived(alloc: Global, case: &mut Case, wanted: &str) -> Seen {
    let turns = take_all(&mut case.net, 0, 50, &case.script);
    if turns.is_whole() {
        report(alloc, &case.net, &summary(50, 4, 10_000)).is(wanted.as_bytes())
    } else {
        turns
    }
}

/// The same for sixteen nodes, each with three words for the node opposite.
fn judge_opposite(alloc: Global, wanted: &str) -> Seen {
    match opposite(alloc) {
        Ok(mut case) => judge_arrived(alloc, &mut case, wanted),
        Err(seen) => seen,
    }
}

/// All words of sixteen nodes have arrived.
pub fn all_arrived(alloc: Global) -> Seen {
    match String::with_capacity(alloc, MOST) {
        Ok(mut wanted) => {
            let good = add_report(&mut wanted);
            judge_opposite(alloc, wanted.as_str()).only_if(good)
        }
        Err(_) => Seen::Refused,
    }
}
