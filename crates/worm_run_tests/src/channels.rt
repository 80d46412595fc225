//! Packets of a class with two channels: on two parts, turn by turn, and by two workers, whatever the schedule.

ghost use Rattle.std.specs.Prelude.{◌≡◌, vec_len};
ghost use Rattle.worm_split.specs.Joins.{AreParts};

use crate::cases::{are_equal, lane};
use crate::parts::{joined, parts_of};
use crate::trial::Trial;
use std::process::Abort;
use std::sync::Wait;
use std::thread::Threads;
use worm_core::Script;
use worm_flit::{Flit, Lane};
use worm_run::{FreeGate, Part};

/// Every worker takes the turn, one after another. False where a fault ended one.
fn all_take<R: Wait>(rt: &R, parts: &mut Vec<Part>, turn: u64, script: &Script) -> bool
    requires { AreParts parts.old.items }
    ensures count { vec_len parts.new ≡ vec_len parts.old }
    ensures parts { AreParts parts.new.items }
{
    for worker in 0..parts.len() {
        let part = &mut parts[worker];
        if part.turn(rt, turn, script).is_err() {
            return false;
        }
    }
    true
}

/// The turns below this number, all workers in each before the next.
fn all_take_turns<R: Wait>(rt: &R, parts: &mut Vec<Part>, turns: u64, script: &Script) -> bool
    requires { AreParts parts.old.items }
    ensures { AreParts parts.new.items }
{
    for turn in 0..turns {
        if !all_take(rt, parts, turn, script) {
            return false;
        }
    }
    true
}

/// The words of a packet, which no other packet has.
fn words_of(src: u8, number: u16) -> [u32; 3] {
    let first = u32::from(src) * 1_000 + u32::from(number) * 10;
    [first, first + 1, first + 2]
}

/// Nodes in a row, whose class has two channels, and 50 packets of three words for the last of them: in each of 25
/// turns one from each of the first two.
fn row<R: Abort + AllocGlobal + Copy>(rt: R, radix: u8, last: u8) -> Trial<R> {
    let mut trial = Trial::new(rt, &[radix], 2, 2);
    for number in 0u16..25 {
        let turn = u32::from(number);
        trial.offer_at(turn, lane(0, last), &words_of(0, number));
        trial.offer_at(turn, lane(1, last), &words_of(1, number));
    }
    trial
}

/// Whether the packet's words are there in their order, each once.
fn came_whole(flits: &[Flit], lane: Lane, number: u16) -> bool {
    let words = words_of(lane.src, number);
    let mut next = 0u8;
    for flit in flits {
        if flit.lane == lane && flit.packet == number {
            if next >= 3 || flit.index != next || flit.word != words[usize::from(next)] {
                return false;
            }
            next += 1;
        }
    }
    next == 3
}

/// Whether some packet's words are parted by those of another.
fn are_mixed(flits: &[Flit]) -> bool {
    for i in 1..flits.len() {
        let last = flits[i - 1];
        let here = flits[i];
        if last.index < 2 && (here.lane != last.lane || here.packet != last.packet) {
            return true;
        }
    }
    false
}

/// The network after so many turns of each of two workers.
fn both_took<R: Abort + AllocGlobal + Copy + Wait>(trial: Trial<R>, turns: u64) -> Trial<R> {
    let (rt, net, script) = trial.into_inner();
    let mut parts = parts_of(&rt, net, 2);
    assert!(rt; all_take_turns(&rt, &mut parts, turns, &script));
    let net = joined(&rt, parts);
    Trial { rt, net, script }
}

/// Whether all of the row's 50 packets are there, each whole.
fn all_came_whole(flits: &[Flit], last: u8) -> bool {
    for number in 0u16..25 {
        let first = came_whole(flits, lane(0, last), number);
        if !first || !came_whole(flits, lane(1, last), number) {
            return false;
        }
    }
    true
}

/// The flits are those of the row's 50 packets, and no others.
fn are_all(rt: &impl Abort, flits: &[Flit], last: u8) {
    are_equal(rt, flits.len(), 150);
    assert!(rt; all_came_whole(flits, last));
}

#[test]
fn each_packet_comes_whole(rt: HostRuntime) {
    let trial = both_took(row(rt, 4, 3), 400);
    let flits = trial.flits_at(3);
    are_all(&rt, flits, 3);
    assert!(rt; are_mixed(flits));
}

/// Puts the lane's flits under way behind the others.
fn put_under_way<R: Abort + AllocGlobal + Copy>(
    trial: &Trial<R>,
    lane: Lane,
    flits: &mut Vec<Flit>,
) {
    for held in &trial.view(lane).underway {
        flits.push(held.flit).expect(&trial.rt, "memory");
    }
}

/// What came to the last node, followed by what is under way to it from each of the first two.
fn sent_to<R: Abort + AllocGlobal + Copy>(trial: &Trial<R>, last: u8) -> Vec<Flit> {
    let came = trial.flits_at(last);
    let mut flits = Vec::from_slice(trial.rt.alloc(), came).expect(&trial.rt, "memory");
    put_under_way(trial, lane(0, last), &mut flits);
    put_under_way(trial, lane(1, last), &mut flits);
    flits
}

/// Two nodes after 30 turns of each of two workers on threads of their own. All 50 packets were accepted, and one flit
/// a turn was delivered at most.
fn both_ran<R: Abort + AllocGlobal + Copy + Threads + Wait + Sync>(rt: R) -> Trial<R> {
    let ran = row(rt, 2, 1).run(2, 30, &FreeGate);
    let trial = ran.ended(&[], &[30, 30]);
    trial.has_injected(150);
    assert!(rt; trial.flits_at(1).len() <= 30);
    trial
}

#[test]
fn two_workers_keep_each_packet_whole(rt: HostRuntime) {
    let trial = both_ran(rt);
    are_all(&rt, sent_to(&trial, 1).as_slice(), 1);
    let trial = trial.settled();
    are_all(&rt, trial.flits_at(1), 1);
}

/// Two nodes of two workers, and 50 packets of three words, all of which cross the link between them: two a turn.
fn crossing<R: Abort + AllocGlobal + Copy>(rt: R) -> Trial<R> {
    let mut trial = Trial::new(rt, &[2], 2, 2);
    for number in 0u16..50 {
        trial.offer_at(u32::from(number / 2), lane(0, 1), &words_of(0, number));
    }
    trial
}

/// The flits are those of the 50 packets that cross, each whole, and no others.
fn have_crossed(rt: &impl Abort, flits: &[Flit]) {
    are_equal(rt, flits.len(), 150);
    for number in 0u16..50 {
        assert!(rt; came_whole(flits, lane(0, 1), number));
    }
}

#[test]
fn fifty_packets_cross_whole(rt: HostRuntime) {
    let trial = crossing(rt).run(2, 30, &FreeGate).ended(&[], &[30, 30]);
    trial.has_injected(150);
    have_crossed(&rt, sent_to(&trial, 1).as_slice());
    let trial = trial.settled();
    have_crossed(&rt, trial.flits_at(1));
}
