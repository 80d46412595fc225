//! Parts that take turns: worked cases.

ghost use Rattle.std.specs.Prelude.{◌≡◌, ◌<◌, vec_len};
ghost use Rattle.worm_split.specs.Joins.{AreParts};

use crate::cases::{are_equal, lane, pair};
use crate::parts::{joined, parts_of};
use crate::trial::Trial;
use std::process::Abort;
use std::sync::Wait;
use worm_core::{LinkState, Place, Script};
use worm_run::Part;

/// The worker takes these turns, from turn 0 on. False where one was ended by a fault.
fn take_turns<R: Wait>(
    rt: &R,
    parts: &mut Vec<Part>,
    worker: usize,
    turns: u64,
    script: &Script,
) -> bool
    requires there { worker < vec_len parts.old }
    requires parts { AreParts parts.old.items }
    ensures count { vec_len parts.new ≡ vec_len parts.old }
    ensures parts { AreParts parts.new.items }
{
    for turn in 0..turns {
        let part = &mut parts[worker];
        if part.turn(rt, turn, script).is_err() {
            return false;
        }
    }
    true
}

/// The network after so many turns of the first of two workers, and then so many of the second.
fn took<R: Abort + AllocGlobal + Copy + Wait>(
    trial: Trial<R>,
    first: u64,
    second: u64,
) -> Trial<R> {
    let (rt, net, script) = trial.into_inner();
    let mut parts = parts_of(&rt, net, 2);
    assert!(rt; take_turns(&rt, &mut parts, 0, first, &script));
    assert!(rt; take_turns(&rt, &mut parts, 1, second, &script));
    let net = joined(&rt, parts);
    Trial { rt, net, script }
}

/// The number of credits on the first link, and the channel of the front one.
fn credits<R: Abort + AllocGlobal + Copy>(trial: Trial<R>) -> (usize, Option<u8>) {
    let (rt, net, _script) = trial.into_inner();
    let parts = net.into_parts();
    match parts.links.get(0) {
        Some(link) => {
            let LinkState { flits: _, credits } = link;
            (credits.len(), credits.front().copied())
        }
        None => panic!(rt; "no link"),
    }
}

#[test]
fn a_part_alone_fills_the_link(rt: HostRuntime) {
    let trial = took(pair(rt, 1, &[1, 2, 3, 4]), 3, 0);
    let link = Place::Link {
        node: 0,
        port: 1,
        vc: 0,
    };
    let buffer = Place::Buffer {
        node: 0,
        port: 2,
        vc: 0,
    };
    let expected = [
        (0, link),
        (1, buffer),
        (2, Place::Source),
        (3, Place::Source),
    ];
    trial.has_words(1, &[]);
    trial.has_come(lane(0, 1), 0);
    trial.stands(lane(0, 1), &expected);
}

#[test]
fn the_other_part_takes_what_came(rt: HostRuntime) {
    let trial = took(pair(rt, 1, &[1, 2, 3, 4]), 3, 3);
    let buffer = Place::Buffer {
        node: 0,
        port: 2,
        vc: 0,
    };
    let expected = [(1, buffer), (2, Place::Source), (3, Place::Source)];
    trial.has_words(1, &[1]);
    trial.has_come(lane(0, 1), 1);
    trial.stands(lane(0, 1), &expected);
    are_equal(&rt, credits(trial), (1, Some(0)));
}

#[test]
fn links_by_one_port_do_not_hold_up_one_another(rt: HostRuntime) {
    let mut trial = Trial::new(rt, &[2, 2], 2, 1);
    trial.offer_at(0, lane(0, 1), &[5]);
    trial.offer_at(1, lane(2, 3), &[6]);
    let trial = took(trial, 2, 1);
    trial.has_words(1, &[5]);
    trial.has_words(3, &[6]);
}
