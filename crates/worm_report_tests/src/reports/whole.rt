//! Whole reports, as the rules of the report say them.

use super::networks::{Asked, Given, Ground, summary, two_nodes};
use super::steps::{feed, grant, route, send, take};
use std::process::Abort;
use worm_cases::{TWO_CHANNELS, lane};
use worm_core::Step;
use worm_report::Summary;

/// This is the report of the network after so many turns, in which all entries were offered.
fn reports_turns<R: Abort + AllocGlobal + Copy>(rt: R, given: &Given, turns: u64, wanted: &str) {
    let ground = Ground::after_turns(rt, given, turns);
    ground.reports(&summary(turns, 0), wanted);
}

/// This is the report of the network after these steps, where this is said of the run.
fn reports_steps<R: Abort + AllocGlobal + Copy>(
    rt: R,
    given: &Given,
    steps: &[Step],
    summary: &Summary,
    wanted: &str,
) {
    let mut ground = Ground::at_start(rt, given);
    ground.does_all(steps);
    ground.reports(summary, wanted);
}

#[test]
fn no_turn_was_taken(rt: HostRuntime) {
    let wanted =
        "wormreport 1\nturns 0 workers 1 drain 0\nnot offered 1\ntotal injected 0 delivered 0 underway 0\n";
    reports_steps(rt, &two_nodes(&[]), &[], &summary(0, 1), wanted);
}

#[test]
fn one_flit_arrived_and_one_waits_at_its_source(rt: HostRuntime) {
    let asked = [Asked::Packet(lane(0, 1, 0), &[17, 18])];
    let wanted = "wormreport 1\n\
         turns 1 workers 1 drain 0\n\
         delivered 1 from 0 class 0 packet 0 flit 0 word 17\n\
         underway 0 1 class 0 packet 0 flit 1 source\n\
         not offered 0\n\
         total injected 2 delivered 1 underway 1\n";
    reports_turns(rt, &two_nodes(&asked), 1, wanted);
}

#[test]
fn the_flit_nearest_the_sink_comes_first(rt: HostRuntime) {
    let asked = [Asked::Packet(lane(1, 0, 0), &[17, 18])];
    let wanted = "wormreport 1\n\
         turns 1 workers 1 drain 0\n\
         underway 1 0 class 0 packet 0 flit 0 link 1 0 0\n\
         underway 1 0 class 0 packet 0 flit 1 source\n\
         not offered 0\n\
         total injected 2 delivered 0 underway 2\n";
    reports_turns(rt, &two_nodes(&asked), 1, wanted);
}

#[test]
fn a_mark_is_a_flit_without_a_word(rt: HostRuntime) {
    let over = lane(0, 1, 0);
    let asked = [Asked::Packet(over, &[5]), Asked::Mark(over)];
    let given = two_nodes(&asked);
    let waits = "wormreport 1\n\
         turns 1 workers 1 drain 0\n\
         delivered 1 from 0 class 0 packet 0 flit 0 word 5\n\
         underway 0 1 class 0 packet 1 flit 0 source\n\
         not offered 0\n\
         total injected 2 delivered 1 underway 1\n";
    reports_turns(rt, &given, 1, waits);
    let arrived = "wormreport 1\n\
         turns 2 workers 1 drain 0\n\
         delivered 1 from 0 class 0 packet 0 flit 0 word 5\n\
         delivered 1 from 0 class 0 packet 1 close\n\
         not offered 0\n\
         total injected 2 delivered 2 underway 0\n";
    reports_turns(rt, &given, 2, arrived);
}

#[test]
fn what_arrived_is_listed_in_its_order(rt: HostRuntime) {
    let given = Given {
        radices: &[3],
        depth: 2,
        channels: &[1, 1],
        asked: &[
            Asked::Packet(lane(0, 2, 0), &[1, 2]),
            Asked::Packet(lane(1, 2, 1), &[3, 4]),
        ],
    };
    let wanted = "wormreport 1\n\
         turns 4 workers 1 drain 0\n\
         delivered 2 from 0 class 0 packet 0 flit 0 word 1\n\
         delivered 2 from 1 class 1 packet 0 flit 0 word 3\n\
         delivered 2 from 0 class 0 packet 0 flit 1 word 2\n\
         delivered 2 from 1 class 1 packet 0 flit 1 word 4\n\
         not offered 0\n\
         total injected 4 delivered 4 underway 0\n";
    reports_turns(rt, &given, 4, wanted);
}

/// One flit of a packet is on a link, the next in the injection buffer, and the others are at the source.
#[test]
fn a_worm_stands_from_link_to_source(rt: HostRuntime) {
    let given = Given {
        radices: &[2],
        depth: 1,
        channels: &[1],
        asked: &[Asked::Packet(lane(0, 1, 0), &[1, 2, 3, 4])],
    };
    let steps = [
        feed(0, 0),
        route(0, 2, 0),
        grant(0, 2, 0, 0),
        send(0, 2, 0),
        feed(0, 0),
    ];
    let wanted = "wormreport 1\n\
         turns 3 workers 2 drain 7\n\
         stopped worker 1 turn 0\n\
         underway 0 1 class 0 packet 0 flit 0 link 0 1 0\n\
         underway 0 1 class 0 packet 0 flit 1 buffer 0 2 0\n\
         underway 0 1 class 0 packet 0 flit 2 source\n\
         underway 0 1 class 0 packet 0 flit 3 source\n\
         not offered 9\n\
         total injected 4 delivered 0 underway 4\n";
    let mut stops = [None; 16];
    stops[1] = Some(0);
    let summary = Summary {
        turns: 3,
        workers: 2,
        drain: 7,
        stops,
        not_offered: 9,
    };
    reports_steps(rt, &given, &steps, &summary, wanted);
}

/// A packet of a class with two channels overtook another, which stands in a buffer past the link.
#[test]
fn a_packet_overtook_another(rt: HostRuntime) {
    let mut ground = Ground::read(rt, TWO_CHANNELS);
    ground.asks(&Asked::Packet(lane(0, 1, 0), &[1, 2]));
    ground.asks(&Asked::Packet(lane(0, 1, 0), &[3]));
    ground.does_all(&[
        feed(0, 0),
        feed(0, 0),
        route(0, 2, 0),
        grant(0, 2, 0, 0),
        send(0, 2, 0),
        send(0, 2, 0),
        feed(0, 0),
        route(0, 2, 0),
        grant(0, 2, 0, 1),
        send(0, 2, 0),
        take(1, 0),
        take(1, 0),
        take(1, 0),
        route(1, 0, 1),
        grant(1, 0, 1, 1),
        send(1, 0, 1),
    ]);
    let wanted = "wormreport 1\n\
         turns 0 workers 1 drain 0\n\
         delivered 1 from 0 class 0 packet 1 flit 0 word 3\n\
         underway 0 1 class 0 packet 0 flit 0 buffer 1 0 0\n\
         underway 0 1 class 0 packet 0 flit 1 buffer 1 0 0\n\
         not offered 0\n\
         total injected 3 delivered 1 underway 2\n";
    ground.reports(&summary(0, 0), wanted);
}

#[test]
fn lanes_come_by_source_then_destination_then_class(rt: HostRuntime) {
    let given = Given {
        radices: &[3],
        depth: 2,
        channels: &[1, 1],
        asked: &[
            Asked::Packet(lane(1, 0, 0), &[1]),
            Asked::Packet(lane(0, 2, 1), &[2]),
            Asked::Packet(lane(0, 2, 0), &[3]),
            Asked::Packet(lane(0, 1, 1), &[4]),
        ],
    };
    let wanted = "wormreport 1\n\
         turns 0 workers 1 drain 0\n\
         underway 0 1 class 1 packet 0 flit 0 source\n\
         underway 0 2 class 0 packet 0 flit 0 source\n\
         underway 0 2 class 1 packet 0 flit 0 source\n\
         underway 1 0 class 0 packet 0 flit 0 source\n\
         not offered 0\n\
         total injected 4 delivered 0 underway 4\n";
    reports_steps(rt, &given, &[], &summary(0, 0), wanted);
}
