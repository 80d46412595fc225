//! Worked reports: two nodes in a line, one class, one channel.

use crate::cases::are_equal;
use std::alloc::Global;
use std::process::Abort;
use worm_cases::TWO_NODES;
use worm_core::Place;
use worm_flit::Lane;
use worm_rows::{Load, PacketId, Row, Shape, read_report};
use worm_text::{TextFault, Why, read_network};

const REPORT: &[u8] = b"wormreport 1\n\
      turns 1 workers 1 drain 0\n\
      delivered 0 from 1 class 0 packet 0 flit 0 word 17\n\
      underway 1 0 class 0 packet 0 flit 1 link 1 0 0\n\
      underway 1 0 class 0 packet 1 flit 0 source\n\
      not offered 0\n\
      total injected 3 delivered 1 underway 2\n";

fn fault_of(alloc: Global, text: &[u8]) -> Option<TextFault> {
    let config = read_network(TWO_NODES).ok()?;
    match read_report(alloc, text, &Shape::of(&config)) {
        Ok(_) => None,
        Err(fault) => Some(fault),
    }
}

fn rows_of(alloc: Global, text: &[u8]) -> Option<Vec<Row>> {
    let config = read_network(TWO_NODES).ok()?;
    read_report(alloc, text, &Shape::of(&config)).ok()
}

/// The lane from node 1 to node 0.
const BACK: Lane = Lane {
    src: 1,
    dst: 0,
    class: 0,
};

const FIRST: PacketId = PacketId {
    lane: BACK,
    number: 0,
};

const SECOND: PacketId = PacketId {
    lane: BACK,
    number: 1,
};

const OUT: Place = Place::Link {
    node: 1,
    port: 0,
    vc: 0,
};

/// The rows of the report.
const ROWS: &[Row] = &[
    Row::Header,
    Row::Options {
        turns: 1,
        workers: 1,
        drain: 0,
    },
    Row::Delivered {
        packet: FIRST,
        load: Load::Word { index: 0, word: 17 },
    },
    Row::Underway {
        packet: FIRST,
        index: 1,
        place: OUT,
    },
    Row::Underway {
        packet: SECOND,
        index: 0,
        place: Place::Source,
    },
    Row::NotOffered { entries: 0 },
    Row::Total {
        delivered: 1,
        underway: 2,
    },
];

#[test]
fn rows_of_a_report(rt: HostRuntime) {
    let rows = rows_of(rt.alloc(), REPORT);
    assert!(rt; rows.is_some_and(|rows| rows.as_slice() == ROWS));
}

/// The text has this fault.
fn is_refused<R: Abort + AllocGlobal>(rt: &R, text: &[u8], line: u32, why: Why) {
    are_equal(
        rt,
        fault_of(rt.alloc(), text),
        Some(TextFault { line, why }),
    );
}

#[test]
fn faults_of_lines(rt: HostRuntime) {
    is_refused(&rt, b"", 1, Why::NoEnd);
    is_refused(&rt, b"wormreport 2\n", 1, Why::Range);
    is_refused(&rt, b"wormreport 1\nnot offered 0\n", 2, Why::Missing);
    is_refused(&rt, b"wormreport 1\nwormreport 1\n", 2, Why::Repeated);
    let lost = b"wormreport 1\nturns 1 workers 1 drain 0\nlost 3\n";
    is_refused(&rt, lost, 3, Why::UnknownWord);
}

const OPENING: &[u8] = b"wormreport 1\nturns 1 workers 1 drain 0\n";

/// The opening, and then these rows.
fn behind_opening<R: Abort + AllocGlobal>(rt: &R, rest: &[u8]) -> Vec<u8> {
    let mut text = Vec::from_slice(rt.alloc(), OPENING).expect(rt, "memory");
    text.extend_from_slice(rest).expect(rt, "memory");
    text
}

/// The rows have this fault behind an opening of two lines.
fn are_refused<R: Abort + AllocGlobal>(rt: &R, rest: &[u8], line: u32, why: Why) {
    let text = behind_opening(rt, rest);
    is_refused(rt, text.as_slice(), line, why);
}

/// Rows with a place, a class or a node that two nodes with one channel do not have.
const OUT_OF_RANGE: &[&[u8]] = &[
    b"underway 1 0 class 0 packet 0 flit 0 buffer 1 1 0\n",
    b"underway 1 0 class 0 packet 0 flit 0 link 1 2 0\n",
    b"underway 1 0 class 1 packet 0 flit 0 source\n",
    b"delivered 2 from 1 class 0 packet 0 close\n",
];

#[test]
fn places_that_the_network_does_not_have(rt: HostRuntime) {
    for row in OUT_OF_RANGE {
        are_refused(&rt, row, 3, Why::Range);
    }
}

#[test]
fn sums_that_are_not_those_of_the_rows(rt: HostRuntime) {
    let rows = b"not offered 0\ntotal injected 1 delivered 1 underway 0\n";
    are_refused(&rt, rows, 4, Why::Range);
    let rows = b"not offered 0\ntotal injected 0 delivered 0 underway 0\nx";
    are_refused(&rt, rows, 5, Why::AfterEnd);
}
