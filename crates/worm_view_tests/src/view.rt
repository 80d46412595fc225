//! `wormview`: reports that are drawn and texts that are refused, with readers and writers that fail, and the whole
//! program.
//!
//! Each call of what is tested stands in a function of its own that promises nothing, and ends the test where it finds
//! something else than what is expected: a test that knew all that is promised would take a minute to prove.

mod waits;
mod whole;

use std::alloc::Global;
use std::fmt::Debug;
use std::io;
use std::io::{ErrorKind, Read, Write};
use std::process::Abort;
use worm_cases::{TWO_NODES, Taking};
use worm_picture::{draw_map, draw_picture};
use worm_text::{TextFault, Why};
use worm_view::{Accepted, Form, ViewFault, accept, run_view};

/// What is found is what is wanted. An `assert_eq!` is proved with all that its function holds, so that one here costs
/// less than several there.
pub fn are_equal<T: PartialEq + Debug + Drop>(rt: &impl Abort, found: T, wanted: T) {
    assert_eq!(rt; found, wanted);
}

/// A packet on its way, and one that waits.
pub const REPORT: &[u8] = b"wormreport 1\n\
      turns 1 workers 1 drain 0\n\
      underway 1 0 class 0 packet 0 flit 0 link 1 0 0\n\
      underway 1 0 class 0 packet 0 flit 1 buffer 1 2 0\n\
      underway 1 0 class 0 packet 1 flit 0 source\n\
      not offered 0\n\
      total injected 3 delivered 0 underway 3\n";

/// Its map: in the second node's injection buffer is a flit that leaves for the first.
pub const MAP: &str = "   .      1<  \n\nThe fullest buffers:\n\
     node 1 port 2 channel 0: 1 flits, at the front 1 to 0 class 0 packet 0 flit 1, which leaves by port 0 <\n";

/// A packet that fills a buffer, in a run of which a worker was stopped.
const STOPPED: &[u8] = b"wormreport 1\n\
      turns 9 workers 2 drain 0\n\
      stopped worker 1 turn 5\n\
      underway 1 0 class 0 packet 0 flit 0 buffer 1 2 0\n\
      underway 1 0 class 0 packet 0 flit 1 buffer 1 2 0\n\
      not offered 0\n\
      total injected 2 delivered 0 underway 2\n";

/// Its map.
const MAP_OF_STOPPED: &str = "   .      2<  \n\nThe fullest buffers:\n\
     node 1 port 2 channel 0: 2 flits, at the front 1 to 0 class 0 packet 0 flit 0, which leaves by port 0 <\n";

/// The fault of a text in which nothing is said.
const EMPTY: TextFault = TextFault {
    line: 1,
    why: Why::NoEnd,
};

/// A reader that fails behind so many bytes.
#[derive(Drop)]
struct Failing {
    left: usize,
}

impl Read for Failing {
    fn read(&mut self, buf: &mut [u8]) -> io::Result<usize> {
        if self.left == 0 {
            return Err(io::Error::from(ErrorKind::UnexpectedEof));
        }
        let count = self.left.min(buf.len());
        self.left -= count;
        Ok(count)
    }
}

/// The bytes are these.
fn are_bytes(rt: &impl Abort, bytes: &[u8], wanted: &[u8]) {
    are_equal(rt, bytes, wanted);
}

/// What the network and the report say.
fn accepted(rt: &impl Abort, alloc: Global, report: &[u8]) -> Accepted {
    accept(alloc, TWO_NODES, report).expect(rt, "accepted texts")
}

/// The picture of the packet on its way and the one that waits, or their map.
pub fn drawing(rt: &impl Abort, alloc: Global, text: bool) -> String {
    drawing_of(rt, alloc, REPORT, text)
}

/// The picture of the report, or its map.
fn drawing_of(rt: &impl Abort, alloc: Global, report: &[u8], text: bool) -> String {
    let accepted = accepted(rt, alloc, report);
    let rows = accepted.rows.as_slice();
    let depth = accepted.config.depth;
    let drawn = if text {
        draw_map(alloc, &accepted.shape, depth, rows)
    } else {
        draw_picture(alloc, &accepted.shape, depth, rows)
    };
    drawn.expect(rt, "a drawing")
}

/// The drawing has this part.
fn has(rt: &impl Abort, drawing: &str, part: &str) {
    assert!(rt; drawing.contains(part), "{part}");
}

/// The readers' texts are not drawn, for this fault, and nothing is written.
fn is_not_drawn<N: Read + Drop, R: Read + Drop>(
    rt: &impl Abort,
    alloc: Global,
    mut network: N,
    mut report: R,
    form: Form,
    fault: ViewFault,
) {
    let mut out = Vec::new(alloc);
    let ended = run_view(alloc, &mut network, &mut report, form, &mut out);
    are_equal(rt, ended, Err(fault));
    assert!(rt; out.is_empty());
}

/// Gives the writer the map of the report.
fn write_map<W: Write>(alloc: Global, out: &mut W) -> Result<(), ViewFault> {
    let mut network = TWO_NODES;
    let mut report = REPORT;
    run_view(alloc, &mut network, &mut report, Form::Map, out)
}

#[test]
fn a_map(rt: HostRuntime) {
    are_equal(&rt, drawing(&rt, rt.alloc(), true).as_str(), MAP);
}

#[test]
fn a_map_of_a_full_buffer(rt: HostRuntime) {
    let map = drawing_of(&rt, rt.alloc(), STOPPED, true);
    are_equal(&rt, map.as_str(), MAP_OF_STOPPED);
}

#[test]
fn a_picture_says_who_was_stopped(rt: HostRuntime) {
    let picture = drawing_of(&rt, rt.alloc(), STOPPED, false);
    has(&rt, picture.as_str(), "worker 1 stopped in turn 5");
}

/// The flit on the link is a head and that in the buffer its tail; the third waits in the source.
#[test]
fn a_picture(rt: HostRuntime) {
    let picture = drawing(&rt, rt.alloc(), false);
    let head =
        "<g><title>from 1 to 0 class 0 packet 0 flit 0, of 0 to 1</title><use href=\"#opening\"";
    let tail =
        "<g><title>from 1 to 0 class 0 packet 0 flit 1, of 0 to 1</title><use href=\"#tail\"";
    let waits = ">+1<title>1 flits wait in the source of node 1</title>";
    has(&rt, picture.as_str(), head);
    has(&rt, picture.as_str(), tail);
    has(&rt, picture.as_str(), waits);
}

#[test]
fn faults(rt: HostRuntime) {
    let alloc = rt.alloc();
    let nothing: &[u8] = &[];
    is_not_drawn(
        &rt,
        alloc,
        nothing,
        REPORT,
        Form::Picture,
        ViewFault::Network(EMPTY),
    );
    is_not_drawn(
        &rt,
        alloc,
        TWO_NODES,
        nothing,
        Form::Waits,
        ViewFault::Report(EMPTY),
    );
}

#[test]
fn readers_that_fail(rt: HostRuntime) {
    let alloc = rt.alloc();
    let (network, report) = (Failing { left: 10 }, Failing { left: 10 });
    let unread = ViewFault::ReadNetwork;
    is_not_drawn(&rt, alloc, network, REPORT, Form::Picture, unread);
    let unread = ViewFault::ReadReport;
    is_not_drawn(&rt, alloc, TWO_NODES, report, Form::Map, unread);
}

/// A writer that fails within the map has taken what it had room for, however much that is.
fn is_cut_short(rt: &impl Abort, alloc: Global, map: &str) {
    for room in 0..map.len() {
        let mut out = Taking {
            taken: Vec::new(alloc),
            room,
            next: 1,
            more: 1,
        };
        let ended = write_map(alloc, &mut out);
        are_equal(rt, ended, Err(ViewFault::Write));
        are_bytes(rt, out.taken.as_slice(), &map.as_bytes()[..room]);
    }
}

#[test]
fn writers_that_fail_have_taken_what_fits(rt: HostRuntime) {
    is_cut_short(&rt, rt.alloc(), MAP);
    are_equal(&rt, ViewFault::Write.status(), 8);
}

#[test]
fn a_writer_that_is_full(rt: HostRuntime) {
    let mut room = [0u8; 20];
    let ended = write_map(rt.alloc(), &mut room.as_mut_slice());
    are_equal(&rt, ended, Err(ViewFault::Write));
}
