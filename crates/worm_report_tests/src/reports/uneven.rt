//! Reports for writers that fail after so many bytes, or take now more and now less.

use super::networks::{Asked, Ground, summary, two_nodes};
use crate::cases::are_equal;
use std::io;
use std::io::{ErrorKind, Write};
use std::process::Abort;
use worm_cases::lane;
use worm_report::{ReportFault, Summary};

/// One of two words arrived, and the other waits.
const HALF_WAY: &str = "wormreport 1\n\
     turns 1 workers 1 drain 0\n\
     delivered 1 from 0 class 0 packet 0 flit 0 word 17\n\
     underway 0 1 class 0 packet 0 flit 1 source\n\
     not offered 0\n\
     total injected 2 delivered 1 underway 1\n";

/// The word arrived, and the mark waits.
const MARK_WAITS: &str = "wormreport 1\n\
     turns 1 workers 1 drain 0\n\
     delivered 1 from 0 class 0 packet 0 flit 0 word 5\n\
     underway 0 1 class 0 packet 1 flit 0 source\n\
     not offered 0\n\
     total injected 2 delivered 1 underway 1\n";

/// Both arrived.
const MARK_ARRIVED: &str = "wormreport 1\n\
     turns 2 workers 1 drain 0\n\
     delivered 1 from 0 class 0 packet 0 flit 0 word 5\n\
     delivered 1 from 0 class 0 packet 1 close\n\
     not offered 0\n\
     total injected 2 delivered 2 underway 0\n";

/// Two of four words arrived before the second worker was stopped.
const STOPPED: &str = "wormreport 1\n\
     turns 10 workers 2 drain 0\n\
     stopped worker 1 turn 2\n\
     delivered 1 from 0 class 0 packet 0 flit 0 word 1\n\
     delivered 1 from 0 class 0 packet 0 flit 1 word 2\n\
     underway 0 1 class 0 packet 0 flit 2 source\n\
     underway 0 1 class 0 packet 0 flit 3 source\n\
     not offered 0\n\
     total injected 4 delivered 2 underway 2\n";

/// Takes 1, 2, 3, .. bytes in its calls, and fails once it has taken so many.
#[derive(Drop)]
struct Uneven {
    taken: Vec<u8>,
    /// How many bytes more it takes.
    room: usize,
    calls: usize,
}

impl Write for Uneven {
    fn write(&mut self, buf: &[u8]) -> io::Result<usize> {
        if self.room == 0 {
            return Err(io::Error::from(ErrorKind::Interrupted));
        }
        self.calls = self.calls.saturating_add(1);
        let count = self.calls.min(self.room).min(buf.len());
        match self.taken.extend_from_slice(&buf[..count]) {
            Ok(()) => {
                self.room -= count;
                Ok(count)
            }
            Err(_) => Err(io::Error::from(ErrorKind::OutOfMemory)),
        }
    }

    fn flush(&mut self) -> io::Result<()> {
        Ok(())
    }
}

/// Writes a report for such a writer with so much room. The answer, and what was taken.
fn write_uneven<R: Abort + AllocGlobal + Copy>(
    ground: &Ground<R>,
    summary: &Summary,
    room: usize,
) -> (Result<(), ReportFault>, Vec<u8>) {
    let mut out = Uneven {
        taken: Vec::new(ground.rt.alloc()),
        room,
        calls: 0,
    };
    let answer = ground.write(summary, &mut out);
    (answer, out.taken)
}

/// The answer to a writer with so much room, and what it takes: the first bytes of the report, and all where they fit.
fn first_of(whole: &[u8], room: usize) -> (Result<(), ReportFault>, &[u8]) {
    match whole.get(..room) {
        Some(first) => (Err(ReportFault::Write), first),
        None => (Ok(()), whole),
    }
}

/// A writer with so much room has exactly this answer, and takes exactly this.
fn takes_first<R: Abort + AllocGlobal + Copy>(
    ground: &Ground<R>,
    summary: &Summary,
    wanted: &str,
    room: usize,
) {
    let (answer, taken) = write_uneven(ground, summary, room);
    let told = (answer, taken.as_slice());
    are_equal(&ground.rt, told, first_of(wanted.as_bytes(), room));
}

/// A report for each room below its length, and for one above.
fn goes_out<R: Abort + AllocGlobal + Copy>(ground: &Ground<R>, summary: &Summary, wanted: &str) {
    for room in 0..wanted.len() {
        takes_first(ground, summary, wanted, room);
    }
    takes_first(ground, summary, wanted, usize::MAX);
}

/// Two words after one turn.
fn half_way<R: Abort + AllocGlobal + Copy>(rt: R) -> Ground<R> {
    let asked = [Asked::Packet(lane(0, 1, 0), &[17, 18])];
    Ground::after_turns(rt, &two_nodes(&asked), 1)
}

#[test]
fn half_a_packet_for_uneven_writers(rt: HostRuntime) {
    goes_out(&half_way(rt), &summary(1, 0), HALF_WAY);
}

/// A word and a mark after so many turns.
fn word_and_mark<R: Abort + AllocGlobal + Copy>(rt: R, turns: u64) -> Ground<R> {
    let over = lane(0, 1, 0);
    let asked = [Asked::Packet(over, &[5]), Asked::Mark(over)];
    Ground::after_turns(rt, &two_nodes(&asked), turns)
}

#[test]
fn a_mark_for_uneven_writers(rt: HostRuntime) {
    goes_out(&word_and_mark(rt, 1), &summary(1, 0), MARK_WAITS);
    goes_out(&word_and_mark(rt, 2), &summary(2, 0), MARK_ARRIVED);
}

/// Four words after two turns. Buffers hold one flit.
fn four_words<R: Abort + AllocGlobal + Copy>(rt: R) -> Ground<R> {
    let asked = [Asked::Packet(lane(0, 1, 0), &[1, 2, 3, 4])];
    let mut given = two_nodes(&asked);
    given.depth = 1;
    Ground::after_turns(rt, &given, 2)
}

#[test]
fn a_stop_for_uneven_writers(rt: HostRuntime) {
    let mut summary = summary(10, 0);
    summary.workers = 2;
    summary.stops[1] = Some(2);
    goes_out(&four_words(rt), &summary, STOPPED);
}
