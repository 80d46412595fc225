//! Writers that are full, slow or broken, and memory that runs out.

use super::networks::{Asked, Ground, summary, two_nodes};
use crate::cases::are_equal;
use std::alloc::Global;
use std::io;
use std::io::{ErrorKind, Write};
use std::process::Abort;
use std::test::Fail;
use worm_cases::lane;
use worm_report::ReportFault;

/// One flit arrived, and one waits at its source.
const TEXT: &[u8] = b"wormreport 1\n\
      turns 1 workers 1 drain 0\n\
      delivered 1 from 0 class 0 packet 0 flit 0 word 17\n\
      underway 0 1 class 0 packet 0 flit 1 source\n\
      not offered 0\n\
      total injected 2 delivered 1 underway 1\n";

/// The network of this report.
fn half_way<R: Abort + AllocGlobal + Copy>(rt: R) -> Ground<R> {
    let asked = [Asked::Packet(lane(0, 1, 0), &[17, 18])];
    Ground::after_turns(rt, &two_nodes(&asked), 1)
}

/// Writes this report.
fn write_half_way<R: Abort + AllocGlobal + Copy, W: Write>(
    rt: R,
    out: &mut W,
) -> Result<(), ReportFault> {
    let ground = half_way(rt);
    ground.write(&summary(1, 0), out)
}

/// This is the answer to writing it.
fn answers<R: Abort + AllocGlobal + Copy, W: Write>(
    rt: R,
    out: &mut W,
    wanted: Result<(), ReportFault>,
) {
    are_equal(&rt, write_half_way(rt, out), wanted);
}

/// Writes this report into the room. The answer, and how many bytes went out.
fn fill<R: Abort + AllocGlobal + Copy>(rt: R, room: &mut [u8]) -> (Result<(), ReportFault>, usize) {
    let size = room.len();
    let mut out = room;
    let answer = write_half_way(rt, &mut out);
    (answer, size.saturating_sub(out.len()))
}

/// Takes one byte in a call.
#[derive(Drop)]
struct Sipping {
    taken: Vec<u8>,
}

impl Write for Sipping {
    fn write(&mut self, buf: &[u8]) -> io::Result<usize> {
        match buf {
            [] => Ok(0),
            [first, ..] => match self.taken.push(*first) {
                Ok(()) => Ok(1),
                Err(_) => Err(io::Error::from(ErrorKind::OutOfMemory)),
            },
        }
    }

    fn flush(&mut self) -> io::Result<()> {
        Ok(())
    }
}

/// Takes all, and fails to pass it on.
#[derive(Drop)]
struct Blocked;

impl Write for Blocked {
    fn write(&mut self, buf: &[u8]) -> io::Result<usize> {
        Ok(buf.len())
    }

    fn flush(&mut self) -> io::Result<()> {
        Err(io::Error::from(ErrorKind::Interrupted))
    }
}

/// Fails at its first write.
#[derive(Drop)]
struct Broken;

impl Write for Broken {
    fn write(&mut self, _buf: &[u8]) -> io::Result<usize> {
        Err(io::Error::from(ErrorKind::Interrupted))
    }

    fn flush(&mut self) -> io::Result<()> {
        Ok(())
    }
}

/// Takes all it is given, and fails from a call on.
#[derive(Drop)]
struct Pages {
    taken: Vec<u8>,
    calls: usize,
    fails_at: usize,
}

impl Write for Pages {
    fn write(&mut self, buf: &[u8]) -> io::Result<usize> {
        self.calls = self.calls.saturating_add(1);
        if self.calls > self.fails_at {
            return Err(io::Error::from(ErrorKind::Interrupted));
        }
        match self.taken.extend_from_slice(buf) {
            Ok(()) => Ok(buf.len()),
            Err(_) => Err(io::Error::from(ErrorKind::OutOfMemory)),
        }
    }

    fn flush(&mut self) -> io::Result<()> {
        Ok(())
    }
}

/// A network in which 1,700 packets of one flit wait at their source.
fn many_wait<R: Abort + AllocGlobal + Copy>(rt: R) -> Ground<R> {
    let mut ground = Ground::new(rt, &two_nodes(&[]));
    for word in 0..1700 {
        ground.asks(&Asked::Packet(lane(0, 1, 0), &[word]));
    }
    ground
}

/// The line of one of these packets.
fn waiting_line(alloc: Global, packet: u32) -> Result<String, Fail> {
    Ok(format!(in alloc; "underway 0 1 class 0 packet {packet} flit 0 source\n")?)
}

/// The report of this network.
fn many_text(alloc: Global) -> Result<Vec<u8>, Fail> {
    let mut text = Vec::from_slice(alloc, b"wormreport 1\nturns 0 workers 1 drain 0\n")?;
    for packet in 0..1700 {
        text.extend_from_slice(waiting_line(alloc, packet)?.as_bytes())?;
    }
    text.extend_from_slice(b"not offered 0\ntotal injected 1700 delivered 0 underway 1700\n")?;
    Ok(text)
}

/// What became of a report for a writer of pages.
#[derive(Drop)]
struct Paged {
    answer: Result<(), ReportFault>,
    gone: Vec<u8>,
    calls: usize,
}

/// Writes the report of this network for a writer that fails from a call on.
fn write_pages<R: Abort + AllocGlobal + Copy>(rt: R, fails_at: usize) -> Paged {
    let ground = many_wait(rt);
    let mut out = Pages {
        taken: Vec::new(rt.alloc()),
        calls: 0,
        fails_at,
    };
    let answer = ground.write(&summary(0, 0), &mut out);
    Paged {
        answer,
        gone: out.taken,
        calls: out.calls,
    }
}

/// A writer that never fails has all of it in three calls.
fn goes_out_in_three<R: Abort + AllocGlobal + Copy>(rt: R, text: &[u8]) {
    let whole = write_pages(rt, 9);
    are_equal(&rt, (whole.answer, whole.calls), (Ok(()), 3));
    are_equal(&rt, whole.gone.as_slice(), text);
}

/// This is the first page of the text alone.
fn is_first_page(rt: &impl Abort, text: &[u8], page: &[u8]) {
    assert!(rt; 32_768 <= page.len() && page.len() <= 33_024);
    assert!(rt; text.starts_with(page));
}

/// One that fails in the second call has the first page alone.
fn breaks_off_in_the_second<R: Abort + AllocGlobal + Copy>(rt: R, text: &[u8]) {
    let begun = write_pages(rt, 1);
    let failed = Err(ReportFault::Write);
    are_equal(&rt, (begun.answer, begun.calls), (failed, 2));
    is_first_page(&rt, text, begun.gone.as_slice());
}

/// A report of 80 kB goes out in three calls; a writer that fails in the second has the first page alone, and is not
/// asked again.
#[test]
fn a_long_report_goes_out_page_by_page(rt: HostRuntime) -> Result<(), Fail> {
    let text = many_text(rt.alloc())?;
    goes_out_in_three(rt, text.as_slice());
    breaks_off_in_the_second(rt, text.as_slice());
    Ok(())
}

/// The whole room is filled with the first bytes of the report, which is longer.
fn is_filled<R: Abort + AllocGlobal + Copy>(rt: R, room: &mut [u8]) {
    let size = room.len();
    assert!(rt; size <= TEXT.len());
    let told = fill(rt, room);
    are_equal(&rt, told, (Err(ReportFault::Write), size));
    are_equal(&rt, &room[..], &TEXT[..size]);
}

/// A writer that takes so many bytes and then none is given exactly these.
#[test]
fn a_full_writer_has_the_first_bytes(rt: HostRuntime) {
    let mut room = [0u8; 256];
    for size in 0..TEXT.len() {
        assert!(rt; size <= 256);
        is_filled(rt, &mut room[..size]);
    }
}

#[test]
fn a_writer_that_takes_a_byte_in_a_call_has_all(rt: HostRuntime) {
    let mut out = Sipping {
        taken: Vec::new(rt.alloc()),
    };
    answers(rt, &mut out, Ok(()));
    are_equal(&rt, out.taken.as_slice(), TEXT);
}

#[test]
fn writers_that_fail(rt: HostRuntime) {
    let failed = Err(ReportFault::Write);
    answers(rt, &mut Broken, failed);
    answers(rt, &mut Blocked, failed);
}

/// A first part of the report, and not all of it, that ends with a line or is empty.
fn is_begun(part: &[u8]) -> bool {
    let ends = matches!(part.last().copied(), None | Some(b'\n'));
    ends && part.len() < TEXT.len() && TEXT.starts_with(part)
}

/// The answer is that of a report of which this part went out.
fn is_answer(rt: &impl Abort, answer: Result<(), ReportFault>, part: &[u8]) {
    match answer {
        Ok(()) => are_equal(rt, part, TEXT),
        Err(fault) => assert!(rt; fault == ReportFault::NoMemory && is_begun(part)),
    }
}

/// Where an allocation is refused the answer says so, and the first lines of the report have gone out, not all of them.
#[test]
fn memory_may_run_out(rt: HostRuntime) {
    let mut room = [0u8; 256];
    let (answer, gone) = fill(rt, &mut room);
    assert!(rt; gone <= 256);
    is_answer(&rt, answer, &room[..gone]);
}
