//! Readers that fail in mid-stream or give little at a time, and want of memory in a turn.

use crate::run::cases::{Ran, are_equal, gives, is_fault, run_reader, run_readers};
use std::alloc::Global;
use std::io;
use std::io::Read;
use std::process::Abort;
use std::test::Fail;
use worm_cases::{TWO_NODES, TWO_NODES_AND_WORDS, TWO_WORDS};
use worm_core::{Net, StepFault};
use worm_program::{ProgramFault, report_run};
use worm_report::Summary;
use worm_text::read_network;

/// Gives a byte in a call, and fails in one of them.
#[derive(Drop)]
struct Sipped {
    left: &'static [u8],
    calls: usize,
    fails_at: usize,
}

impl Sipped {
    fn new(left: &'static [u8], fails_at: usize) -> Sipped {
        Sipped {
            left,
            calls: 0,
            fails_at,
        }
    }
}

impl Read for Sipped {
    fn read(&mut self, buf: &mut [u8]) -> io::Result<usize> {
        self.calls = self.calls.saturating_add(1);
        if self.calls == self.fails_at {
            return Err(io::Error::from(io::ErrorKind::Interrupted));
        }
        let room = buf.len().min(1);
        self.left.read(&mut buf[..room])
    }
}

/// A run of two texts that come a byte in a call, and how often each reader was asked.
#[derive(Drop)]
struct SippedRun {
    ran: Ran,
    network_calls: usize,
    traffic_calls: usize,
}

/// Runs two texts that come a byte in a call for so many turns; each reader fails in that call of its own, or in none.
fn run_sipped(alloc: Global, turns: u64, network_fails: usize, traffic_fails: usize) -> SippedRun {
    let mut network = Sipped::new(TWO_NODES, network_fails);
    let mut traffic = Sipped::new(TWO_WORDS, traffic_fails);
    let ran = run_readers(alloc, &mut network, &mut traffic, (turns, 0));
    SippedRun {
        ran,
        network_calls: network.calls,
        traffic_calls: traffic.calls,
    }
}

/// A network reader that fails in this call is asked no more, and the traffic reader not at all.
fn network_fails_at(rt: &impl Abort, alloc: Global, fails_at: usize) -> Result<(), Fail> {
    let run = run_sipped(alloc, 1, fails_at, 0);
    assert!(rt; run.ran.report.is_empty());
    are_equal(rt, (run.network_calls, run.traffic_calls), (fails_at, 0));
    is_fault(rt, alloc, run.ran.answer, 5, "wormrun: cannot read network")
}

#[test]
fn a_network_that_fails_in_mid_stream(rt: HostRuntime) -> Result<(), Fail> {
    for fails_at in 1..TWO_NODES.len() + 2 {
        network_fails_at(&rt, rt.alloc(), fails_at)?;
    }
    Ok(())
}

/// A traffic reader that fails in this call is asked no more.
fn traffic_fails_at(rt: &impl Abort, alloc: Global, fails_at: usize) -> Result<(), Fail> {
    let run = run_sipped(alloc, 1, 0, fails_at);
    assert!(rt; run.ran.report.is_empty());
    are_equal(rt, run.traffic_calls, fails_at);
    is_fault(rt, alloc, run.ran.answer, 5, "wormrun: cannot read traffic")
}

#[test]
fn traffic_that_fails_in_mid_stream(rt: HostRuntime) -> Result<(), Fail> {
    for fails_at in 1..TWO_WORDS.len() + 2 {
        traffic_fails_at(&rt, rt.alloc(), fails_at)?;
    }
    Ok(())
}

#[test]
fn readers_of_a_byte_a_call_are_read_to_their_end(rt: HostRuntime) {
    let wanted = b"wormreport 1\n\
          turns 2 workers 1 drain 0\n\
          delivered 1 from 0 class 0 packet 0 flit 0 word 17\n\
          delivered 1 from 0 class 0 packet 0 flit 1 word 18\n\
          not offered 0\n\
          total injected 2 delivered 2 underway 0\n";
    let run = run_sipped(rt.alloc(), 2, 0, 0);
    gives(&rt, &run.ran, Ok(()), wanted);
}

/// A reader of both texts that fails in this call is asked no more.
fn input_fails_at(rt: &impl Abort, alloc: Global, fails_at: usize) -> Result<(), Fail> {
    let mut input = Sipped::new(TWO_NODES_AND_WORDS, fails_at);
    let ran = run_reader(alloc, &mut input);
    assert!(rt; ran.report.is_empty());
    are_equal(rt, input.calls, fails_at);
    is_fault(rt, alloc, ran.answer, 5, "wormrun: cannot read network")
}

#[test]
fn a_joined_input_that_fails_in_mid_stream(rt: HostRuntime) -> Result<(), Fail> {
    for fails_at in 1..TWO_NODES_AND_WORDS.len() + 2 {
        input_fails_at(&rt, rt.alloc(), fails_at)?;
    }
    Ok(())
}

/// The network of two nodes, with nothing offered.
fn new_network(rt: &impl Abort, alloc: Global) -> Result<Net, Fail> {
    let Ok(config) = read_network(TWO_NODES) else {
        panic!(rt; "refused");
    };
    Ok(Net::new(alloc, &config)?)
}

/// A run of nine turns that was stopped in its turn 3.
fn stopped_run() -> Summary {
    let mut stops = [None; 16];
    stops[0] = Some(3);
    Summary {
        turns: 9,
        workers: 1,
        drain: 0,
        stops,
        not_offered: 2,
    }
}

/// The report of the stopped run on a new network.
const STOPPED_RUN: &[u8] = b"wormreport 1\n\
     turns 9 workers 1 drain 0\n\
     stopped worker 0 turn 3\n\
     not offered 2\n\
     total injected 0 delivered 0 underway 0\n";

/// Writes the report of the stopped run, which this fault ended, if any did.
fn report_stopped(rt: &impl Abort, alloc: Global, fault: Option<StepFault>) -> Result<Ran, Fail> {
    let net = new_network(rt, alloc)?;
    let mut report = Vec::new(alloc);
    let answer = report_run(alloc, &net, &stopped_run(), fault, &mut report);
    Ok(Ran { answer, report })
}

/// Want of memory in a turn is told once the whole report is out.
#[test]
fn want_of_memory_in_a_turn(rt: HostRuntime) -> Result<(), Fail> {
    let ran = report_stopped(&rt, rt.alloc(), None)?;
    gives(&rt, &ran, Ok(()), STOPPED_RUN);
    let ran = report_stopped(&rt, rt.alloc(), Some(StepFault::NoMemory))?;
    gives(&rt, &ran, Err(ProgramFault::NoMemory), STOPPED_RUN);
    is_fault(&rt, rt.alloc(), ran.answer, 6, "wormrun: out of memory")
}
