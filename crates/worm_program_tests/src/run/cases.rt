//! What the tests share: a text, runs of two texts on this thread by each call that takes them, and what a run
//! answers, says and writes.
//!
//! No helper has a contract: so what is known of a whole run ends at the helper that takes it, and each test is proved
//! in little time.

use crate::run::workers::run_both;
use std::alloc::{AllocError, Global};
use std::fmt::Debug;
use std::io::Read;
use std::process::Abort;
use std::sync::Wait;
use std::test::Fail;
use std::thread::Threads;
use worm_program::{ProgramFault, run_alone, run_joined};
use worm_run::FreeGate;

/// Two nodes, one class with one channel, and buffers of one flit.
pub const SHALLOW: &[u8] = b"wormnet 1\nradix 2\ndims 1\ndepth 1\nclass data\nend\n";

/// What is found is what is wanted. An `assert_eq!` is proved with all that its function holds, so that one here costs
/// less than several there.
pub fn are_equal<T: PartialEq + Debug + Drop>(rt: &impl Abort, found: T, wanted: T) {
    assert_eq!(rt; found, wanted);
}

/// What a run answered, and what it wrote.
#[derive(Drop)]
pub struct Ran {
    pub answer: Result<(), ProgramFault>,
    pub report: Vec<u8>,
}

/// Runs the texts of two readers with so many turns and turns of drain.
pub fn run_readers<N: Read, F: Read>(
    alloc: Global,
    network: &mut N,
    traffic: &mut F,
    options: (u64, u64),
) -> Ran {
    let (turns, drain) = options;
    let mut report = Vec::new(alloc);
    let answer = run_alone(alloc, network, traffic, turns, drain, &mut report);
    Ran { answer, report }
}

/// Runs the two texts of one reader.
pub fn run_reader<R: Read>(alloc: Global, input: &mut R) -> Ran {
    let mut report = Vec::new(alloc);
    let answer = run_joined(alloc, input, &mut report);
    Ran { answer, report }
}

/// Runs two texts with so many turns and turns of drain.
pub fn run_pair(alloc: Global, network: &[u8], traffic: &[u8], options: (u64, u64)) -> Ran {
    let mut network = network;
    let mut traffic = traffic;
    run_readers(alloc, &mut network, &mut traffic, options)
}

/// The same by the call that takes workers, with one.
fn run_one<R: Threads + Wait + Sync>(
    rt: &R,
    alloc: Global,
    network: &[u8],
    traffic: &[u8],
    options: (u64, u64),
) -> Ran {
    let (turns, drain) = options;
    run_both(rt, alloc, (network, traffic), (turns, 1, drain), &FreeGate)
}

/// The answer of a run is this one.
pub fn answers(
    rt: &impl Abort,
    answer: Result<(), ProgramFault>,
    wanted: Result<(), ProgramFault>,
) {
    are_equal(rt, answer, wanted);
}

/// The run answered this, and wrote this report.
pub fn gives(rt: &impl Abort, ran: &Ran, answer: Result<(), ProgramFault>, report: &[u8]) {
    answers(rt, ran.answer, answer);
    are_equal(rt, ran.report.as_slice(), report);
}

/// The two texts give this report, by either call.
pub fn reports(
    rt: &(impl Abort + Threads + Wait + Sync),
    alloc: Global,
    network: &[u8],
    traffic: &[u8],
    options: (u64, u64),
    wanted: &str,
) {
    let ran = run_pair(alloc, network, traffic, options);
    gives(rt, &ran, Ok(()), wanted.as_bytes());
    let ran = run_one(rt, alloc, network, traffic, options);
    gives(rt, &ran, Ok(()), wanted.as_bytes());
}

/// The fault has this status.
pub fn has_status(rt: &impl Abort, fault: ProgramFault, status: u8) {
    are_equal(rt, fault.status(), status);
}

/// The line of a fault on the standard error.
fn line_of(alloc: Global, fault: ProgramFault) -> Result<String, AllocError> {
    format!(in alloc; "{fault}")
}

/// The fault has this status and this line.
pub fn is_told(
    rt: &impl Abort,
    alloc: Global,
    fault: ProgramFault,
    status: u8,
    line: &str,
) -> Result<(), Fail> {
    has_status(rt, fault, status);
    are_equal(rt, line_of(alloc, fault)?.as_bytes(), line.as_bytes());
    Ok(())
}

/// The answer is a fault with this status and this line.
pub fn is_fault(
    rt: &impl Abort,
    alloc: Global,
    answer: Result<(), ProgramFault>,
    status: u8,
    line: &str,
) -> Result<(), Fail> {
    match answer {
        Ok(()) => panic!(rt; "not refused"),
        Err(fault) => is_told(rt, alloc, fault, status, line),
    }
}

/// Nothing was written, and the answer is a fault with this status and this line.
pub fn is_refusal(
    rt: &impl Abort,
    alloc: Global,
    ran: &Ran,
    status: u8,
    line: &str,
) -> Result<(), Fail> {
    assert!(rt; ran.report.is_empty());
    is_fault(rt, alloc, ran.answer, status, line)
}

/// The texts are refused with this status and line by either call, and nothing is written.
pub fn is_refused(
    rt: &(impl Abort + Threads + Wait + Sync),
    alloc: Global,
    network: &[u8],
    traffic: &[u8],
    status: u8,
    line: &str,
) -> Result<(), Fail> {
    let ran = run_pair(alloc, network, traffic, (1, 0));
    is_refusal(rt, alloc, &ran, status, line)?;
    let ran = run_one(rt, alloc, network, traffic, (1, 0));
    is_refusal(rt, alloc, &ran, status, line)
}
