//! Hostile use of the crates below: a trial in which one request for memory is refused, whichever the caller chooses.
//! The standard input names the trial.
//!
//! A trial judges each answer by itself: a call is done or says that there was no memory, and what it leaves is what
//! is worked out, or what its contract says of a refusal. The program ends with 0 where it was so, and then says
//! `refused` where a call wanted memory, else `whole`.
#![tactic(auto)]

mod asked;
mod cases;
mod parts;
mod reports;
mod seen;
mod steps;
mod trials;
mod turns;
mod workers;

use asked::read_asked;
use seen::Seen;
use std::process::ExitCode;

/// Says what was seen, and gives the status of it.
fn end<R: Print>(rt: &R, seen: Seen) -> ExitCode {
    let said = rt.println(seen.word());
    match seen {
        Seen::Wrong => ExitCode::FAILURE,
        _ if said.is_err() => ExitCode::FAILURE,
        _ => ExitCode::SUCCESS,
    }
}

fn main(rt: HostRuntime) -> ExitCode {
    match read_asked(&rt) {
        Some(trial) => end(&rt, trials::take(&rt, trial)),
        None => ExitCode::from(2),
    }
}
