//! The program `wormrun`: a network text and a traffic text in, a report out. What it does is the library
//! `worm_program`; here it gets the host's words, files, streams and threads.
#![tactic(auto)]

use std::process::ExitCode;

fn main(rt: HostRuntime) -> ExitCode {
    worm_program::run(&rt, &rt)
}
