//! The program `wormview`: a report of `wormrun` on the standard input and the file of its network in, a picture out.
//! What it does is the library `worm_view`; here it gets the host's words, files and streams.
#![tactic(auto)]

use std::process::ExitCode;

fn main(rt: HostRuntime) -> ExitCode {
    worm_view::run(&rt)
}
