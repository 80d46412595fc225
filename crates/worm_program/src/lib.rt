//! What `wormrun` does: a network text and a traffic text in, a report out, over a runtime that gives the words, the
//! files and the standard streams. A fault is one line on the standard error, and a status.
//!
//! The program calls `run` and no more. So tests give a runtime of their own, and a contract is judged without the
//! code of all that lies below.
#![tactic(auto)]

ghost use Rattle.clap.specs.Walk.{texts};
ghost use Rattle.clap.specs.Words.{fault_of};
ghost use Rattle.std.specs.Prelude.{◌≡◌, ◌≢◌, ◌<◌, ◌⊎◌, [], length};
ghost use Rattle.std.specs.Process.{exit_status};
ghost use Rattle.worm_words.specs.Commands.{command};
ghost use Rattle.worm_program.specs.Statuses.{ended_status, words_status, IsStatus};
ghost use Rattle.worm_words.specs.Ranges.{InRange};

mod program;
mod together;

pub use program::run_texts;
use std::alloc::Global;
use std::process::ExitCode;
use std::rt::{Env, Files};
use std::sync::Wait;
use std::thread::Threads;
use std::{fs, io};
pub use worm_alone::{MOST_BYTES, ProgramFault, network_end, report_run, run_alone, run_joined};
use worm_run::Paced;
pub use worm_words::{Options, Words, WordsFault, all_words, read_words};

fn run_files<R: Files + Print + AllocGlobal, T: Threads + Wait + Sync>(
    rt: &R,
    threads: &T,
    words: &Words<'_>,
) -> Result<(), ProgramFault>
    requires { InRange words.now.options }
{
    let Ok(mut network) = fs::open(rt, words.network) else {
        return Err(ProgramFault::ReadNetwork);
    };
    let Ok(mut traffic) = fs::open(rt, words.traffic) else {
        return Err(ProgramFault::ReadTraffic);
    };
    let mut out = io::writer(rt);
    let gate = Paced::new(threads, words.options.workers);
    run_texts(
        threads,
        rt.alloc(),
        &mut network,
        &mut traffic,
        &words.options,
        &gate,
        &mut out,
    )
}

fn end<R: Eprint>(rt: &R, ended: Result<(), ProgramFault>) -> ExitCode
    ensures { exit_status result ≡ ended_status ended }
{
    match ended {
        Ok(()) => ExitCode::SUCCESS,
        Err(fault) => {
            let _ = rt.eprintln(fault);
            ExitCode::from(fault.status())
        }
    }
}

fn refuse<R: Print + Eprint>(rt: &R, fault: WordsFault) -> ExitCode
    ensures { exit_status result ≡ words_status fault }
{
    match fault {
        WordsFault::NoMemory => end(rt, Err(ProgramFault::NoMemory)),
        WordsFault::NotText => {
            let _ = rt.eprintln("wormrun: a word is not UTF-8");
            ExitCode::from(2)
        }
        WordsFault::Words(error) => {
            let _ = error.print(rt);
            ExitCode::from(2)
        }
    }
}

#[tactic(auto, using(crate::proofs::Statuses::statuses))]
fn run_words<R: Files + Input + Print + Eprint + AllocGlobal, T: Threads + Wait + Sync>(
    rt: &R,
    threads: &T,
    words: &[&str],
) -> ExitCode
    ensures status { IsStatus (exit_status result) }
    ensures refused { 1 < length words.now → fault_of command (texts words.now) ≢ []
        → (exit_status result ≡ 2) ⊎ (exit_status result ≡ 6) }
{
    if words.len() < 2 {
        let mut input = rt.reader();
        let mut out = io::writer(rt);
        return end(rt, run_joined(rt.alloc(), &mut input, &mut out));
    }
    match read_words(rt.alloc(), words) {
        Ok(words) => end(rt, run_files(rt, threads, &words)),
        Err(fault) => refuse(rt, fault),
    }
}

/// Runs the program on the words of the command line; without words, on both texts in the standard input. The status
/// is 0 where the whole report is out, 2 for wrong words, and else that of the fault that was said.
#[tactic(auto, using(crate::proofs::Statuses::of_words))]
pub fn run<R: Env + Files + Input + Print + Eprint + AllocGlobal, T: Threads + Wait + Sync>(
    rt: &R,
    threads: &T,
) -> ExitCode
    ensures { IsStatus (exit_status result) }
{
    let all = match all_words(rt) {
        Ok(all) => all,
        Err(fault) => return refuse(rt, fault),
    };
    let alloc: Global = rt.alloc();
    let Ok(words) = all
        .iter()
        .map(|word| word.as_str())
        .collect::<Vec<&str>>(alloc)
    else {
        return refuse(rt, WordsFault::NoMemory);
    };
    run_words(rt, threads, words.as_slice())
}
