//! What `wormview` does: it reads the words of the command line, a network text from the file that they name and a
//! report of `wormrun` from the standard input, and gives the standard output a picture of the report.
//!
//! The picture is SVG; with `--text` it is a map for a terminal, and with `--waits` who waits for whom. A fault is
//! one line on the standard error, and a status. The caller brings readers, a writer and a runtime, so a contract can
//! name the bytes that they give and take.
//!
//! The program calls `run` and no more: its check loads the code of all that it stands on, this crate's only what the
//! libraries below say of themselves.
#![tactic(auto)]

ghost use Rattle.clap.specs.Walk.{texts};
ghost use Rattle.clap.specs.Words.{fault_of, matches_of};
ghost use Rattle.std.specs.Prelude.{◌≡◌, ◌≢◌, ◌⊎◌, []};
ghost use Rattle.std.specs.Process.{exit_status};
ghost use Rattle.worm_view.specs.Commands.{command, AskBoth};
ghost use Rattle.worm_view.specs.Faults.{ended_status, words_status, EndsRefused, IsStatus};

mod fault;
mod form;
mod program;
mod words;

pub use fault::ViewFault;
pub use form::Form;
pub use program::{Accepted, accept, run_view};
use std::alloc::Global;
use std::process::ExitCode;
use std::rt::{Env, Files};
use std::{fs, io};
pub use words::{Words, WordsFault, all_words, read_words};

fn run_file<R: Files + Input + Print + AllocGlobal>(
    rt: &R,
    words: &Words<'_>,
) -> Result<(), ViewFault> {
    let Ok(mut network) = fs::open(rt, words.network) else {
        return Err(ViewFault::ReadNetwork);
    };
    let mut report = rt.reader();
    let mut out = io::writer(rt);
    run_view(rt.alloc(), &mut network, &mut report, words.form, &mut out)
}

fn end<R: Eprint>(rt: &R, ended: Result<(), ViewFault>) -> ExitCode
    ensures { exit_status result ≡ ended_status ended }
{
    match ended {
        Ok(()) => ExitCode::SUCCESS,
        Err(fault) => {
            let _ = rt.eprintln(fault);
            ExitCode::from(fault.status())
        }
    }
}

fn refuse<R: Print + Eprint>(rt: &R, fault: WordsFault) -> ExitCode
    ensures { exit_status result ≡ words_status fault }
{
    match fault {
        WordsFault::NoMemory => end(rt, Err(ViewFault::NoMemory)),
        WordsFault::Both => {
            let _ = rt.eprintln("wormview: both --text and --waits");
            ExitCode::from(2)
        }
        WordsFault::NotText => {
            let _ = rt.eprintln("wormview: a word is not UTF-8");
            ExitCode::from(2)
        }
        WordsFault::Asked(answer) => {
            let _ = answer.print(rt);
            ExitCode::SUCCESS
        }
        WordsFault::Words(error) => {
            let _ = error.print(rt);
            ExitCode::from(2)
        }
    }
}

#[tactic(auto, using(crate::proofs::Statuses::of_ended, crate::proofs::Statuses::of_words))]
fn run_words<R: Files + Input + Print + Eprint + AllocGlobal>(rt: &R, words: &[&str]) -> ExitCode
    ensures status { IsStatus (exit_status result) }
    ensures refused { fault_of command (texts words.now) ≢ []
        → EndsRefused (fault_of command (texts words.now)) (exit_status result) }
    ensures both { fault_of command (texts words.now) ≡ [] → AskBoth (matches_of command (texts words.now))
        → (exit_status result ≡ 2) ⊎ (exit_status result ≡ 6) }
{
    match read_words(rt.alloc(), words) {
        Ok(words) => end(rt, run_file(rt, &words)),
        Err(fault) => refuse(rt, fault),
    }
}

/// Runs the program on the words of the command line. The status is 0 where the whole picture is out or the words ask
/// for help or the version, 2 for wrong words, and else that of the fault that was said.
#[tactic(auto, using(crate::proofs::Statuses::of_words))]
pub fn run<R: Env + Files + Input + Print + Eprint + AllocGlobal>(rt: &R) -> ExitCode
    ensures { IsStatus (exit_status result) }
{
    let all = match all_words(rt) {
        Ok(all) => all,
        Err(fault) => return refuse(rt, fault),
    };
    let alloc: Global = rt.alloc();
    let Ok(words) = all
        .iter()
        .map(|word| word.as_str())
        .collect::<Vec<&str>>(alloc)
    else {
        return refuse(rt, WordsFault::NoMemory);
    };
    run_words(rt, words.as_slice())
}
