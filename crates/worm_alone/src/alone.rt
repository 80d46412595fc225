//! A run of both texts on one thread, and the report of a run.

ghost use Rattle.std.specs.Prelude.{◌≡◌, ◌-◌, length, IfErr, OnOk, MatchResult};
ghost use Rattle.worm_region.specs.Totals.{accepted_total};
ghost use Rattle.worm_report.specs.Seen.{seen};
ghost use Rattle.worm_report.specs.Report.{report};
ghost use Rattle.worm_alone.specs.Programs.{Fails, FailsAlone, FailsJoined, Reports, ReportsAlone, ReportsJoined};
ghost use Rattle.worm_alone.specs.Programs.{WritesReport, stream, summary_of};

use crate::fault::ProgramFault;
use crate::joined::network_end;
use crate::texts::{MOST_BYTES, accept, open, read_texts};
use crate::turns::{Ending, run_script};
use std::alloc::Global;
use std::io::{Read, Write};
use worm_core::{Net, Script, StepFault};
use worm_report::{ReportFault, Summary, write_report};
use worm_text::{ReadFault, read_text};

/// The entries of the script less what the network's sources accepted, a packet or a mark as one; 0 where that is more.
pub fn not_offered(net: &Net, script: &Script) -> u64
    ensures { result ≡ length script.now - accepted_total net.now }
{
    let entries = script.len() as u128;
    entries.saturating_sub(net.totals().accepted) as u64
}

fn summary_of(net: &Net, script: &Script, turns: u64, drain: u64, ending: &Ending) -> Summary
    ensures { result ≡ summary_of turns drain ending.now (length script.now - accepted_total net.now) }
{
    let mut stops = [None; 16];
    stops[0] = ending.stopped;
    Summary {
        turns,
        workers: 1,
        drain,
        stops,
        not_offered: not_offered(net, script),
    }
}

/// Writes the report of a run that ended with `fault`. `Write` where the writer failed or took nothing. Else
/// `NoMemory` where memory ran out: if only in the run, the whole report is out.
pub fn report_run<W: Write>(
    alloc: Global,
    net: &Net,
    summary: &Summary,
    fault: Option<StepFault>,
    out: &mut W,
) -> Result<(), ProgramFault>
    ensures { WritesReport (stream (W.contents out.old) (W.contents out.new)) fault result
        (report (seen net.now) summary.now) }
{
    match write_report(alloc, net, summary, out) {
        Err(ReportFault::Write) => Err(ProgramFault::Write),
        Err(ReportFault::NoMemory) => Err(ProgramFault::NoMemory),
        Ok(()) if fault == Some(StepFault::NoMemory) => Err(ProgramFault::NoMemory),
        Ok(()) => Ok(()),
    }
}

fn run_and_report<W: Write>(
    alloc: Global,
    network: &[u8],
    traffic: &[u8],
    turns: u64,
    drain: u64,
    out: &mut W,
) -> Result<(), ProgramFault>
    ensures { MatchResult result (λ _. Reports network.now traffic.now turns drain
        (stream (W.contents out.old) (W.contents out.new)))
        (Fails network.now traffic.now turns drain (stream (W.contents out.old) (W.contents out.new))) }
{
    let accepted = accept(alloc, network, traffic)?;
    let Some(mut net) = open(alloc, &accepted.config) else {
        return Err(ProgramFault::NoMemory);
    };
    let ending = run_script(alloc, &mut net, &accepted.script, turns, drain);
    let summary = summary_of(&net, &accepted.script, turns, drain, &ending);
    report_run(alloc, &net, &summary, ending.fault, out)
}

/// Reads two texts to their end, the network first, runs them on this thread, and writes the report.
///
/// `ReadNetwork` and `ReadTraffic` where a reader failed or gave over 8,388,608 bytes, be there memory or not;
/// `Network` and `Traffic` where a text is refused; `Write` where the writer failed or took nothing; else `NoMemory`.
/// Only after the last two may a part of the report be out: with `NoMemory` whole lines, and all of it only where
/// memory ran out in a turn.
pub fn run_alone<N: Read, F: Read, W: Write>(
    alloc: Global,
    network: &mut N,
    traffic: &mut F,
    turns: u64,
    drain: u64,
    out: &mut W,
) -> Result<(), ProgramFault>
    ensures ok { OnOk result (ReportsAlone turns drain (stream (N.remaining network.old) (N.remaining network.new))
        (stream (F.remaining traffic.old) (F.remaining traffic.new))
        (stream (W.contents out.old) (W.contents out.new))) }
    ensures err { IfErr result (FailsAlone turns drain (stream (N.remaining network.old) (N.remaining network.new))
        (stream (F.remaining traffic.old) (F.remaining traffic.new))
        (stream (W.contents out.old) (W.contents out.new))) }
{
    let texts = read_texts(alloc, network, traffic)?;
    let network = texts.network.as_slice();
    let traffic = texts.traffic.as_slice();
    run_and_report(alloc, network, traffic, turns, drain, out)
}

/// Runs the two texts of one input for 100 turns with no drain: the network's up to and with the first line `end`.
/// Faults as those of `run_alone`; an input that cannot be read is `ReadNetwork`.
pub fn run_joined<R: Read, W: Write>(
    alloc: Global,
    input: &mut R,
    out: &mut W,
) -> Result<(), ProgramFault>
    ensures ok { OnOk result (ReportsJoined (stream (R.remaining input.old) (R.remaining input.new))
        (stream (W.contents out.old) (W.contents out.new))) }
    ensures err { IfErr result (FailsJoined (stream (R.remaining input.old) (R.remaining input.new))
        (stream (W.contents out.old) (W.contents out.new))) }
{
    let joined = match read_text(alloc, input, MOST_BYTES) {
        Ok(text) => text,
        Err(ReadFault::Unreadable) => return Err(ProgramFault::ReadNetwork),
        Err(ReadFault::NoMemory) => return Err(ProgramFault::NoMemory),
    };
    let bytes = joined.as_slice();
    let (network, traffic) = bytes.split_at(network_end(bytes));
    run_and_report(alloc, network, traffic, 100, 0, out)
}
