//! The program over readers and a writer, by one worker or by several.

ghost use Rattle.std.specs.Prelude.{◌≡◌, nat_le, IfErr, OnOk, MatchResult};
ghost use Rattle.worm_mesh.specs.Address.{node_count};
ghost use Rattle.worm_text.specs.Network.{view, Keeps as KeepsRules};
ghost use Rattle.worm_text.specs.declared.format.Format.{Format};
ghost use Rattle.worm_words.specs.Ranges.{InRange};
ghost use Rattle.worm_alone.specs.Programs.{stream};
ghost use Rattle.worm_program.specs.Together.{FailsByWorkers, FailsTogether, ReportsByWorkers, ReportsTogether};
ghost use Rattle.worm_program.specs.Together.{RunsTexts, plan_of};

use crate::together::run_together;
use std::alloc::Global;
use std::io::{Read, Write};
use std::sync::Wait;
use std::thread::Threads;
use worm_alone::{ProgramFault, accept, not_offered, open, read_texts, report_run, run_alone};
use worm_core::Config;
use worm_mesh::Mesh;
use worm_report::Summary;
use worm_run::{Gate, RunPlan};
use worm_words::Options;

fn has_nodes(config: &Config, workers: usize) -> bool
    requires { (format : Format) × KeepsRules format (view config.now) }
    ensures { result ≡ nat_le workers (node_count config.now.radices.items) }
{
    match Mesh::new(config.radices.as_slice()) {
        Ok(mesh) => workers <= usize::from(mesh.nodes()),
        Err(_) => unreachable!(),
    }
}

fn run_and_report_together<R: Threads + Wait + Sync, G: Gate + Sync, W: Write>(
    rt: &R,
    alloc: Global,
    network: &[u8],
    traffic: &[u8],
    options: &Options,
    gate: &G,
    out: &mut W,
) -> Result<(), ProgramFault>
    requires { InRange options.now }
    ensures { MatchResult result
        (λ _. ReportsTogether (G.may_stop gate.now) (G.may_pass gate.now) network.now traffic.now
        (plan_of options.now) options.now.drain (stream (W.contents out.old) (W.contents out.new)))
        (FailsTogether (G.may_stop gate.now) (G.may_pass gate.now) (plan_of options.now) options.now.drain
        (stream (W.contents out.old) (W.contents out.new)) network.now traffic.now) }
{
    let accepted = accept(alloc, network, traffic)?;
    if !has_nodes(&accepted.config, options.workers) {
        return Err(ProgramFault::Workers);
    }
    let Some(net) = open(alloc, &accepted.config) else {
        return Err(ProgramFault::NoMemory);
    };
    let plan = RunPlan {
        turns: options.turns,
        workers: options.workers,
    };
    let ended = match run_together(rt, alloc, net, &accepted.script, plan, gate, options.drain) {
        Ok(ended) => ended,
        Err(worker) => return Err(ProgramFault::NotStarted { worker }),
    };
    let summary = Summary {
        turns: options.turns,
        workers: options.workers,
        drain: options.drain,
        stops: ended.stops,
        not_offered: not_offered(&ended.net, &accepted.script),
    };
    report_run(alloc, &ended.net, &summary, ended.fault, out)
}

/// Not inlined: so a run on one thread has no frame that holds the parts of workers.
#[inline(never)]
fn run_by_workers<R: Threads + Wait + Sync, N: Read, F: Read, G: Gate + Sync, W: Write>(
    rt: &R,
    alloc: Global,
    network: &mut N,
    traffic: &mut F,
    options: &Options,
    gate: &G,
    out: &mut W,
) -> Result<(), ProgramFault>
    requires { InRange options.now }
    ensures ok { OnOk result
        (ReportsByWorkers (G.may_stop gate.now) (G.may_pass gate.now) (plan_of options.now) options.now.drain
        (stream (N.remaining network.old) (N.remaining network.new))
        (stream (F.remaining traffic.old) (F.remaining traffic.new))
        (stream (W.contents out.old) (W.contents out.new))) }
    ensures err { IfErr result
        (FailsByWorkers (G.may_stop gate.now) (G.may_pass gate.now) (plan_of options.now) options.now.drain
        (stream (N.remaining network.old) (N.remaining network.new))
        (stream (F.remaining traffic.old) (F.remaining traffic.new))
        (stream (W.contents out.old) (W.contents out.new))) }
{
    let texts = read_texts(alloc, network, traffic)?;
    let network = texts.network.as_slice();
    let traffic = texts.traffic.as_slice();
    run_and_report_together(rt, alloc, network, traffic, options, gate, out)
}

/// Runs two texts by the options: one worker on this thread, which asks no gate; several each on a thread of its own,
/// which asks the gate before each turn. Faults as those of `run_alone`. With several also `Workers`, where they are
/// more than the nodes, and `NotStarted`, where a thread could not be started: nothing was written then.
pub fn run_texts<R: Threads + Wait + Sync, N: Read, F: Read, G: Gate + Sync, W: Write>(
    rt: &R,
    alloc: Global,
    network: &mut N,
    traffic: &mut F,
    options: &Options,
    gate: &G,
    out: &mut W,
) -> Result<(), ProgramFault>
    requires { InRange options.now }
    ensures { RunsTexts (G.may_stop gate.now) (G.may_pass gate.now) options.now
        (stream (N.remaining network.old) (N.remaining network.new))
        (stream (F.remaining traffic.old) (F.remaining traffic.new))
        (stream (W.contents out.old) (W.contents out.new)) result }
{
    if options.workers == 1 {
        return run_alone(alloc, network, traffic, options.turns, options.drain, out);
    }
    run_by_workers(rt, alloc, network, traffic, options, gate, out)
}
