//! The whole report, row after row.

ghost use Rattle.std.specs.Prelude.{◌<◌, ◌++◌, length, map};
ghost use Rattle.worm_mesh.specs.Address.{node_count};
ghost use Rattle.worm_core.specs.LaneSet.{IsComplete};
ghost use Rattle.worm_report.specs.Seen.{seen};
ghost use Rattle.worm_report.specs.Report.{options_rows, stop_rows, stops_rows, opening_rows, delivered_rows};
ghost use Rattle.worm_report.specs.Report.{lane_rows, pair_rows, source_rows, underway_rows, flits_rows, closing_rows};
ghost use Rattle.worm_report.specs.Report.{report};
ghost use Rattle.worm_report.specs.Sums.{AddsUp};
ghost use Rattle.worm_report.specs.Writing.{WritesLines, PutsRows, PutsOrBreaksOff};

use crate::page::Page;
use crate::row::Row;
use crate::summary::{ReportFault, Summary};
use crate::writing::{Desk, close, put_row};
use std::alloc::Global;
use std::io::Write;
use worm_core::{Held, LaneSet, Net};
use worm_flit::{Flit, Lane};

/// A network and its busy lanes: all that have something under way are among them.
#[derive(Drop)]
struct Busy<'a> {
    alloc: Global,
    net: &'a Net,
    lanes: &'a LaneSet,
    ghost complete: { IsComplete net.now lanes.now },
}

fn put_options<W: Write>(desk: &mut Desk<'_, W>, summary: &Summary) -> Result<(), ReportFault>
    ensures { PutsRows W.contents desk.old desk.new result (options_rows summary.now) }
{
    put_row(desk, Row::Header)?;
    let row = Row::Options {
        turns: summary.turns,
        workers: summary.workers as u64,
        drain: summary.drain,
    };
    put_row(desk, row)
}

fn put_stop<W: Write>(
    desk: &mut Desk<'_, W>,
    worker: u64,
    stop: Option<u64>,
) -> Result<(), ReportFault>
    ensures { PutsRows W.contents desk.old desk.new result (stop_rows worker stop) }
{
    match stop {
        None => Ok(()),
        Some(turn) => put_row(desk, Row::Stopped { worker, turn }),
    }
}

fn put_stops<W: Write>(desk: &mut Desk<'_, W>, stops: &[Option<u64>; 16]) -> Result<(), ReportFault>
    ensures { PutsRows W.contents desk.old desk.new result (stops_rows stops.now) }
{
    for worker in 0..16 {
        put_stop(desk, worker as u64, stops[worker])?;
    }
    Ok(())
}

fn put_opening<W: Write>(desk: &mut Desk<'_, W>, summary: &Summary) -> Result<(), ReportFault>
    ensures { PutsRows W.contents desk.old desk.new result (opening_rows summary.now) }
{
    put_options(desk, summary)?;
    put_stops(desk, &summary.stops)
}

fn put_arrived<W: Write>(
    desk: &mut Desk<'_, W>,
    node: u8,
    flits: &[Flit],
) -> Result<(), ReportFault>
    ensures { PutsRows W.contents desk.old desk.new result (map (λ flit. Row.Delivered node flit) flits.now) }
{
    for flit in flits {
        put_row(desk, Row::Delivered { node, flit: *flit })?;
    }
    Ok(())
}

fn put_delivered<W: Write>(desk: &mut Desk<'_, W>, net: &Net) -> Result<(), ReportFault>
    ensures { PutsRows W.contents desk.old desk.new result (delivered_rows (seen net.now)) }
{
    for node in 0..net.nodes() {
        let node = node as u8;
        put_arrived(desk, node, net.delivered(node))?;
    }
    Ok(())
}

fn put_held<W: Write>(
    desk: &mut Desk<'_, W>,
    lane: Lane,
    underway: &[Held],
) -> Result<(), ReportFault>
    ensures { PutsRows W.contents desk.old desk.new result (map (λ held. Row.Underway lane held) underway.now) }
{
    for held in underway {
        put_row(desk, Row::Underway { lane, held: *held })?;
    }
    Ok(())
}

/// A lane that is not busy is not asked for: of up to 262,144 lanes few are busy.
fn put_lane<W: Write>(
    desk: &mut Desk<'_, W>,
    busy: &Busy<'_>,
    lane: Lane,
) -> Result<(), ReportFault>
    requires src { lane.src < node_count busy.now.net.now.mesh }
    requires dst { lane.dst < node_count busy.now.net.now.mesh }
    requires class { lane.class < length busy.now.net.now.channels }
    ensures { PutsRows W.contents desk.old desk.new result (lane_rows (seen busy.now.net.now) lane) }
{
    if !busy.lanes.contains(lane) {
        return Ok(());
    }
    match busy.net.lane_view(busy.alloc, lane) {
        Ok(view) => put_held(desk, lane, view.underway.as_slice()),
        Err(_) => Err(ReportFault::NoMemory),
    }
}

fn put_pair<W: Write>(
    desk: &mut Desk<'_, W>,
    busy: &Busy<'_>,
    src: u8,
    dst: u8,
) -> Result<(), ReportFault>
    requires src { src < node_count busy.now.net.now.mesh }
    requires dst { dst < node_count busy.now.net.now.mesh }
    ensures { PutsRows W.contents desk.old desk.new result (pair_rows (seen busy.now.net.now) src dst) }
{
    for class in 0..busy.net.classes() {
        put_lane(desk, busy, Lane { src, dst, class })?;
    }
    Ok(())
}

fn put_source<W: Write>(desk: &mut Desk<'_, W>, busy: &Busy<'_>, src: u8) -> Result<(), ReportFault>
    requires { src < node_count busy.now.net.now.mesh }
    ensures { PutsRows W.contents desk.old desk.new result (source_rows (seen busy.now.net.now) src) }
{
    let nodes = busy.net.nodes();
    // No lane of a source with nothing under way is asked for; in a drained network that is each source.
    if busy.lanes.lacks_all_from(src, nodes, busy.net.classes()) {
        return Ok(());
    }
    for dst in 0..nodes {
        put_pair(desk, busy, src, dst as u8)?;
    }
    Ok(())
}

fn put_sources<W: Write>(desk: &mut Desk<'_, W>, busy: &Busy<'_>) -> Result<(), ReportFault>
    ensures { PutsRows W.contents desk.old desk.new result (underway_rows (seen busy.now.net.now)) }
{
    for src in 0..busy.net.nodes() {
        put_source(desk, busy, src as u8)?;
    }
    Ok(())
}

fn put_underway<W: Write>(
    desk: &mut Desk<'_, W>,
    alloc: Global,
    net: &Net,
) -> Result<(), ReportFault>
    ensures { PutsRows W.contents desk.old desk.new result (underway_rows (seen net.now)) }
{
    match net.busy(alloc) {
        Ok(lanes) => {
            let busy = Busy {
                alloc,
                net,
                lanes: &lanes,
            };
            put_sources(desk, &busy)
        }
        Err(_) => Err(ReportFault::NoMemory),
    }
}

fn put_flits<W: Write>(desk: &mut Desk<'_, W>, alloc: Global, net: &Net) -> Result<(), ReportFault>
    ensures { PutsRows W.contents desk.old desk.new result (flits_rows (seen net.now)) }
{
    put_delivered(desk, net)?;
    put_underway(desk, alloc, net)
}

fn put_closing<W: Write>(
    desk: &mut Desk<'_, W>,
    net: &Net,
    summary: &Summary,
) -> Result<(), ReportFault>
    ensures { PutsOrBreaksOff W.contents desk.old desk.new result (closing_rows (seen net.now) summary.now) }
{
    let entries = summary.not_offered;
    put_row(desk, Row::NotOffered { entries })?;
    let totals = net.totals();
    let row = Row::Total {
        injected: totals.injected,
        delivered: totals.delivered,
    };
    put_row(desk, row)
}

fn put_report<W: Write>(
    desk: &mut Desk<'_, W>,
    alloc: Global,
    net: &Net,
    summary: &Summary,
) -> Result<(), ReportFault>
    ensures { PutsOrBreaksOff W.contents desk.old desk.new result
        (opening_rows summary.now ++ flits_rows (seen net.now) ++ closing_rows (seen net.now) summary.now) }
{
    put_opening(desk, summary)?;
    put_flits(desk, alloc, net)?;
    put_closing(desk, net, summary)
}

/// For the proof: it does nothing.
fn adds_up(net: &Net, summary: &Summary)
    ensures { AddsUp (report (seen net.now) summary.now) }
{
    net.recall();
}

/// Writes the report of a network and of the run that led to it. `Write` where the writer failed or took nothing,
/// also after memory ran out. `NoMemory` where there was none for a page, a line, the set of busy lanes or a lane's
/// view: whole lines have then gone out, but not all.
pub fn write_report<W: Write>(
    alloc: Global,
    net: &Net,
    summary: &Summary,
    out: &mut W,
) -> Result<(), ReportFault>
    ensures text { WritesLines (W.contents out.old) (W.contents out.new) result (report (seen net.now) summary.now) }
    // The flits injected are those of its `delivered` and of its `underway` lines, and its last line says so.
    ensures sums { AddsUp (report (seen net.now) summary.now) }
{
    adds_up(net, summary);
    let page = Page::new(alloc)?;
    let mut desk = Desk { out, page };
    let made = put_report(&mut desk, alloc, net, summary);
    let Desk { out, page } = desk;
    let closed = close(out, &page);
    closed.and(made)
}
