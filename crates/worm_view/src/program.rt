//! The program over readers and a writer.

ghost use Rattle.std.specs.Prelude.{◌≡◌, IfOk, IfErr, OnOk, OnErr, string_bytes};
ghost use Rattle.std.specs.Io.KnownBytes.{Appends};
ghost use Rattle.worm_flit.specs.Channels.{AreChannels};
ghost use Rattle.worm_text.specs.Network.{view};
ghost use Rattle.worm_view.specs.Views.{IsAccepted, IsRefused};
ghost use Rattle.worm_view.specs.Programs.{DrawsTexts, FailsTexts, GaveBoth, IsDrawn, ReadsNot, RunsView};
ghost use Rattle.worm_view.specs.Programs.{WritesPart, stream};
ghost use Rattle.worm_view.specs.declared.fault.ViewFault.TheVariants.{Write};

use crate::fault::ViewFault;
use crate::form::Form;
use std::alloc::{AllocError, Global};
use std::io::{Read, Write};
use worm_core::Config;
use worm_flit::ClassChannels;
use worm_picture::{draw_map, draw_picture};
use worm_report::write_bytes;
use worm_rows::{Row, Shape, read_report};
use worm_text::{ReadFault, Why, read_network, read_text};
use worm_waits::who_waits;

/// The most bytes that a text may have: 64 MiB.
pub const MOST_BYTES: usize = 67_108_864;

/// What two accepted texts say.
#[derive(Drop)]
pub struct Accepted {
    /// The network.
    pub config: Config,
    /// Its shape.
    pub shape: Shape,
    /// The rows of the report.
    pub rows: Vec<Row>,
}

/// Judges both texts, the network first. `Network` and `Report` for a refused text, `NoMemory` if rows find no room.
pub fn accept(alloc: Global, network: &[u8], report: &[u8]) -> Result<Accepted, ViewFault>
    ensures ok { IfOk result (λ a. IsAccepted network.now report.now (view a.config) a.shape a.rows.items) }
    ensures err { IfErr result (IsRefused network.now report.now) }
{
    let config = match read_network(network) {
        Ok(config) => config,
        Err(fault) => return Err(ViewFault::Network(fault)),
    };
    let shape = Shape::of(&config);
    match read_report(alloc, report, &shape) {
        Ok(rows) => Ok(Accepted {
            config,
            shape,
            rows,
        }),
        Err(fault) if fault.why == Why::NoMemory => Err(ViewFault::NoMemory),
        Err(fault) => Err(ViewFault::Report(fault)),
    }
}

#[derive(Drop)]
struct Texts {
    network: Vec<u8>,
    report: Vec<u8>,
}

fn read_both<N: Read, R: Read>(
    alloc: Global,
    network: &mut N,
    report: &mut R,
) -> Result<Texts, ViewFault>
    ensures ok { IfOk result (λ t. GaveBoth (stream (N.remaining network.old) (N.remaining network.new))
        (stream (R.remaining report.old) (R.remaining report.new)) t.network.items t.report.items) }
    ensures err { IfErr result
        (ReadsNot (stream (N.remaining network.old) (N.remaining network.new))
        (stream (R.remaining report.old) (R.remaining report.new))) }
{
    let network = match read_text(alloc, network, MOST_BYTES) {
        Ok(text) => text,
        Err(ReadFault::Unreadable) => return Err(ViewFault::ReadNetwork),
        Err(ReadFault::NoMemory) => return Err(ViewFault::NoMemory),
    };
    let report = match read_text(alloc, report, MOST_BYTES) {
        Ok(text) => text,
        Err(ReadFault::Unreadable) => return Err(ViewFault::ReadReport),
        Err(ReadFault::NoMemory) => return Err(ViewFault::NoMemory),
    };
    Ok(Texts { network, report })
}

fn write_drawing<W: Write>(out: &mut W, drawing: &str) -> Result<(), ViewFault>
    ensures ok { OnOk result (Appends (W.contents out.old) (W.contents out.new) drawing.now) }
    ensures fault { IfErr result (λ fault. fault ≡ Write) }
    ensures err { OnErr result (WritesPart (stream (W.contents out.old) (W.contents out.new)) drawing.now) }
{
    match write_bytes(out, drawing.as_bytes()) {
        Ok(()) => Ok(()),
        Err(_) => Err(ViewFault::Write),
    }
}

fn waits_of(alloc: Global, accepted: &Accepted) -> Result<String, AllocError>
    requires { AreChannels accepted.now.config.channels.items }
    ensures { IfOk result (λ drawing. IsDrawn Form.Waits (view accepted.now.config) accepted.now.shape
        accepted.now.rows.items (string_bytes drawing)) }
{
    let channels = ClassChannels::new(accepted.config.channels.as_slice());
    let depth = accepted.config.depth;
    who_waits(
        alloc,
        &accepted.shape,
        &channels,
        depth,
        accepted.rows.as_slice(),
    )
}

fn drawn(alloc: Global, accepted: &Accepted, form: Form) -> Result<String, AllocError>
    requires { AreChannels accepted.now.config.channels.items }
    ensures { IfOk result (λ drawing. IsDrawn form (view accepted.now.config) accepted.now.shape
        accepted.now.rows.items (string_bytes drawing)) }
{
    let depth = accepted.config.depth;
    let rows = accepted.rows.as_slice();
    match form {
        Form::Picture => draw_picture(alloc, &accepted.shape, depth, rows),
        Form::Map => draw_map(alloc, &accepted.shape, depth, rows),
        Form::Waits => waits_of(alloc, accepted),
    }
}

fn draw_texts<W: Write>(
    alloc: Global,
    network: &[u8],
    report: &[u8],
    form: Form,
    out: &mut W,
) -> Result<(), ViewFault>
    ensures ok { OnOk result (DrawsTexts form network.now report.now
        (stream (W.contents out.old) (W.contents out.new))) }
    ensures err { IfErr result (FailsTexts form network.now report.now
        (stream (W.contents out.old) (W.contents out.new))) }
{
    let accepted = accept(alloc, network, report)?;
    let Ok(drawing) = drawn(alloc, &accepted, form) else {
        return Err(ViewFault::NoMemory);
    };
    write_drawing(out, drawing.as_str())
}

/// Reads the network and the report to their ends, and writes the picture, the map, or who waits for whom.
///
/// `ReadNetwork` and `ReadReport` where a reader failed, gave over 67,108,864 bytes, or came to no end in 10,000,000
/// reads; `Network` and `Report` where a text is refused; `NoMemory`. With these nothing was written. `Write` where the
/// writer failed or took nothing: a first part has then gone out.
pub fn run_view<N: Read, R: Read, W: Write>(
    alloc: Global,
    network: &mut N,
    report: &mut R,
    form: Form,
    out: &mut W,
) -> Result<(), ViewFault>
    ensures { RunsView form (stream (N.remaining network.old) (N.remaining network.new))
        (stream (R.remaining report.old) (R.remaining report.new))
        (stream (W.contents out.old) (W.contents out.new)) result }
{
    let texts = read_both(alloc, network, report)?;
    let network = texts.network.as_slice();
    let report = texts.report.as_slice();
    draw_texts(alloc, network, report, form, out)
}
