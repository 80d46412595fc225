//! The row that a line says.

ghost use Rattle.std.specs.Prelude.{◌≡◌, ◌≤◌};
ghost use Rattle.worm_mesh.specs.Address.{node_count, has_neighbour};
ghost use Rattle.worm_text.specs.Reading.{Reads, Gives};
ghost use Rattle.worm_rows.specs.Rules.{has_buffer, listed};
ghost use Rattle.worm_rows.specs.Reading.{below_at, packet_at, buffer_at, link_at, place_at, load_word_at, load_at};
ghost use Rattle.worm_rows.specs.Reading.{header_at, options_at, stopped_at, delivered_at, underway_at, not_offered_at};
ghost use Rattle.worm_rows.specs.Reading.{total_at, row_at, judge};

use crate::fields::{any, below, named};
use crate::rows::{Load, PacketId, Row};
use crate::shape::Shape;
use crate::standing::Standing;
use worm_core::Place;
use worm_flit::Lane;
use worm_text::{Fields, Why};

#[tactic(auto, unfolding(crate::specs::Reading::packet_at))]
fn packet(shape: &Shape, src: u8, dst: u8, fields: &mut Fields<'_>) -> Result<PacketId, Why>
    ensures { Reads (λ x. x) result fields.new (packet_at shape.now src dst fields.old) }
{
    fields.word(b"class")?;
    let class = below(fields, u32::from(shape.classes))? as u8;
    fields.word(b"packet")?;
    let number = below(fields, 65_536)? as u16;
    Ok(PacketId {
        lane: Lane { src, dst, class },
        number,
    })
}

fn node(shape: &Shape, fields: &mut Fields<'_>) -> Result<u8, Why>
    ensures { Reads (λ x. x) result fields.new (below_at (node_count shape.now.mesh) fields.old) }
{
    Ok(below(fields, u32::from(shape.mesh.nodes()))? as u8)
}

fn has_buffer(shape: &Shape, node: u8, port: u8) -> bool
    ensures { result ≡ has_buffer shape.now.mesh node port }
{
    port == 2 * shape.mesh.dims() || has_link(shape, node, port)
}

fn has_link(shape: &Shape, node: u8, port: u8) -> bool
    ensures { result ≡ has_neighbour shape.now.mesh node port }
{
    shape.mesh.neighbour(node, port).is_some()
}

#[tactic(auto, unfolding(crate::specs::Reading::buffer_at))]
fn buffer(shape: &Shape, fields: &mut Fields<'_>) -> Result<Place, Why>
    ensures { Gives (λ x. x) result (buffer_at shape.now fields.old) }
{
    let node = node(shape, fields)?;
    let port = below(fields, 256)? as u8;
    if !has_buffer(shape, node, port) {
        return Err(Why::Range);
    }
    let vc = below(fields, u32::from(shape.vcs))? as u8;
    fields.end()?;
    Ok(Place::Buffer { node, port, vc })
}

#[tactic(auto, unfolding(crate::specs::Reading::link_at))]
fn link(shape: &Shape, fields: &mut Fields<'_>) -> Result<Place, Why>
    ensures { Gives (λ x. x) result (link_at shape.now fields.old) }
{
    let node = node(shape, fields)?;
    let port = below(fields, 256)? as u8;
    if !has_link(shape, node, port) {
        return Err(Why::Range);
    }
    let vc = below(fields, u32::from(shape.vcs))? as u8;
    fields.end()?;
    Ok(Place::Link { node, port, vc })
}

#[tactic(auto, unfolding(crate::specs::Reading::place_at))]
fn place(shape: &Shape, fields: &mut Fields<'_>) -> Result<Place, Why>
    ensures { Gives (λ x. x) result (place_at shape.now fields.old) }
{
    let Some(word) = fields.next() else {
        return Err(Why::Missing);
    };
    if word == b"source".as_slice() {
        fields.end()?;
        Ok(Place::Source)
    } else if word == b"buffer".as_slice() {
        buffer(shape, fields)
    } else if word == b"link".as_slice() {
        link(shape, fields)
    } else {
        Err(Why::UnknownWord)
    }
}

#[tactic(auto, unfolding(crate::specs::Reading::load_word_at))]
fn load_word(fields: &mut Fields<'_>) -> Result<Load, Why>
    ensures { Gives (λ x. x) result (load_word_at fields.old) }
{
    let index = below(fields, 32)? as u8;
    let word = named(fields, b"word")?;
    fields.end()?;
    Ok(Load::Word { index, word })
}

#[tactic(auto, unfolding(crate::specs::Reading::load_at))]
fn load(fields: &mut Fields<'_>) -> Result<Load, Why>
    ensures { Gives (λ x. x) result (load_at fields.old) }
{
    let Some(word) = fields.next() else {
        return Err(Why::Missing);
    };
    if word == b"close".as_slice() {
        fields.end()?;
        Ok(Load::Close)
    } else if word == b"flit".as_slice() {
        load_word(fields)
    } else {
        Err(Why::UnknownWord)
    }
}

#[tactic(auto, unfolding(crate::specs::Reading::header_at))]
fn header(fields: &mut Fields<'_>) -> Result<Row, Why>
    ensures { Gives (λ x. x) result (header_at fields.old) }
{
    fields.number(1, 1)?;
    fields.end()?;
    Ok(Row::Header)
}

#[tactic(auto, unfolding(crate::specs::Reading::options_at))]
fn options(fields: &mut Fields<'_>) -> Result<Row, Why>
    ensures { Gives (λ x. x) result (options_at fields.old) }
{
    let turns = any(fields)?;
    let workers = named(fields, b"workers")?;
    let drain = named(fields, b"drain")?;
    fields.end()?;
    Ok(Row::Options {
        turns,
        workers,
        drain,
    })
}

#[tactic(auto, unfolding(crate::specs::Reading::stopped_at))]
fn stopped(fields: &mut Fields<'_>) -> Result<Row, Why>
    ensures { Gives (λ x. x) result (stopped_at fields.old) }
{
    let worker = named(fields, b"worker")?;
    let turn = named(fields, b"turn")?;
    fields.end()?;
    Ok(Row::Stopped { worker, turn })
}

#[tactic(auto, unfolding(crate::specs::Reading::delivered_at))]
fn delivered(shape: &Shape, fields: &mut Fields<'_>) -> Result<Row, Why>
    ensures { Gives (λ x. x) result (delivered_at shape.now fields.old) }
{
    let dst = node(shape, fields)?;
    fields.word(b"from")?;
    let src = node(shape, fields)?;
    let packet = packet(shape, src, dst, fields)?;
    let load = load(fields)?;
    Ok(Row::Delivered { packet, load })
}

#[tactic(auto, unfolding(crate::specs::Reading::underway_at))]
fn underway(shape: &Shape, fields: &mut Fields<'_>) -> Result<Row, Why>
    ensures { Gives (λ x. x) result (underway_at shape.now fields.old) }
{
    let src = node(shape, fields)?;
    let dst = node(shape, fields)?;
    let packet = packet(shape, src, dst, fields)?;
    fields.word(b"flit")?;
    let index = below(fields, 32)? as u8;
    let place = place(shape, fields)?;
    Ok(Row::Underway {
        packet,
        index,
        place,
    })
}

#[tactic(auto, unfolding(crate::specs::Reading::not_offered_at))]
fn not_offered(fields: &mut Fields<'_>) -> Result<Row, Why>
    ensures { Gives (λ x. x) result (not_offered_at fields.old) }
{
    let entries = named(fields, b"offered")?;
    fields.end()?;
    Ok(Row::NotOffered { entries })
}

#[tactic(auto, unfolding(crate::specs::Reading::total_at))]
fn total(fields: &mut Fields<'_>) -> Result<Row, Why>
    ensures { Gives (λ x. x) result (total_at fields.old) }
{
    let injected = named(fields, b"injected")?;
    let delivered = named(fields, b"delivered")?;
    let underway = named(fields, b"underway")?;
    if u64::from(injected) != u64::from(delivered) + u64::from(underway) {
        return Err(Why::Range);
    }
    fields.end()?;
    Ok(Row::Total {
        delivered,
        underway,
    })
}

#[tactic(auto, unfolding(crate::specs::Reading::row_at))]
fn row(shape: &Shape, fields: &mut Fields<'_>) -> Result<Row, Why>
    ensures { Gives (λ x. x) result (row_at shape.now fields.old) }
{
    let Some(word) = fields.next() else {
        return Err(Why::Missing);
    };
    if word == b"wormreport".as_slice() {
        header(fields)
    } else if word == b"turns".as_slice() {
        options(fields)
    } else if word == b"stopped".as_slice() {
        stopped(fields)
    } else if word == b"delivered".as_slice() {
        delivered(shape, fields)
    } else if word == b"underway".as_slice() {
        underway(shape, fields)
    } else if word == b"not".as_slice() {
        not_offered(fields)
    } else if word == b"total".as_slice() {
        total(fields)
    } else {
        Err(Why::UnknownWord)
    }
}

/// The row of a finished line, or the first fault in it: `AfterEnd` after the last row.
#[tactic(auto, unfolding(crate::specs::Reading::judge))]
pub fn judge(shape: &Shape, standing: &Standing, line: &[u8]) -> Result<Row, Why>
    requires { listed standing.now ≤ 1000000 }
    ensures { Gives (λ x. x) result (judge shape.now standing.now line.now) }
{
    if standing.next >= 7 {
        return Err(Why::AfterEnd);
    }
    let row = row(shape, &mut Fields::new(line))?;
    standing.admit(&row)?;
    Ok(row)
}
