//! Drawings of a report's rows, of a network of this shape with buffers of `depth` flits, 1 to 16.

ghost use Rattle.std.specs.Prelude.{IfOk, string_bytes};
ghost use Rattle.worm_picture.specs.Map.{MapsRows};
ghost use Rattle.worm_picture.specs.Picture.{PicturesRows};

use crate::map::map;
use crate::packets::Packets;
use crate::picture::picture;
use crate::views::node_views;
use std::alloc::{AllocError, Global};
use worm_rows::{Row, Shape};

/// The picture of these rows, as SVG.
pub fn draw_picture(
    alloc: Global,
    shape: &Shape,
    depth: u8,
    rows: &[Row],
) -> Result<String, AllocError>
    ensures { IfOk result (λ drawing. PicturesRows shape.now rows.now (string_bytes drawing)) }
{
    let packets = Packets::of(alloc, rows)?;
    let views = node_views(alloc, shape, rows, &packets)?;
    picture(alloc, shape, depth, rows, &packets, views.as_slice())
}

/// The map of these rows, for a terminal.
pub fn draw_map(alloc: Global, shape: &Shape, depth: u8, rows: &[Row]) -> Result<String, AllocError>
    ensures { IfOk result (λ drawing. MapsRows shape.now depth rows.now (string_bytes drawing)) }
{
    let packets = Packets::of(alloc, rows)?;
    let views = node_views(alloc, shape, rows, &packets)?;
    map(alloc, &shape.mesh, depth, views.as_slice())
}
