//! What is written at a node: its number, how many flits wait in its source, and how many it was delivered.

ghost use Rattle.std.specs.Prelude.{[], OnOk};
ghost use Rattle.worm_picture.specs.Picture.{Adds};

use crate::layout::Layout;
use crate::svg::Svg;
use crate::titles::ArrivalTitle;
use crate::views::NodeView;
use std::alloc::AllocError;
use std::fmt::Write;
use worm_rows::Row;

fn add_waiting(svg: &mut Svg, layout: &Layout, view: &NodeView) -> Result<(), AllocError>
    ensures { OnOk result (Adds svg.old svg.new []) }
{
    let node = view.node;
    let waiting = view.waiting;
    let low = layout.low();
    if waiting == 0 {
        return Ok(());
    }
    write!(
        svg.text,
        "<text class=\"count\" x=\"-{low}\" y=\"{low}\">+{waiting}\
         <title>{waiting} flits wait in the source of node {node}</title></text>\n"
    )
}

fn add_number(svg: &mut Svg, layout: &Layout, node: u8) -> Result<(), AllocError>
    ensures { OnOk result (Adds svg.old svg.new []) }
{
    let low = layout.low();
    let core = layout.core;
    write!(
        svg.text,
        "<text class=\"node\" x=\"{low}\" y=\"{core}\" dy=\"9\">{node}</text>"
    )
}

fn add_delivery(svg: &mut Svg, row: &Row, node: u8) -> Result<(), AllocError>
    ensures { OnOk result (Adds svg.old svg.new []) }
{
    match row {
        Row::Delivered { packet, load } if packet.lane.dst == node => {
            let title = ArrivalTitle {
                packet: *packet,
                load: *load,
            };
            write!(svg.text, "\n{title}")
        }
        _ => Ok(()),
    }
}

fn add_deliveries(svg: &mut Svg, rows: &[Row], node: u8) -> Result<(), AllocError>
    ensures { OnOk result (Adds svg.old svg.new []) }
{
    for row in rows {
        add_delivery(svg, row, node)?;
    }
    Ok(())
}

fn add_arrived(
    svg: &mut Svg,
    layout: &Layout,
    rows: &[Row],
    view: &NodeView,
) -> Result<(), AllocError>
    ensures { OnOk result (Adds svg.old svg.new []) }
{
    let node = view.node;
    let arrived = view.arrived;
    let left = layout.core + 3;
    let low = layout.low();
    if arrived == 0 {
        return Ok(());
    }
    write!(
        svg.text,
        "<text class=\"done\" x=\"{left}\" y=\"{low}\">{arrived}<title>node {node} was delivered"
    )?;
    add_deliveries(svg, rows, node)?;
    svg.put("</title></text>\n")
}

/// The number of a node, and its counts; a count of 0 is left out.
pub fn add_counts(
    svg: &mut Svg,
    layout: &Layout,
    rows: &[Row],
    view: &NodeView,
) -> Result<(), AllocError>
    ensures { OnOk result (Adds svg.old svg.new []) }
{
    add_waiting(svg, layout, view)?;
    add_number(svg, layout, view.node)?;
    add_arrived(svg, layout, rows, view)
}
