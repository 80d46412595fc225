//! What stands about the mesh: the style, the heading and the legend.

ghost use Rattle.std.specs.Prelude.{[], OnOk};
ghost use Rattle.worm_picture.specs.Picture.{Adds};

use crate::layout::HEADING;
use crate::svg::Svg;
use std::alloc::AllocError;
use std::fmt::Write;
use worm_mesh::Mesh;
use worm_rows::{Row, Shape};

/// How things look, and the shapes of flits.
pub const STYLE: &str = "<style>
.n0{fill:#fff;stroke:#ddd}
.n1{fill:#eee;stroke:#777}
.n2{fill:#d6d6d6;stroke:#555}
.n3{fill:#b8b8b8;stroke:#333}
.n4{fill:#929292;stroke:#000}
.slots{fill:#fff;stroke:#bbb;stroke-width:0.6}
.full{fill:#fff;stroke:#000;stroke-width:2}
.link{fill:none;stroke:#bbb;stroke-width:1}
.holds{fill:none;stroke-width:4;stroke-linejoin:round}
.wants{fill:none;stroke-width:3;stroke-dasharray:3 3}
.edge{stroke:#333;stroke-width:6}
.node{font-size:15px;font-weight:bold;text-anchor:end;fill:#555}
.count{font-size:13px;fill:#000}
.done{font-size:13px;fill:#000;text-decoration:underline}
.head{font-size:16px;font-weight:bold}
.note{font-size:12px}
.stub{font-size:13px;fill:#555}
</style>
<defs>
<path id=\"opening\" d=\"M-5,-5L0,-5L6,0L0,5L-5,5z\" stroke=\"#000\" stroke-width=\"0.7\"/>
<rect id=\"body\" x=\"-5\" y=\"-4\" width=\"10\" height=\"8\" stroke=\"#000\" stroke-width=\"0.7\"/>
<circle id=\"tail\" r=\"4.6\" stroke=\"#000\" stroke-width=\"0.7\"/>
<path id=\"single\" d=\"M-5,0L0,-5L6,0L0,5z\" stroke=\"#000\" stroke-width=\"0.7\"/>
<g id=\"plain\"/>
<circle id=\"dot\" r=\"2\" fill=\"#fff\"/>
<circle id=\"ring\" r=\"2\" fill=\"#000\"/>
<path id=\"bar\" d=\"M0,-4L0,4\" stroke=\"#000\" stroke-width=\"2\"/>
</defs>
";

const NOTES: &str =
    "<text class=\"note\" x=\"10\" y=\"12\">Flits, coloured and marked by packet:</text>
<use href=\"#opening\" x=\"258\" y=\"8\" fill=\"#56B4E9\"/>
<text class=\"note\" x=\"268\" y=\"12\">opening</text>
<use href=\"#body\" x=\"334\" y=\"8\" fill=\"#56B4E9\"/>
<text class=\"note\" x=\"344\" y=\"12\">body</text>
<use href=\"#tail\" x=\"390\" y=\"8\" fill=\"#56B4E9\"/>
<text class=\"note\" x=\"400\" y=\"12\">tail</text>
<use href=\"#single\" x=\"438\" y=\"8\" fill=\"#56B4E9\"/>
<text class=\"note\" x=\"448\" y=\"12\">whole packet or close mark</text>
<text class=\"note\" x=\"640\" y=\"12\">Hover to read.</text>
<rect class=\"slots\" x=\"10\" y=\"21\" width=\"24\" height=\"12\"/>
<text class=\"note\" x=\"40\" y=\"32\">buffer of a channel</text>
<rect class=\"full\" x=\"176\" y=\"21\" width=\"24\" height=\"12\"/>
<text class=\"note\" x=\"206\" y=\"32\">full</text>
<rect class=\"n0\" x=\"250\" y=\"20\" width=\"15\" height=\"15\"/>
<rect class=\"n1\" x=\"268\" y=\"20\" width=\"15\" height=\"15\"/>
<rect class=\"n2\" x=\"286\" y=\"20\" width=\"15\" height=\"15\"/>
<rect class=\"n3\" x=\"304\" y=\"20\" width=\"15\" height=\"15\"/>
<rect class=\"n4\" x=\"322\" y=\"20\" width=\"15\" height=\"15\"/>
<text class=\"note\" x=\"343\" y=\"32\">a node's buffers: empty, up to 1/4, 1/2, 3/4, over 3/4 full</text>
<path class=\"holds edge\" d=\"M10,48L34,48\"/>
<path class=\"holds\" stroke=\"#0072B2\" d=\"M10,48L34,48\"/>
<text class=\"note\" x=\"40\" y=\"52\">way that a packet holds</text>
<path class=\"wants edge\" d=\"M220,48L244,48\"/>
<path class=\"wants\" stroke=\"#0072B2\" d=\"M220,48L244,48\"/>
<text class=\"note\" x=\"250\" y=\"52\">way that an opening wants</text>
<text class=\"note\" x=\"448\" y=\"52\">A way that ends in its node goes to the sink.</text>
<text class=\"note\" x=\"10\" y=\"72\" font-weight=\"bold\">27</text>
<text class=\"note\" x=\"34\" y=\"72\">node</text>
<text class=\"note\" x=\"90\" y=\"72\">+3 wait in its source</text>
<text class=\"note\" x=\"250\" y=\"72\" text-decoration=\"underline\">5</text>
<text class=\"note\" x=\"264\" y=\"72\">were delivered to it</text>
<text class=\"note\" x=\"448\" y=\"72\">fullest, got most: of all nodes</text>
<text class=\"note\" x=\"10\" y=\"92\">Node 0 is at the top left; dimension 0 goes to the right, 1 down. \
Buffers: front to the middle; lower left: what is injected.</text>
";

const THIRD: &str = "<text class=\"note\" x=\"10\" y=\"112\">\
Dimension 2 goes from slice to slice, by stubs at a node's edge, under the number of the node there.</text>
";

fn add_option(svg: &mut Svg, row: &Row) -> Result<(), AllocError>
    ensures { OnOk result (Adds svg.old svg.new []) }
{
    match row {
        Row::Options {
            turns,
            workers,
            drain,
        } => write!(svg.text, "turns {turns}, workers {workers}, drain {drain}"),
        Row::Stopped { worker, turn } => {
            write!(svg.text, ", worker {worker} stopped in turn {turn}")
        }
        _ => Ok(()),
    }
}

fn add_run(svg: &mut Svg, rows: &[Row]) -> Result<(), AllocError>
    ensures { OnOk result (Adds svg.old svg.new []) }
{
    svg.put("<text class=\"head\" x=\"10\" y=\"20\">")?;
    for row in rows {
        add_option(svg, row)?;
    }
    svg.put("</text>\n")
}

fn add_total(svg: &mut Svg, row: &Row, moving: u32) -> Result<(), AllocError>
    ensures { OnOk result (Adds svg.old svg.new []) }
{
    match row {
        Row::Total {
            delivered,
            underway,
        } => write!(
            svg.text,
            "Flits delivered: {delivered}, under way: {underway}. Packets in buffers and on links: {moving}."
        ),
        _ => Ok(()),
    }
}

fn add_sums(svg: &mut Svg, rows: &[Row], moving: u32) -> Result<(), AllocError>
    ensures { OnOk result (Adds svg.old svg.new []) }
{
    svg.put("<text class=\"note\" x=\"10\" y=\"38\">")?;
    for row in rows {
        add_total(svg, row, moving)?;
    }
    svg.put("</text>\n")
}

fn add_radices(svg: &mut Svg, mesh: &Mesh) -> Result<(), AllocError>
    ensures { OnOk result (Adds svg.old svg.new []) }
{
    svg.put("<text class=\"note\" x=\"10\" y=\"54\">Radices:")?;
    for dim in 0..mesh.dims() {
        let radix = mesh.radix(dim);
        write!(svg.text, " {radix}")?;
    }
    Ok(())
}

fn add_network(svg: &mut Svg, shape: &Shape, depth: u8) -> Result<(), AllocError>
    ensures { OnOk result (Adds svg.old svg.new []) }
{
    let classes = shape.classes;
    let channels = shape.vcs;
    add_radices(svg, &shape.mesh)?;
    write!(
        svg.text,
        ". Depth: {depth}. Classes: {classes}. Channels: {channels}.</text>\n"
    )
}

/// What run of which network this is, and what came of it, `scale` times as large as in a small picture.
pub fn add_heading(
    svg: &mut Svg,
    shape: &Shape,
    depth: u8,
    rows: &[Row],
    moving: u32,
    scale: u32,
) -> Result<(), AllocError>
    ensures { OnOk result (Adds svg.old svg.new []) }
{
    svg.open_scaled(0, scale)?;
    add_run(svg, rows)?;
    add_sums(svg, rows, moving)?;
    add_network(svg, shape, depth)?;
    svg.close()
}

/// What the signs mean, below the heading, `scale` times as large as in a small picture.
pub fn add_legend(svg: &mut Svg, dims: u8, scale: u32) -> Result<(), AllocError>
    ensures { OnOk result (Adds svg.old svg.new []) }
{
    svg.open_scaled(HEADING.saturating_mul(scale), scale)?;
    svg.put(NOTES)?;
    if dims < 3 {
        return svg.close();
    }
    svg.put(THIRD)?;
    svg.close()
}
