//! The flits of a picture: each an element that begins with its title.

ghost use Rattle.std.specs.Prelude.{[], ◌∷◌, map, OnOk};
ghost use Rattle.worm_picture.specs.Packets.{tail_in};
ghost use Rattle.worm_picture.specs.Picture.{Adds, flit_name, title_of};
ghost use Rattle.worm_picture.specs.Titles.{flit_title};

use crate::packets::{Packet, Packets};
use crate::scene::Flit;
use crate::signs::{colour_of, mark_of, shape_of};
use crate::svg::Svg;
use crate::titles::FlitTitle;
use std::alloc::AllocError;
use std::fmt::Write;

fn add_title(svg: &mut Svg, title: FlitTitle) -> Result<(), AllocError>
    ensures { OnOk result (Adds svg.old svg.new (flit_title title ∷ [])) }
{
    write!(svg.text, "<g><title>{title}</title>")
}

fn add_shape(svg: &mut Svg, index: u8, packet: Packet, x: u32, y: u32) -> Result<(), AllocError>
    ensures { OnOk result (Adds svg.old svg.new []) }
{
    let sign = packet.sign.unwrap_or(0);
    let shape = shape_of(index, packet.last);
    let colour = colour_of(sign);
    let mark = mark_of(sign);
    write!(
        svg.text,
        "<use href=\"#{shape}\" x=\"-{x}\" y=\"{y}\" fill=\"{colour}\"/>"
    )?;
    write!(svg.text, "<use href=\"#{mark}\" x=\"-{x}\" y=\"{y}\"/>")
}

fn add_flit(svg: &mut Svg, flit: &Flit, packet: Packet, x: u32, y: u32) -> Result<(), AllocError>
    ensures { OnOk result (Adds svg.old svg.new (title_of packet.last flit.now ∷ [])) }
{
    let title = FlitTitle {
        packet: flit.packet,
        index: flit.index,
        last: packet.last,
    };
    add_title(svg, title)?;
    add_shape(svg, flit.index, packet, x, y)?;
    svg.close()
}

/// Flits in a row, `apart` from one another, the first with its middle at `first` and `y`.
pub fn add_row(
    svg: &mut Svg,
    packets: &Packets,
    flits: &[Flit],
    first: u32,
    y: u32,
    apart: u32,
) -> Result<(), AllocError>
    ensures { OnOk result (Adds svg.old svg.new (map (flit_name (tail_in packets.now)) flits.now)) }
{
    let mut x = first;
    for flit in flits {
        let packet = packets.get(flit.packet);
        add_flit(svg, flit, packet, x, y)?;
        x = x.saturating_add(apart);
    }
    Ok(())
}
