//! The picture of a report, as SVG.

ghost use Rattle.std.specs.Prelude.{[], map, IfOk, OnOk, string_bytes};
ghost use Rattle.std.specs.List.{flat_map};
ghost use Rattle.worm_picture.specs.Nodes.{shown, station_flits, view_flits};
ghost use Rattle.worm_picture.specs.Packets.{tail_in};
ghost use Rattle.worm_picture.specs.Picture.{Adds, PicturesFlits, flit_name};

use crate::counts::add_counts;
use crate::flits::add_row;
use crate::layout::{
    FIRST, HEADING, LEGEND, LINE, Layout, NAME, NARROWEST, SLOT, STUB, WAYS, digit, radix,
    slices_across,
};
use crate::legend::{STYLE, add_heading, add_legend};
use crate::packets::Packets;
use crate::scene::exit_port;
use crate::signs::{exit_of, frame_of, slots_of};
use crate::svg::Svg;
use crate::views::{Most, NodeView, Station, most_of};
use crate::ways::{Way, add_way, lane_of, way_out};
use std::alloc::{AllocError, Global};
use std::fmt::Write;
use worm_rows::{Row, Shape};

#[derive(Drop)]
struct Scene<'a> {
    shape: &'a Shape,
    depth: u8,
    rows: &'a [Row],
    packets: &'a Packets,
    layout: Layout,
    most: Most,
    head: u32,
}

impl<'a> Scene<'a> {
    /// How far a port's channels stand from the middle of the node's core, across the way of its flits.
    fn offset(&self, port: u8) -> u32 {
        if port / 2 == self.shape.mesh.dims() {
            self.layout.core + 4
        } else if port < 4 {
            2
        } else {
            self.layout.core + 4 + WAYS
        }
    }

    fn add_buffer(&self, svg: &mut Svg, station: &Station, top: u32) -> Result<(), AllocError>
        ensures { OnOk result (Adds svg.old svg.new []) }
    {
        if !self.has_input(station.spot.node, station.spot.port) {
            return Ok(());
        }
        let long = self.layout.long;
        let left = self.layout.core + long;
        let class = slots_of(station.held.len() >= usize::from(self.depth));
        write!(
            svg.text,
            "<rect class=\"{class}\" x=\"-{left}\" y=\"{top}\" width=\"{long}\" height=\"12\"/>\n"
        )
    }

    fn add_way(
        &self,
        svg: &mut Svg,
        stations: &[Station],
        station: &Station,
    ) -> Result<(), AllocError>
        ensures { OnOk result (Adds svg.old svg.new []) }
    {
        let mesh = &self.shape.mesh;
        let dims = mesh.dims();
        let Some(flit) = station.held.as_slice().first() else {
            return Ok(());
        };
        let Some(exit) = exit_port(mesh, flit) else {
            return Ok(());
        };
        let packet = self.packets.get(flit.packet);
        let core = self.layout.core;
        let level = self.top_of(station).saturating_add(SLOT / 2);
        let lane = lane_of(mesh, stations, station.spot, exit);
        let out = way_out(&self.layout, dims, exit, lane, flit.index > 0);
        svg.open_frame(frame_of(dims, flit.spot.port))?;
        add_way(svg, flit.index, packet, Way::In { core, level })?;
        svg.close()?;
        svg.open_frame(exit_of(dims, exit))?;
        add_way(svg, flit.index, packet, out)?;
        svg.close()
    }

    fn add_channel(&self, svg: &mut Svg, station: &Station) -> Result<(), AllocError>
        ensures { OnOk result (Adds svg.old svg.new
            (map (flit_name (tail_in self.now.packets.now)) (station_flits station.now))) }
    {
        let top = self.top_of(station);
        let y = top.saturating_add(SLOT / 2);
        let front = self.layout.core + SLOT / 2;
        let coming = self.layout.half + FIRST;
        let apart = self.layout.on_link(station.spot.port, station.coming.len());
        svg.open_frame(frame_of(self.shape.mesh.dims(), station.spot.port))?;
        self.add_buffer(svg, station, top)?;
        add_row(svg, self.packets, station.held.as_slice(), front, y, SLOT)?;
        add_row(
            svg,
            self.packets,
            station.coming.as_slice(),
            coming,
            y,
            apart,
        )?;
        svg.close()
    }

    fn top_of(&self, station: &Station) -> u32 {
        let above = u32::from(station.spot.vc).saturating_mul(SLOT);
        self.offset(station.spot.port).saturating_add(above)
    }

    fn add_link(&self, svg: &mut Svg, node: u8, port: u8) -> Result<(), AllocError>
        ensures { OnOk result (Adds svg.old svg.new []) }
    {
        let mesh = &self.shape.mesh;
        let Some(from) = mesh.neighbour(node, port) else {
            return Ok(());
        };
        if port >= 4 {
            return self.add_stub(svg, port, from);
        }
        let right = self.layout.core + self.layout.long;
        let start = self.layout.pitch - self.layout.half;
        let level = 2 + self.layout.wide / 2;
        svg.open_frame(frame_of(mesh.dims(), port))?;
        write!(
            svg.text,
            "<path class=\"link\" d=\"M-{start},{level}L-{right},{level}\"/>\n"
        )?;
        svg.close()
    }

    /// Links of the third dimension are stubs at the node's own edge, under the neighbour's number.
    fn add_stub(&self, svg: &mut Svg, port: u8, there: u8) -> Result<(), AllocError>
        ensures { OnOk result (Adds svg.old svg.new []) }
    {
        let half = self.layout.half;
        let end = half + STUB;
        let out = self.layout.core + 11;
        let right = self.layout.core + self.layout.long;
        let low = self.offset(port);
        let level = low.saturating_add(self.layout.wide / 2);
        let above = low.saturating_add(self.layout.wide + 3);
        let text = half + 3;
        svg.open_frame(frame_of(self.shape.mesh.dims(), port))?;
        write!(
            svg.text,
            "<path class=\"link\" d=\"M-{end},{level}L-{right},{level}\"/>\n"
        )?;
        write!(
            svg.text,
            "<path class=\"link\" d=\"M-{half},{out}L-{end},{out}\"/>\n"
        )?;
        svg.close()?;
        if port == 5 {
            return write!(
                svg.text,
                "<text class=\"stub\" x=\"{text}\" y=\"-{above}\">{there}</text>\n"
            );
        }
        write!(
            svg.text,
            "<text class=\"stub\" x=\"-{text}\" y=\"-{above}\" text-anchor=\"end\">{there}</text>\n"
        )
    }

    fn has_input(&self, node: u8, port: u8) -> bool {
        port == 2 * self.shape.mesh.dims() || self.shape.mesh.neighbour(node, port).is_some()
    }

    fn load_of(&self, view: &NodeView) -> u8 {
        let ports = (0..7u8)
            .filter(|port| *port <= 2 * self.shape.mesh.dims() && self.has_input(view.node, *port))
            .count();
        let room = ports
            .saturating_mul(usize::from(self.shape.vcs))
            .saturating_mul(usize::from(self.depth));
        let held = view.held();
        if held == 0 {
            0
        } else if held.saturating_mul(4) <= room {
            1
        } else if held.saturating_mul(2) <= room {
            2
        } else if held.saturating_mul(4) <= room.saturating_mul(3) {
            3
        } else {
            4
        }
    }

    fn middle_of(&self, node: u8) -> (u32, u32) {
        let mesh = &self.shape.mesh;
        let (left, top) = self.corner_of(digit(mesh, node, 2));
        let x = self.layout.middle(digit(mesh, node, 0));
        let y = self.layout.middle(digit(mesh, node, 1));
        (x.saturating_add(left), y.saturating_add(top))
    }

    /// A slice is all nodes with that digit in the third dimension.
    fn corner_of(&self, slice: u8) -> (u32, u32) {
        let across = slices_across(&self.shape.mesh);
        let (width, height) = self.slice_size();
        let left = width.saturating_mul(u32::from(slice) % across);
        let top = height.saturating_mul(u32::from(slice) / across);
        let name = height.saturating_sub(self.nodes_height());
        (left, top.saturating_add(name).saturating_add(self.head))
    }

    fn nodes_height(&self) -> u32 {
        u32::from(radix(&self.shape.mesh, 1)).saturating_mul(self.layout.pitch)
    }

    fn slice_size(&self) -> (u32, u32) {
        let mesh = &self.shape.mesh;
        let columns = u32::from(radix(mesh, 0));
        let name = if radix(mesh, 2) > 1 { NAME } else { 0 };
        (
            columns
                .saturating_mul(self.layout.pitch)
                .saturating_add(SLOT),
            self.nodes_height().saturating_add(name),
        )
    }

    fn size(&self) -> (u32, u32) {
        let mesh = &self.shape.mesh;
        let across = slices_across(mesh);
        let down = u32::from(radix(mesh, 2)).div_ceil(across);
        let (width, height) = self.slice_size();
        (width.saturating_mul(across), height.saturating_mul(down))
    }

    fn add_names(&self, svg: &mut Svg) -> Result<(), AllocError>
        ensures { OnOk result (Adds svg.old svg.new []) }
    {
        let slices = radix(&self.shape.mesh, 2);
        if slices == 1 {
            return Ok(());
        }
        for slice in 0..slices {
            let (x, y) = self.corner_of(slice);
            svg.open_at(x, y)?;
            write!(
                svg.text,
                "<text class=\"head\" x=\"15\" y=\"0\">Dimension 2: {slice}</text>\n"
            )?;
            svg.close()?;
        }
        Ok(())
    }

    fn add_ground(&self, svg: &mut Svg, view: &NodeView) -> Result<(), AllocError>
        ensures { OnOk result (Adds svg.old svg.new []) }
    {
        let (x, y) = self.middle_of(view.node);
        svg.open_at(x, y)?;
        self.add_border(svg, view)?;
        for port in 0..6u8 {
            self.add_link(svg, view.node, port)?;
        }
        add_counts(svg, &self.layout, self.rows, view)?;
        self.add_held_mark(svg, view)?;
        self.add_arrived_mark(svg, view)?;
        svg.close()
    }

    fn add_held_mark(&self, svg: &mut Svg, view: &NodeView) -> Result<(), AllocError>
        ensures { OnOk result (Adds svg.old svg.new []) }
    {
        let low = self.layout.low();
        let high = low.saturating_sub(SLOT);
        let held = view.held();
        if held == 0 || held != self.most.held {
            return Ok(());
        }
        write!(
            svg.text,
            "<text class=\"note\" x=\"-{low}\" y=\"-{high}\">fullest</text>\n"
        )
    }

    fn add_arrived_mark(&self, svg: &mut Svg, view: &NodeView) -> Result<(), AllocError>
        ensures { OnOk result (Adds svg.old svg.new []) }
    {
        let low = self.layout.low();
        let high = low.saturating_sub(SLOT);
        if view.arrived == 0 || view.arrived != self.most.arrived {
            return Ok(());
        }
        write!(
            svg.text,
            "<text class=\"note\" x=\"{low}\" y=\"-{high}\" text-anchor=\"end\">got most</text>\n"
        )
    }

    fn add_border(&self, svg: &mut Svg, view: &NodeView) -> Result<(), AllocError>
        ensures { OnOk result (Adds svg.old svg.new []) }
    {
        let half = self.layout.half;
        let side = 2 * half;
        let load = self.load_of(view);
        write!(
            svg.text,
            "<rect class=\"n{load}\" x=\"-{half}\" y=\"-{half}\" width=\"{side}\" height=\"{side}\" rx=\"4\"/>\n"
        )
    }

    fn add_traces(&self, svg: &mut Svg, view: &NodeView) -> Result<(), AllocError>
        ensures { OnOk result (Adds svg.old svg.new []) }
    {
        let (x, y) = self.middle_of(view.node);
        svg.open_at(x, y)?;
        let stations = view.stations.as_slice();
        for station in stations {
            self.add_way(svg, stations, station)?;
        }
        svg.close()
    }

    fn add_channels(&self, svg: &mut Svg, stations: &[Station]) -> Result<(), AllocError>
        ensures { OnOk result (Adds svg.old svg.new
            (map (flit_name (tail_in self.now.packets.now)) (flat_map station_flits stations.now))) }
    {
        for station in stations {
            self.add_channel(svg, station)?;
        }
        Ok(())
    }

    fn add_node(&self, svg: &mut Svg, view: &NodeView) -> Result<(), AllocError>
        ensures { OnOk result (Adds svg.old svg.new
            (map (flit_name (tail_in self.now.packets.now)) (view_flits view.now))) }
    {
        let (x, y) = self.middle_of(view.node);
        svg.open_at(x, y)?;
        self.add_channels(svg, view.stations.as_slice())?;
        svg.close()
    }

    fn add_nodes(&self, svg: &mut Svg, views: &[NodeView]) -> Result<(), AllocError>
        ensures { OnOk result (Adds svg.old svg.new
            (map (flit_name (tail_in self.now.packets.now)) (shown views.now))) }
    {
        for view in views {
            self.add_node(svg, view)?;
        }
        Ok(())
    }

    fn add_grounds(&self, svg: &mut Svg, views: &[NodeView]) -> Result<(), AllocError>
        ensures { OnOk result (Adds svg.old svg.new []) }
    {
        for view in views {
            self.add_ground(svg, view)?;
        }
        Ok(())
    }

    fn add_all_traces(&self, svg: &mut Svg, views: &[NodeView]) -> Result<(), AllocError>
        ensures { OnOk result (Adds svg.old svg.new []) }
    {
        for view in views {
            self.add_traces(svg, view)?;
        }
        Ok(())
    }

    fn add_front(&self, svg: &mut Svg, views: &[NodeView], page: &Page) -> Result<(), AllocError>
        ensures { OnOk result (Adds svg.old svg.new []) }
    {
        page.open(svg)?;
        svg.put(STYLE)?;
        add_heading(
            svg,
            self.shape,
            self.depth,
            self.rows,
            self.packets.moving(),
            page.scale,
        )?;
        add_legend(svg, self.shape.mesh.dims(), page.scale)?;
        self.add_names(svg)?;
        self.add_grounds(svg, views)?;
        self.add_all_traces(svg, views)
    }

    fn text(&self, alloc: Global, views: &[NodeView], page: &Page) -> Result<String, AllocError>
        ensures { IfOk result (λ text.
            PicturesFlits (string_bytes text) (tail_in self.now.packets.now) (shown views.now)) }
    {
        let mut picture = Svg::new(alloc);
        self.add_front(&mut picture, views, page)?;
        self.add_nodes(&mut picture, views)?;
        picture.put("</svg>\n")?;
        Ok(picture.text)
    }
}

#[derive(Clone, Copy, Debug, PartialEq, Eq)]
struct Page {
    width: u32,
    height: u32,
    /// How many times as large the heading and the legend are as in a small picture.
    scale: u32,
}

impl Page {
    fn open(&self, svg: &mut Svg) -> Result<(), AllocError>
        ensures { OnOk result (Adds svg.old svg.new []) }
    {
        let width = self.width;
        let height = self.height;
        write!(
            svg.text,
            "<svg xmlns=\"http://www.w3.org/2000/svg\" viewBox=\"0 0 {width} {height}\" font-family=\"sans-serif\">\n"
        )
    }
}

/// The picture of these nodes, as the rows show them, of a network of this shape with buffers of `depth` flits.
pub fn picture(
    alloc: Global,
    shape: &Shape,
    depth: u8,
    rows: &[Row],
    packets: &Packets,
    views: &[NodeView],
) -> Result<String, AllocError>
    ensures { IfOk result (λ text. PicturesFlits (string_bytes text) (tail_in packets.now) (shown views.now)) }
{
    let mut scene = Scene {
        shape,
        depth,
        rows,
        packets,
        layout: Layout::new(depth, shape.vcs, shape.mesh.dims()),
        most: most_of(views),
        head: 0,
    };
    let (mesh_width, mesh_height) = scene.size();
    let width = mesh_width.max(NARROWEST);
    let scale = width / NARROWEST;
    let third = u32::from(shape.mesh.dims() / 3);
    scene.head = (HEADING + LEGEND + LINE * third).saturating_mul(scale);
    let page = Page {
        width,
        height: mesh_height.saturating_add(scene.head),
        scale,
    };
    scene.text(alloc, views, &page)
}
