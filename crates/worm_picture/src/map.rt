//! The map of a report for a terminal.

ghost use Rattle.std.specs.Prelude.{◌≡◌, ◌++◌, IfOk, OnOk, length, string_bytes};
ghost use Rattle.std.specs.List.{flat_map};
ghost use Rattle.worm_picture.specs.Map as spec;
ghost use Rattle.worm_picture.specs.Map.{ListsBuffers};

use crate::layout::{digit, radix};
use crate::scene::{Flit, exit_port};
use crate::views::{NodeView, Station};
use std::alloc::{AllocError, Global};
use std::fmt::Write;
use worm_mesh::Mesh;

const MOST_LISTED: usize = 12;

fn put(map: &mut String, more: &str) -> Result<(), AllocError>
    ensures { OnOk result (string_bytes map.new ≡ string_bytes map.old ++ more.now) }
{
    map.push_str(more)
}

fn sign_of(mesh: &Mesh, port: u8) -> &'static str
    ensures { result.now ≡ spec.sign_of (length mesh.now) port }
{
    if port == 2 * mesh.dims() {
        return "*";
    }
    match port {
        0 => "<",
        1 => ">",
        2 => "^",
        3 => "v",
        4 => "-",
        _ => "+",
    }
}

fn leaves_by(mesh: &Mesh, flit: &Flit, port: u8) -> bool
    ensures { result ≡ spec.leaves_by mesh.now port flit.now }
{
    match exit_port(mesh, flit) {
        Some(exit) => exit == port,
        None => false,
    }
}

fn is_left_by(mesh: &Mesh, station: &Station, port: u8) -> bool
    ensures { result ≡ spec.is_left_by mesh.now port station.now }
{
    let flits = station.held.as_slice();
    flits.iter().any(|flit| leaves_by(mesh, flit, port))
}

fn is_way(mesh: &Mesh, view: &NodeView, port: u8) -> bool
    ensures { result ≡ spec.is_way mesh.now port view.now }
{
    let stations = view.stations.as_slice();
    stations
        .iter()
        .any(|station| is_left_by(mesh, station, port))
}

fn add_way(map: &mut String, mesh: &Mesh, view: &NodeView, port: u8) -> Result<(), AllocError>
    ensures { OnOk result (string_bytes map.new ≡ string_bytes map.old ++ spec.way_text mesh.now view.now port) }
{
    if is_way(mesh, view, port) {
        put(map, sign_of(mesh, port))
    } else {
        put(map, " ")
    }
}

fn add_ways(map: &mut String, mesh: &Mesh, view: &NodeView) -> Result<(), AllocError>
    ensures { OnOk result (string_bytes map.new ≡ string_bytes map.old ++ spec.ways_text mesh.now view.now) }
{
    for port in 0..2 * mesh.dims() + 1 {
        add_way(map, mesh, view, port)?;
    }
    Ok(())
}

fn add_count(map: &mut String, held: usize) -> Result<(), AllocError>
    ensures { OnOk result (string_bytes map.new ≡ string_bytes map.old ++ spec.count_text held) }
{
    if held == 0 {
        put(map, "   .")
    } else {
        write!(map, "{held:>4}")
    }
}

fn add_cell(map: &mut String, mesh: &Mesh, view: &NodeView) -> Result<(), AllocError>
    ensures { OnOk result (string_bytes map.new ≡ string_bytes map.old ++ spec.cell mesh.now view.now) }
{
    add_count(map, view.held())?;
    add_ways(map, mesh, view)
}

fn add_if_in(
    map: &mut String,
    mesh: &Mesh,
    view: &NodeView,
    slice: u8,
    row: u8,
) -> Result<(), AllocError>
    ensures { OnOk result (string_bytes map.new
        ≡ string_bytes map.old ++ spec.cell_in mesh.now slice row view.now) }
{
    let node = view.node;
    if digit(mesh, node, 1) == row && digit(mesh, node, 2) == slice {
        add_cell(map, mesh, view)
    } else {
        Ok(())
    }
}

fn add_row(
    map: &mut String,
    mesh: &Mesh,
    views: &[NodeView],
    slice: u8,
    row: u8,
) -> Result<(), AllocError>
    ensures { OnOk result (string_bytes map.new
        ≡ string_bytes map.old ++ flat_map (spec.cell_in mesh.now slice row) views.now) }
{
    for view in views {
        add_if_in(map, mesh, view, slice, row)?;
    }
    Ok(())
}

fn add_line(
    map: &mut String,
    mesh: &Mesh,
    views: &[NodeView],
    slice: u8,
    row: u8,
) -> Result<(), AllocError>
    ensures { OnOk result (string_bytes map.new
        ≡ string_bytes map.old ++ spec.cell_line mesh.now views.now slice row) }
{
    add_row(map, mesh, views, slice, row)?;
    put(map, "\n")
}

fn add_lines(map: &mut String, mesh: &Mesh, views: &[NodeView], slice: u8) -> Result<(), AllocError>
    ensures { OnOk result (string_bytes map.new
        ≡ string_bytes map.old ++ spec.slice_lines mesh.now views.now slice) }
{
    for row in 0..radix(mesh, 1) {
        add_line(map, mesh, views, slice, row)?;
    }
    Ok(())
}

fn add_slice(map: &mut String, mesh: &Mesh, views: &[NodeView], slice: u8) -> Result<(), AllocError>
    ensures { OnOk result (string_bytes map.new
        ≡ string_bytes map.old ++ spec.slice_text mesh.now views.now slice) }
{
    put(map, if slice == 0 { "" } else { "\n" })?;
    add_lines(map, mesh, views, slice)
}

fn add_cells(map: &mut String, mesh: &Mesh, views: &[NodeView]) -> Result<(), AllocError>
    ensures { OnOk result (string_bytes map.new ≡ string_bytes map.old ++ spec.cells mesh.now views.now) }
{
    for slice in 0..radix(mesh, 2) {
        add_slice(map, mesh, views, slice)?;
    }
    Ok(())
}

fn add_exit(map: &mut String, mesh: &Mesh, exit: Option<u8>) -> Result<(), AllocError>
    ensures { OnOk result (string_bytes map.new ≡ string_bytes map.old ++ spec.exit_text mesh.now exit) }
{
    match exit {
        None => Ok(()),
        Some(port) => {
            let sign = sign_of(mesh, port);
            write!(map, ", which leaves by port {port} {sign}")
        }
    }
}

fn add_flit(map: &mut String, flit: &Flit) -> Result<(), AllocError>
    ensures { OnOk result (string_bytes map.new ≡ string_bytes map.old ++ spec.flit_text flit.now) }
{
    let src = flit.packet.lane.src;
    let dst = flit.packet.lane.dst;
    let class = flit.packet.lane.class;
    let id = flit.packet.number;
    let index = flit.index;
    write!(
        map,
        ", at the front {src} to {dst} class {class} packet {id} flit {index}"
    )
}

fn add_front(map: &mut String, mesh: &Mesh, held: &[Flit]) -> Result<(), AllocError>
    ensures { OnOk result (string_bytes map.new ≡ string_bytes map.old ++ spec.front_text mesh.now held.now) }
{
    match held {
        [] => Ok(()),
        [first, ..] => {
            add_flit(map, first)?;
            add_exit(map, mesh, exit_port(mesh, first))
        }
    }
}

fn add_spot(map: &mut String, station: &Station) -> Result<(), AllocError>
    ensures { OnOk result (string_bytes map.new ≡ string_bytes map.old ++ spec.spot_text station.now) }
{
    let node = station.spot.node;
    let port = station.spot.port;
    let vc = station.spot.vc;
    let count = station.held.len();
    write!(map, "node {node} port {port} channel {vc}: {count} flits")
}

fn add_buffer(map: &mut String, mesh: &Mesh, station: &Station) -> Result<(), AllocError>
    ensures { OnOk result (string_bytes map.new ≡ string_bytes map.old ++ spec.buffer_line mesh.now station.now) }
{
    add_spot(map, station)?;
    add_front(map, mesh, station.held.as_slice())?;
    put(map, "\n")
}

/// Lists the buffer if it holds `count` flits and there is room, and answers what room is left.
fn add_if_with(
    map: &mut String,
    mesh: &Mesh,
    station: &Station,
    count: usize,
    room: usize,
) -> Result<usize, AllocError>
    ensures { IfOk result (ListsBuffers mesh.now room (spec.if_with count station.now) (string_bytes map.old)
        (string_bytes map.new)) }
{
    if station.held.len() != count {
        return Ok(room);
    }
    if room == 0 {
        return Ok(0);
    }
    add_buffer(map, mesh, station)?;
    Ok(room - 1)
}

fn add_buffers(
    map: &mut String,
    mesh: &Mesh,
    stations: &[Station],
    count: usize,
    room: usize,
) -> Result<usize, AllocError>
    ensures { IfOk result (ListsBuffers mesh.now room (flat_map (spec.if_with count) stations.now)
        (string_bytes map.old) (string_bytes map.new)) }
{
    let mut left = room;
    for station in stations {
        left = add_if_with(map, mesh, station, count, left)?;
    }
    Ok(left)
}

fn add_all_with(
    map: &mut String,
    mesh: &Mesh,
    views: &[NodeView],
    count: usize,
    room: usize,
) -> Result<usize, AllocError>
    ensures { IfOk result (ListsBuffers mesh.now room (spec.buffers_with views.now count)
        (string_bytes map.old) (string_bytes map.new)) }
{
    let mut left = room;
    for view in views {
        left = add_buffers(map, mesh, view.stations.as_slice(), count, left)?;
    }
    Ok(left)
}

/// The fullest buffers; of those that hold as many, the ones of lower nodes first.
fn add_fullest(
    map: &mut String,
    mesh: &Mesh,
    views: &[NodeView],
    depth: u8,
) -> Result<usize, AllocError>
    ensures { IfOk result (ListsBuffers mesh.now 12 (spec.by_fullness depth views.now) (string_bytes map.old)
        (string_bytes map.new)) }
{
    let mut left = MOST_LISTED;
    for lack in 0..depth {
        left = add_all_with(map, mesh, views, usize::from(depth - lack), left)?;
    }
    Ok(left)
}

/// The map of these nodes: a cell each, with the flits in its buffers and where they go (`<` `>` along the first
/// dimension, `^` `v` along the second, `-` `+` along the third, `*` to the sink), and the twelve fullest buffers.
pub fn map(alloc: Global, mesh: &Mesh, depth: u8, views: &[NodeView]) -> Result<String, AllocError>
    ensures { IfOk result (λ map. string_bytes map ≡ spec.map_text mesh.now depth views.now) }
{
    let mut map = String::new(alloc);
    add_cells(&mut map, mesh, views)?;
    put(&mut map, "\nThe fullest buffers:\n")?;
    add_fullest(&mut map, mesh, views, depth)?;
    Ok(map)
}
