//! The nodes of a new network.

ghost use Rattle.std.specs.Prelude.{◌≡◌, ◌<◌, ◌≤◌, ◌+◌, IfOk, Some, length, slice_set};
ghost use Rattle.worm_flit.specs.Channels.{AreChannels};
ghost use Rattle.worm_mesh.specs.Address.{AreRadices, node_count};
ghost use Rattle.worm_node.specs.NewNodes.{AreFresh, AreMade, fresh_node};

use crate::Node;
use std::alloc::{AllocError, Global};
use worm_mesh::Mesh;
use worm_router::Router;
use worm_term::{Sink, Source};

/// In how many groups a new network's nodes are made: a group's nodes, of one remainder by this, lie together in
/// memory. A worker of 2, 4, 8 or 16 has whole groups, so that what it uses in a turn lies in few pages.
const GROUPS: u16 = 16;

fn make_node(
    alloc: Global,
    mesh: &Mesh,
    node: u8,
    channels: &[u8],
    depth: u8,
) -> Result<Node, AllocError>
    requires node { node < node_count mesh.now }
    requires few { node_count mesh.now ≤ 256 }
    requires channels { AreChannels channels.now }
    requires depth { (1 ≤ depth) × (depth ≤ 16) }
    ensures { IfOk result (λ n. n ≡ fresh_node mesh.now channels.now depth node) }
{
    let Ok(source) = Source::new(alloc, node, mesh.nodes(), channels) else {
        return Err(AllocError);
    };
    let Ok(router) = Router::new(alloc, mesh, node, channels, depth) else {
        return Err(AllocError);
    };
    let sink = Sink::new(alloc, node);
    Ok(Node {
        router,
        source,
        sink,
    })
}

fn make_places(alloc: Global, count: u16) -> Result<Vec<Option<Node>>, AllocError>
    ensures { IfOk result (λ v. length v.items ≡ count) }
{
    let mut places = Vec::with_capacity(alloc, usize::from(count))?;
    for _place in 0..count {
        places.push(None)?;
    }
    Ok(places)
}

fn put(places: &mut Vec<Option<Node>>, number: u16, node: Node)
    requires { number < length places.old.items }
    ensures { places.new.items ≡ slice_set places.old.items number (Some node) }
{
    places[usize::from(number)] = Some(node);
}

fn make_group(
    alloc: Global,
    mesh: &Mesh,
    channels: &[u8],
    depth: u8,
    group: u16,
    places: &mut Vec<Option<Node>>,
) -> Result<(), AllocError>
    requires mesh { AreRadices mesh.now }
    requires channels { AreChannels channels.now }
    requires depth { (1 ≤ depth) × (depth ≤ 16) }
    requires group { group < 16 }
    requires places { length places.old.items ≡ node_count mesh.now }
    requires made { AreMade mesh.now channels.now depth group places.old.items }
    ensures places { IfOk result (λ _. length places.new.items ≡ node_count mesh.now) }
    ensures made { IfOk result (λ _. AreMade mesh.now channels.now depth (group + 1) places.new.items) }
{
    let count = mesh.nodes();
    let mut node = group;
    while node < count {
        let made = make_node(alloc, mesh, node as u8, channels, depth)?;
        put(places, node, made);
        node += GROUPS;
    }
    Ok(())
}

fn make_groups(
    alloc: Global,
    mesh: &Mesh,
    channels: &[u8],
    depth: u8,
) -> Result<Vec<Option<Node>>, AllocError>
    requires mesh { AreRadices mesh.now }
    requires channels { AreChannels channels.now }
    requires depth { (1 ≤ depth) × (depth ≤ 16) }
    ensures places { IfOk result (λ v. length v.items ≡ node_count mesh.now) }
    ensures made { IfOk result (λ v. AreMade mesh.now channels.now depth 16 v.items) }
{
    let mut places = make_places(alloc, mesh.nodes())?;
    for group in 0..GROUPS {
        make_group(alloc, mesh, channels, depth, group, &mut places)?;
    }
    Ok(places)
}

/// The nodes of a new network.
pub fn make_nodes(
    alloc: Global,
    mesh: &Mesh,
    channels: &[u8],
    depth: u8,
) -> Result<Vec<Node>, AllocError>
    requires mesh { AreRadices mesh.now }
    requires channels { AreChannels channels.now }
    requires depth { (1 ≤ depth) × (depth ≤ 16) }
    ensures all { IfOk result (λ v. length v.items ≡ node_count mesh.now) }
    ensures fresh { IfOk result (λ v. AreFresh mesh.now channels.now depth v.items) }
{
    let mut places = make_groups(alloc, mesh, channels, depth)?;
    let mut nodes = Vec::with_capacity(alloc, places.len())?;
    for x in 0..places.len() {
        let Some(node) = places[x].take() else {
            unreachable!()
        };
        nodes.push(node)?;
    }
    Ok(nodes)
}
