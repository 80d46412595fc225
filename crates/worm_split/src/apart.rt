//! A network taken apart. What a split exchanges between it and a worker's lists, the join exchanges back.

ghost use Rattle.std.specs.Prelude.{◌≡◌, ◌<◌, length};
ghost use Rattle.worm_region.specs.Owned.{owned_by};
ghost use Rattle.worm_split.specs.Apart.{ArePaired, Fits, IsExchanged};
ghost use Rattle.worm_split.specs.Exchange.{EndsSwapped, LinksSwapped, NodesSwapped, SwapsEnd, SwapsLink, SwapsNode};

use crate::ends::{End, EndPair};
use std::marker::Model;
use std::mem::swap;
use worm_core::{Config, Inboxes, LinkState, Node, Owner};
use worm_mesh::LinkEnds;

/// A network taken apart, as the last worker keeps it till its parts are joined. What stands in the place of a node
/// that a worker has, or on the links, is not looked at.
#[derive(Drop)]
pub struct TakenApart {
    pub(crate) config: Config,
    /// The two nodes of each link, by the link's number.
    pub(crate) ways: Vec<LinkEnds>,
    pub(crate) nodes: Vec<Node>,
    pub(crate) links: Vec<LinkState>,
    pub(crate) inboxes: Inboxes,
    /// Both ends of each link between two workers, by the link's number.
    pub(crate) pairs: Vec<EndPair>,
}

impl Model for TakenApart {
    ghost use Rattle.worm_split.specs.Apart.{Apart, Fits, taken_apart};

    ghost Value = { Apart };

    ghost view = { λ k. taken_apart k.config k.ways.items k.nodes.items k.links.items k.pairs.items };

    ghost invariant = { λ k. Fits (taken_apart k.config k.ways.items k.nodes.items k.links.items k.pairs.items) };
}

pub(crate) fn owns(own: Owner, node: u8) -> bool
    requires { 0 < own.workers }
    ensures { result ≡ owned_by own node }
{
    u16::from(node) % own.workers == own.worker
}

fn swap_node(kept: &mut Node, node: &mut Node, own: bool)
    ensures { SwapsNode own kept.old node.old kept.new node.new }
{
    if own {
        swap(kept, node);
    }
}

fn swap_nodes(kept: &mut Vec<Node>, nodes: &mut Vec<Node>, own: Owner)
    requires workers { 0 < own.workers }
    requires length { length nodes.old.items ≡ length kept.old.items }
    requires few { length kept.old.items < 257 }
    ensures { NodesSwapped own (length kept.old.items) kept.old.items nodes.old.items kept.new.items nodes.new.items }
{
    for x in 0..kept.len() {
        swap_node(&mut kept[x], &mut nodes[x], owns(own, x as u8));
    }
}

/// Flits go with the link's far end, credits with its near one: each with the worker that takes them.
fn swap_link(kept: &mut LinkState, link: &mut LinkState, near: bool, far: bool)
    ensures { SwapsLink near far kept.old link.old kept.new link.new }
{
    if far {
        kept.swap_flits(link);
    }
    if near {
        kept.swap_credits(link);
    }
}

fn swap_links(
    kept: &mut Vec<LinkState>,
    links: &mut Vec<LinkState>,
    ways: &Vec<LinkEnds>,
    own: Owner,
)
    requires workers { 0 < own.workers }
    requires length { length links.old.items ≡ length kept.old.items }
    requires ways { length ways.now.items ≡ length kept.old.items }
    ensures { LinksSwapped own ways.now.items (length kept.old.items) kept.old.items links.old.items kept.new.items
        links.new.items }
{
    for k in 0..ways.len() {
        let way = ways[k];
        swap_link(
            &mut kept[k],
            &mut links[k],
            owns(own, way.from),
            owns(own, way.to),
        );
    }
}

fn swap_end(pair: &mut EndPair, end: &mut End, near: bool, far: bool)
    ensures { SwapsEnd near far pair.old end.old pair.new end.new }
{
    if near && !far {
        swap(&mut pair.out, end);
    } else if far && !near {
        swap(&mut pair.into, end);
    }
}

fn swap_ends(pairs: &mut Vec<EndPair>, ends: &mut Vec<End>, ways: &Vec<LinkEnds>, own: Owner)
    requires workers { 0 < own.workers }
    requires length { length ends.old.items ≡ length pairs.old.items }
    requires ways { length ways.now.items ≡ length pairs.old.items }
    ensures { EndsSwapped own ways.now.items (length pairs.old.items) pairs.old.items ends.old.items pairs.new.items
        ends.new.items }
{
    for k in 0..ways.len() {
        let way = ways[k];
        swap_end(
            &mut pairs[k],
            &mut ends[k],
            owns(own, way.from),
            owns(own, way.to),
        );
    }
}

impl TakenApart {
    pub(crate) fn recall(&self)
        ensures { Fits self.now }
    {
        let _config = &self.config;
    }

    pub(crate) fn exchange(
        &mut self,
        nodes: &mut Vec<Node>,
        links: &mut Vec<LinkState>,
        ends: &mut Vec<End>,
        own: Owner,
    )
        requires workers { 0 < own.workers }
        requires paired { ArePaired self.old nodes.old.items links.old.items ends.old.items }
        ensures { IsExchanged own self.old self.new nodes.old.items nodes.new.items links.old.items links.new.items
            ends.old.items ends.new.items }
    {
        swap_nodes(&mut self.nodes, nodes, own);
        swap_links(&mut self.links, links, &self.ways, own);
        swap_ends(&mut self.pairs, ends, &self.ways, own);
    }
}
